// No code: what the functions of a call promise, in terms of the rules' step, and the laws that their proofs use.
#![tactic(auto)]
