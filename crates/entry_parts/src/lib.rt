// Over all fifteen calls: what a call answers that is no session's, and the sessions where a refusal ends one. The arms of a session's calls,
// and those that write tables, are the entry's.
#![tactic(auto)]

ghost use Rattle.std.specs.Prelude.{◌≡◌, true, false, List, ℤ};
ghost use Rattle.rules.specs.Step.{session_of, ending};
ghost use Rattle.calls.specs.View.{view_call};
ghost use Rattle.plant.specs.View.{view_plant, kept_plant, plant_form};
ghost use Rattle.plant.specs.With.{with_sessions};
ghost use Rattle.answers.specs.Own.{is_answer_of};
ghost use Rattle.promises.specs.Promise.{Answers};
ghost use Rattle.entry_parts.specs.Session.{has_session};

use answers::{Answer, Refusal};
use calls::Call;
use plant::Plant;
use sessions::Sessions;

// The answer of a call that is no session's. None of these but load, which comes before the first session, hands on a larger table than the sessions, so
// the plant is not copied on its way through here. A session's calls are asked directly, by a loop that owns the plant.
pub fn plain(p: Plant, c: Call) -> Result<Answer, Refusal>
    ensures answers { has_session c ≡ false → (lent : List ℤ) → Answers (view_call c) lent p result }
    ensures own { has_session c ≡ false → is_answer_of (view_call c) result ≡ true }
{
    match c {
        Call::Load(d, f, k, v) => call_load::answer(p, d, f, k, v),
        Call::Map(k, n, d1, f1, d2, f2, d3, f3, d4, f4) => call_map::answer(
            p, k, n, d1, f1, d2, f2, d3, f3, d4, f4,
        ),
        Call::Begin => call_begin::answer(p),
        Call::Advance(n) => call_advance::answer(p, n),
        Call::Take(w) => call_take::answer(p, w),
        Call::Apply(w, f) => call_apply::answer(p, w, f),
        Call::Delete(w) => call_delete::answer(p, w),
        Call::Cut(w) => call_cut::answer(p, w),
        Call::Sweep => call_sweep::answer(p),
        Call::Store(n) => call_store::answer(p, n),
        _ => Ok(Answer::Done),
    }
}

// The sessions where the call was refused and that ended its session. An arm for each call: one pattern for all, which binds the session, is not
// proved by today's checker.
pub fn ended(p: Plant, c: Call) -> Sessions
    ensures shows { kept_plant p ≡ true → view_plant (with_sessions p result) ≡ ending (session_of (view_call c)) (view_plant p) }
    ensures form { plant_form p ≡ true → plant_form (with_sessions p result) ≡ true }
{
    match c {
        Call::Read(s, _) => caller::ended(p, s),
        Call::Change(s, _, _, _, _) => caller::ended(p, s),
        Call::Commit(s) => caller::ended(p, s),
        Call::Abandon(s) => caller::ended(p, s),
        Call::Report(s) => caller::ended(p, s),
        _ => p.sessions,
    }
}
