// Report: how many documents the session holds shared and how many exclusively, and how many changes it has.
#![tactic(auto)]

ghost use Rattle.std.specs.Prelude.{◌≡◌, true, List, ℤ};
ghost use Rattle.rules.specs.Calls.{Report};
ghost use Rattle.answers.specs.Own.{is_answer_of};
ghost use Rattle.promises.specs.Promise.{Answers};

use answers::{Answer, Refusal};
use plant::Plant;

pub fn answer(p: Plant, session: i64) -> Result<Answer, Refusal>
    ensures answers { (lent : List ℤ) → Answers (Report session) lent p result }
    ensures own { is_answer_of (Report session) result ≡ true }
{
    let n = arguments::session(session);
    let sessions = p.sessions;
    let s = caller::of(sessions, n)?;
    let shared = s.shared_count();
    let exclusive = s.exclusive_count();
    let changes = s.changes.len();
    Ok(Answer::Reported(shared, exclusive, changes))
}
