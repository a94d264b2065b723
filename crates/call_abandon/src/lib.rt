// Abandon: the session ends, and its changes with it.
#![tactic(auto)]

ghost use Rattle.std.specs.Prelude.{◌≡◌, true, List, ℤ};
ghost use Rattle.rules.specs.Calls.{Abandon};
ghost use Rattle.plant.specs.View.{plant_form};
ghost use Rattle.plant.specs.With.{with_sessions};
ghost use Rattle.answers.specs.Own.{is_answer_of};
ghost use Rattle.promises.specs.Promise.{Answers, Performs};

use answers::{Answer, Refusal};
use plant::Plant;
use sessions::Sessions;

pub fn answer(p: Plant, session: i64) -> Result<Answer, Refusal>
    ensures answers { (lent : List ℤ) → Answers (Abandon session) lent p result }
    ensures own { is_answer_of (Abandon session) result ≡ true }
{
    let n = arguments::session(session);
    let sessions = p.sessions;
    caller::of(sessions, n)?;
    Ok(Answer::Done)
}

pub fn after(p: Plant, session: i64) -> Sessions
    ensures shows { Performs (Abandon session) p (with_sessions p result) }
    ensures form { plant_form p ≡ true → plant_form (with_sessions p result) ≡ true }
{
    caller::ended(p, session)
}
