// Begin: a new session gets the next number, and a slot that is free or whose session is doomed.
#![tactic(auto)]

ghost use Rattle.std.specs.Prelude.{◌≡◌, true, not, ◌&&◌, List, leb, ℤ, length};
ghost use Rattle.rules.specs.Limits.{slot_limit};
ghost use Rattle.rules.specs.Lists.{any};
ghost use Rattle.rules.specs.Calls.{Begin};
ghost use Rattle.sessions.specs.View.{view_sessions};
ghost use Rattle.plant.specs.View.{plant_form};
ghost use Rattle.answers.specs.Own.{is_answer_of};
ghost use Rattle.promises.specs.Promise.{Answers, Performs};
ghost use Rattle.call_begin.specs.Left.{left};

use answers::{Answer, Refusal};
use plant::Plant;
use sessions::Sessions;

// Every slot is taken, and by a session that is not doomed.
fn is_full(t: Sessions) -> bool
    ensures { result ≡ leb slot_limit (length (view_sessions t)) && not (any (λ s. s.session.doomed) (view_sessions t)) }
{
    Sessions::LIMIT <= t.len() as usize && !t.any_doomed()
}

pub fn answer(p: Plant) -> Result<Answer, Refusal>
    ensures answers { (lent : List ℤ) → Answers Begin lent p result }
    ensures own { is_answer_of Begin result ≡ true }
{
    let number = p.next;
    if arguments::LAST_SESSION < number {
        return Err(Refusal::NumbersSpent);
    }
    if is_full(p.sessions) {
        return Err(Refusal::SlotsFull);
    }
    Ok(Answer::Begun(number as u32))
}

// The tables that the call writes, as it leaves them.
#[derive(Clone, Copy)]
pub struct Left {
    pub sessions: Sessions,
    pub next: u64,
}

pub fn after(p: Plant) -> Left
    ensures shows { Performs Begin p (left p result) }
    ensures form { plant_form p ≡ true → plant_form (left p result) ≡ true }
{
    let next = p.next;
    let sessions = p.sessions;
    if arguments::LAST_SESSION < next {
        return Left { sessions, next };
    }
    let sessions = sessions.begun(next as u32, p.clock);
    let next = next + 1;
    Left { sessions, next }
}
