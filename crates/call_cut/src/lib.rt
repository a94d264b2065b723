// Cut: the worker's hand is empty, and a queue lease of its own runs on in nobody's name.
#![tactic(auto)]

ghost use Rattle.std.specs.Prelude.{◌≡◌, true, List, ℤ};
ghost use Rattle.rules.specs.Calls.{Cut};
ghost use Rattle.plant.specs.View.{plant_form};
ghost use Rattle.answers.specs.Own.{is_answer_of};
ghost use Rattle.promises.specs.Promise.{Answers, Performs};
ghost use Rattle.call_cut.specs.Left.{left};

use answers::{Answer, Refusal};
use plant::Plant;
use workers::{Hand, Hands, Queue};

pub fn answer(p: Plant, worker: i64) -> Result<Answer, Refusal>
    ensures answers { (lent : List ℤ) → Answers (Cut worker) lent p result }
    ensures own { is_answer_of (Cut worker) result ≡ true }
{
    arguments::index(worker, Hands::LIMIT as u8).ok_or(Refusal::OutOfRange)?;
    Ok(Answer::Done)
}

// The tables that the call writes, as it leaves them.
#[derive(Clone, Copy)]
pub struct Left {
    pub hands: Hands,
    pub queue: Queue,
}

pub fn after(p: Plant, worker: i64) -> Left
    ensures shows { Performs (Cut worker) p (left p result) }
    ensures form { plant_form p ≡ true → plant_form (left p result) ≡ true }
{
    let w = arguments::index(worker, Hands::LIMIT as u8).unwrap_or(Hands::LIMIT as u8);
    let hand = Hand::empty();
    let hands = p.hands.with(w, hand);
    let queue = p.queue.orphaned(w);
    Left { hands, queue }
}
