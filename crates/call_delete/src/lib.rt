// Delete: the session in the worker's hand leaves the buffer, the hand is empty, and a queue lease of the worker's own ends.
#![tactic(auto)]

ghost use Rattle.std.specs.Prelude.{◌≡◌, true, List, ℤ};
ghost use Rattle.rules.specs.Calls.{Delete};
ghost use Rattle.plant.specs.View.{plant_form};
ghost use Rattle.answers.specs.Own.{is_answer_of};
ghost use Rattle.promises.specs.Promise.{Answers, Performs};
ghost use Rattle.call_delete.specs.Left.{left};

use answers::{Answer, Refusal};
use buffer::Buffer;
use plant::Plant;
use workers::{Hand, Hands, Queue};

pub fn answer(p: Plant, worker: i64) -> Result<Answer, Refusal>
    ensures answers { (lent : List ℤ) → Answers (Delete worker) lent p result }
    ensures own { is_answer_of (Delete worker) result ≡ true }
{
    let w = arguments::index(worker, Hands::LIMIT as u8).ok_or(Refusal::OutOfRange)?;
    let hand = p.hands.hand(w);
    if !hand.is_replied() {
        return Err(Refusal::WrongHand);
    }
    let number = hand.handed();
    Ok(Answer::Deleted(p.buffer.has(number)))
}

// The tables that the call writes, as it leaves them.
#[derive(Clone, Copy)]
pub struct Left {
    pub buffer: Buffer,
    pub hands: Hands,
    pub queue: Queue,
}

pub fn after(p: Plant, worker: i64) -> Left
    ensures shows { Performs (Delete worker) p (left p result) }
    ensures form { plant_form p ≡ true → plant_form (left p result) ≡ true }
{
    let w = arguments::index(worker, Hands::LIMIT as u8).unwrap_or(Hands::LIMIT as u8);
    let held = p.hands;
    let hand = held.hand(w);
    let number = hand.handed();
    let none = Hand::empty();
    let buffer = p.buffer.without(number);
    let hands = held.with(w, none);
    let queue = p.queue.ended(w);
    Left {
        buffer,
        hands,
        queue,
    }
}
