// Take: the worker gets the oldest buffered session into its hand, and the queue lease.
#![tactic(auto)]

ghost use Rattle.std.specs.Prelude.{◌≡◌, true, List, ℤ};
ghost use Rattle.rules.specs.Calls.{Take};
ghost use Rattle.plant.specs.View.{plant_form};
ghost use Rattle.answers.specs.Own.{is_answer_of};
ghost use Rattle.promises.specs.Promise.{Answers, Performs};
ghost use Rattle.call_take.specs.Left.{left};

use answers::{Answer, Refusal};
use plant::Plant;
use workers::{Hand, Hands, Queue};

pub fn answer(p: Plant, worker: i64) -> Result<Answer, Refusal>
    ensures answers { (lent : List ℤ) → Answers (Take worker) lent p result }
    ensures own { is_answer_of (Take worker) result ≡ true }
{
    let w = arguments::index(worker, Hands::LIMIT as u8).ok_or(Refusal::OutOfRange)?;
    let hand = p.hands.hand(w);
    if hand.is_full() {
        return Err(Refusal::WrongHand);
    }
    if p.queue.is_leased() {
        return Err(Refusal::QueueLeased);
    }
    if p.buffer.is_empty() {
        return Err(Refusal::NothingBuffered);
    }
    Ok(Answer::Taken(p.buffer.oldest()))
}

// The tables that the call writes, as it leaves them.
#[derive(Clone, Copy)]
pub struct Left {
    pub hands: Hands,
    pub queue: Queue,
}

pub fn after(p: Plant, worker: i64) -> Left
    ensures shows { Performs (Take worker) p (left p result) }
    ensures form { plant_form p ≡ true → plant_form (left p result) ≡ true }
{
    let w = arguments::index(worker, Hands::LIMIT as u8).unwrap_or(Hands::LIMIT as u8);
    let number = p.buffer.oldest();
    let hand = Hand::holding(number);
    let hands = p.hands.with(w, hand);
    let queue = Queue::taken(w, p.clock);
    Left { hands, queue }
}
