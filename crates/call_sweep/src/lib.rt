// Sweep: of the rows that may go the first sixteen are removed from the store.
#![tactic(auto)]

ghost use Rattle.std.specs.Prelude.{◌≡◌, true, List, ℤ, take};
ghost use Rattle.rules.specs.Limits.{sweep_limit};
ghost use Rattle.rules.specs.Lists.{keep};
ghost use Rattle.rules.specs.Tables.{unneeded};
ghost use Rattle.rules.specs.Calls.{Sweep};
ghost use Rattle.rows.specs.View.{view_rows};
ghost use Rattle.plant.specs.View.{plant_form};
ghost use Rattle.plant.specs.With.{with_rows};
ghost use Rattle.answers.specs.Own.{is_answer_of};
ghost use Rattle.promises.specs.Promise.{Answers, Performs};
ghost use Rattle.buffer.specs.View.{view_buffer};
ghost use Rattle.workers.specs.View.{view_hands};

use answers::{Answer, Refusal};
use buffer::Buffer;
use plant::Plant;
use rows::Rows;
use workers::Hands;

// The most rows that a sweep removes.
const SWEEP_LIMIT: usize = 16;

// The session is neither buffered nor in a hand.
fn may_go(buffer: Buffer, hands: Hands, n: u32) -> bool
    ensures { result ≡ unneeded (view_buffer buffer) (view_hands hands) n }
{
    !buffer.has(n) && !hands.any_holds(n)
}

// The first rows that may go, in the order in which they were applied.
fn removed(rows: Rows, buffer: Buffer, hands: Hands) -> Rows
    ensures { view_rows result ≡ take sweep_limit (keep (unneeded (view_buffer buffer) (view_hands hands)) (view_rows rows)) }
{
    let going = lists::used(&rows.numbers, rows.count)
        .iter()
        .filter(|n| may_go(buffer, hands, **n))
        .take(SWEEP_LIMIT);
    let mut gone = Rows::empty();
    for n in going {
        gone = gone.push(*n);
    }
    gone
}

pub fn answer(p: Plant) -> Result<Answer, Refusal>
    ensures answers { (lent : List ℤ) → Answers Sweep lent p result }
    ensures own { is_answer_of Sweep result ≡ true }
{
    if !p.near {
        return Err(Refusal::StoreAway);
    }
    let gone = removed(p.rows, p.buffer, p.hands);
    Ok(Answer::Swept(gone.len()))
}

pub fn after(p: Plant) -> Rows
    ensures shows { Performs Sweep p (with_rows p result) }
    ensures form { plant_form p ≡ true → plant_form (with_rows p result) ≡ true }
{
    let rows = p.rows;
    let gone = removed(rows, p.buffer, p.hands);
    rows.without(gone)
}
