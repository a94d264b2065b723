// Apply: the worker sends the session in its hand to the store, and the call's fate says what becomes of that.
#![tactic(auto)]

ghost use Rattle.std.specs.Prelude.{◌≡◌, true, cond, ◌&&◌, not, List, ℤ};
ghost use Rattle.rules.specs.Tables.{full, replied};
ghost use Rattle.rules.specs.Calls.{Apply};
ghost use Rattle.rules.specs.Effects.{carried};
ghost use Rattle.workers.specs.View.{view_hand};
ghost use Rattle.rows.specs.View.{view_rows};
ghost use Rattle.answers.specs.View.{view_answer};
ghost use Rattle.plant.specs.View.{view_plant, kept_plant, plant_form};
ghost use Rattle.answers.specs.Own.{is_answer_of};
ghost use Rattle.promises.specs.Promise.{Answers, Performs};
ghost use Rattle.call_apply.specs.Told.{no_row_for, told, view_fate, FateOf};
ghost use Rattle.call_apply.specs.Left.{left};

use answers::{Answer, Refusal, Reply};
use plant::Plant;
use rows::Rows;
use store::Store;
use workers::{Hand, Hands};

// What becomes of the call: the reply arrives, is lost, or the store is never reached.
#[derive(Clone, Copy)]
enum Fate {
    Arrives = 0,
    Lost = 1,
    Unreached = 2,
}

impl TryFrom<i64> for Fate {
    type Error = Refusal;

    ghost try_from_gives = { FateOf };

    fn try_from(z: i64) -> Result<Self, Refusal> {
        match z {
            0 => Ok(Fate::Arrives),
            1 => Ok(Fate::Lost),
            2 => Ok(Fate::Unreached),
            _ => Err(Refusal::OutOfRange),
        }
    }
}

// A session in it has had no reply.
fn waits(hand: Hand) -> bool
    ensures { result ≡ full (view_hand hand) && not (replied (view_hand hand)) }
{
    hand.is_full() && !hand.is_replied()
}

// What is told of a session that is sent to the store.
fn reply(rows: Rows, n: u32, fate: Fate) -> Result<Answer, Refusal>
    ensures shows { view_answer result ≡ told (view_rows rows) n (view_fate fate) }
    ensures own { (w f : ℤ) → is_answer_of (Apply w f) result ≡ true }
{
    match fate {
        Fate::Arrives if rows.has(n) => Ok(Answer::Applied(Reply::DoneBefore)),
        Fate::Arrives if Rows::LIMIT <= rows.len() as usize => Err(Refusal::RowsFull),
        Fate::Arrives => Ok(Answer::Applied(Reply::Done)),
        Fate::Lost | Fate::Unreached => Ok(Answer::Applied(Reply::NoWord)),
    }
}

pub fn answer(p: Plant, worker: i64, fate: i64) -> Result<Answer, Refusal>
    ensures answers { (lent : List ℤ) → Answers (Apply worker fate) lent p result }
    ensures own { is_answer_of (Apply worker fate) result ≡ true }
{
    let w = arguments::index(worker, Hands::LIMIT as u8).ok_or(Refusal::OutOfRange)?;
    let fate = Fate::try_from(fate)?;
    let hand = p.hands.hand(w);
    if !waits(hand) {
        return Err(Refusal::WrongHand);
    }
    if !p.near {
        return Err(Refusal::StoreAway);
    }
    let number = hand.handed();
    reply(p.rows, number, fate)
}

// The tables that the call writes, as it leaves them.
#[derive(Clone, Copy)]
pub struct Left {
    pub store: Store,
    pub rows: Rows,
    pub hands: Hands,
}

// The store's transaction: the changes and the row, or nothing where the row is there or finds no room.
fn carry(p: Plant, n: u32) -> Left
    ensures shows { kept_plant p ≡ true → view_plant (left p result) ≡ cond (no_row_for (view_rows p.rows) n) (view_plant p) (carried n (view_plant p)) }
    ensures form { plant_form p ≡ true → plant_form (left p result) ≡ true }
{
    let store = p.store;
    let rows = p.rows;
    let hands = p.hands;
    let full = Rows::LIMIT <= rows.len() as usize;
    if full || rows.has(n) {
        return Left { store, rows, hands };
    }
    let changes = p.buffer.changes_of(n);
    let store = store.follow(changes);
    let rows = rows.push(n);
    Left { store, rows, hands }
}

pub fn after(p: Plant, worker: i64, fate: i64) -> Left
    ensures shows { Performs (Apply worker fate) p (left p result) }
    ensures form { plant_form p ≡ true → plant_form (left p result) ≡ true }
{
    let w = arguments::index(worker, Hands::LIMIT as u8).unwrap_or(Hands::LIMIT as u8);
    let fate = Fate::try_from(fate).unwrap_or(Fate::Unreached);
    // An arm of one `match` for each fate would have its tables cleared first and copied out of it.
    if let Fate::Unreached = fate {
        return Left {
            store: p.store,
            rows: p.rows,
            hands: p.hands,
        };
    }
    let hand = p.hands.hand(w);
    let mut t = carry(p, hand.handed());
    if let Fate::Arrives = fate {
        t.hands = t.hands.with(w, hand.answered());
    }
    t
}
