// Advance: the clock goes on by a number of ticks, and what is due lapses.
#![tactic(auto)]

ghost use Rattle.std.specs.Prelude.{◌≡◌, true, cond, List, ℤ, ltb, ◌+◌, suc, Some, None};
ghost use Rattle.rules.specs.Limits.{advance_limit, last_tick};
ghost use Rattle.rules.specs.Calls.{Advance};
ghost use Rattle.plant.specs.View.{plant_form};
ghost use Rattle.answers.specs.Own.{is_answer_of};
ghost use Rattle.arguments.specs.Numbers.{index_of};
ghost use Rattle.promises.specs.Promise.{Answers, Performs};
ghost use Rattle.call_advance.specs.Left.{left};

use answers::{Answer, Refusal};
use cache::Cache;
use plant::Plant;
use sessions::Sessions;
use workers::Queue;

const MOST_TICKS: u64 = 65535;

const LAST_TICK: u64 = 99999999999;

// The ticks, if they are in range.
fn ticks_of(z: i64) -> Option<u64>
    ensures { result ≡ index_of z (suc advance_limit) }
{
    let n = u64::try_from(z).ok()?;
    (n <= MOST_TICKS).then_some(n)
}

// The tick after some ticks, if the clock does not end before.
fn later(clock: u64, n: u64) -> Option<u64>
    ensures { result ≡ cond (ltb last_tick (clock + n)) None (Some (clock + n)) }
{
    let now = clock.checked_add(n)?;
    (now <= LAST_TICK).then_some(now)
}

pub fn answer(p: Plant, ticks: i64) -> Result<Answer, Refusal>
    ensures answers { (lent : List ℤ) → Answers (Advance ticks) lent p result }
    ensures own { is_answer_of (Advance ticks) result ≡ true }
{
    let n = ticks_of(ticks).ok_or(Refusal::OutOfRange)?;
    let now = later(p.clock, n).ok_or(Refusal::ClockEnd)?;
    Ok(Answer::Advanced(now))
}

// The tables that the call writes, as it leaves them.
#[derive(Clone, Copy)]
pub struct Left {
    pub cache: Cache,
    pub sessions: Sessions,
    pub queue: Queue,
    pub clock: u64,
}

pub fn after(p: Plant, ticks: i64) -> Left
    ensures shows { Performs (Advance ticks) p (left p result) }
    ensures form { plant_form p ≡ true → plant_form (left p result) ≡ true }
{
    let n = ticks_of(ticks).unwrap_or(0);
    let now = later(p.clock, n).unwrap_or(p.clock);
    let sessions = p.sessions;
    let lost = sessions.lost(now);
    let keys = p.keys;
    let cached = p.cache;
    let cache = cached.without(keys, lost);
    let sessions = sessions.lapsed(now);
    let queue = p.queue.lapsed(now);
    Left {
        cache,
        sessions,
        queue,
        clock: now,
    }
}
