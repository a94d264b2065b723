// Commit: the session's changes go to the buffer, cached keys show them from now on, and the session ends. The store is not touched.
#![tactic(auto)]

ghost use Rattle.std.specs.Prelude.{◌≡◌, true, List, ℤ};
ghost use Rattle.rules.specs.Calls.{Commit};
ghost use Rattle.rules.specs.Effects.{buffered_after};
ghost use Rattle.changes.specs.View.{view_changes};
ghost use Rattle.changes.specs.Form.{changes_form};
ghost use Rattle.buffer.specs.View.{view_buffer};
ghost use Rattle.buffer.specs.Form.{buffer_form};
ghost use Rattle.plant.specs.View.{plant_form};
ghost use Rattle.answers.specs.Own.{is_answer_of};
ghost use Rattle.promises.specs.Promise.{Answers, Performs};
ghost use Rattle.call_commit.specs.Left.{left};

use answers::{Answer, Refusal};
use buffer::Buffer;
use buffer::batch::Batch;
use cache::Cache;
use changes::Changes;
use plant::Plant;
use sessions::Sessions;

// A session without changes is not buffered.
fn buffered(b: Buffer, number: u32, changes: Changes) -> Buffer
    ensures shows { view_buffer result ≡ buffered_after number (view_changes changes) (view_buffer b) }
    ensures form { changes_form changes ≡ true → buffer_form b ≡ true → buffer_form result ≡ true }
{
    if changes.is_empty() {
        return b;
    }
    let committed = Batch { number, changes };
    b.push(committed)
}

pub fn answer(p: Plant, session: i64) -> Result<Answer, Refusal>
    ensures answers { (lent : List ℤ) → Answers (Commit session) lent p result }
    ensures own { is_answer_of (Commit session) result ≡ true }
{
    let n = arguments::session(session);
    let sessions = p.sessions;
    let s = caller::of(sessions, n)?;
    let count = p.buffer.len();
    if s.changes.is_empty() {
        return Ok(Answer::Committed(count));
    }
    if Buffer::LIMIT <= count as usize {
        return Err(Refusal::BufferFull);
    }
    Ok(Answer::Committed(count + 1))
}

// The tables that the call writes, as it leaves them.
#[derive(Clone, Copy)]
pub struct Left {
    pub buffer: Buffer,
    pub cache: Cache,
    pub sessions: Sessions,
}

pub fn after(p: Plant, session: i64) -> Left
    ensures shows { Performs (Commit session) p (left p result) }
    ensures form { plant_form p ≡ true → plant_form (left p result) ≡ true }
{
    let n = arguments::session(session);
    let mut t = Left {
        buffer: p.buffer,
        cache: p.cache,
        sessions: p.sessions,
    };
    let s = t.sessions.session(n);
    t.buffer = buffered(t.buffer, n, s.changes);
    t.cache = t.cache.up_to_date(p.keys, s.changes);
    t.sessions = t.sessions.freed(n);
    t
}
