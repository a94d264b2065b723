// The buffer: committed sessions that wait for a worker, oldest first.
#![tactic(auto)]

pub mod batch;

ghost use Rattle.std.specs.Prelude.{◌≡◌, true, [], length, drop};
ghost use Rattle.rules.specs.Limits.{buffer_limit};
ghost use Rattle.rules.specs.Lists.{is_empty, pushed};
ghost use Rattle.rules.specs.Changes.{run};
ghost use Rattle.rules.specs.Tables.{is_buffered, oldest, batch_of, unbuffer, pending, changes_in};
ghost use Rattle.keys.specs.View.{view_place};
ghost use Rattle.field.specs.View.{view_field, field_form};
ghost use Rattle.changes.specs.View.{view_changes};
ghost use Rattle.changes.specs.Form.{changes_form};
ghost use Rattle.rows.specs.View.{view_rows};
ghost use Rattle.buffer.specs.batch.View.{view_batch};
ghost use Rattle.buffer.specs.batch.Form.{batch_form};
ghost use Rattle.buffer.specs.View.{view_buffer};
ghost use Rattle.buffer.specs.Form.{buffer_form};

use batch::Batch;
use changes::Changes;
use field::Field;
use keys::Place;
use rows::Rows;

#[derive(Clone, Copy)]
pub struct Buffer {
    pub count: u8,
    pub batches: [Batch; Buffer::LIMIT],
}

impl Buffer {
    pub const LIMIT: usize = 32;

    pub fn empty() -> Self
        ensures shows { view_buffer result ≡ [] }
        ensures form { buffer_form result ≡ true }
    {
        Self {
            count: 0,
            batches: [Batch::empty(); Self::LIMIT],
        }
    }

    pub fn len(self) -> u8
        ensures { result ≡ length (view_buffer self) }
    {
        lists::used(&self.batches, self.count).len() as u8
    }

    pub fn is_empty(self) -> bool
        ensures { result ≡ is_empty (view_buffer self) }
    {
        self.count == 0
    }

    // The number of the oldest, 0 if there is none.
    pub fn oldest(self) -> u32
        ensures { result ≡ oldest (view_buffer self) }
    {
        let batches = lists::used(&self.batches, self.count);
        batches.first().map_or(0, |b| b.number)
    }

    pub fn has(self, n: u32) -> bool
        ensures { result ≡ is_buffered n (view_buffer self) }
    {
        let batches = lists::used(&self.batches, self.count);
        batches.iter().any(|b| b.number == n)
    }

    // The changes of a buffered session, none if it is not buffered.
    pub fn changes_of(self, n: u32) -> Changes
        ensures shows { view_changes result ≡ batch_of n (view_buffer self) }
        ensures form { buffer_form self ≡ true → changes_form result ≡ true }
    {
        let batches = lists::used(&self.batches, self.count);
        match batches.iter().find(|b| b.number == n) {
            Some(b) => b.changes,
            None => Changes::empty(),
        }
    }

    // One more, if there is room.
    pub fn push(mut self, b: Batch) -> Self
        ensures shows { view_buffer result ≡ pushed buffer_limit (view_buffer self) (view_batch b) }
        ensures form { batch_form b ≡ true → buffer_form self ≡ true → buffer_form result ≡ true }
    {
        lists::push(&mut self.batches, &mut self.count, b);
        self
    }

    // Without a session, wherever it stands.
    pub fn without(mut self, n: u32) -> Self
        ensures shows { view_buffer result ≡ unbuffer n (view_buffer self) }
        ensures form { buffer_form self ≡ true → buffer_form result ≡ true }
    {
        let blank = Batch::empty();
        lists::keep(&mut self.batches, &mut self.count, blank, |b| b.number != n);
        self
    }

    // A place's field after those, from the one that stands at `from` on, that the store does not have yet. The rows are asked here, because
    // they are copied for each function between.
    pub fn carried(self, from: u8, rows: Rows, q: Place, f: Field) -> Field
        ensures shows { view_field result ≡ run (changes_in (pending (view_rows rows) (drop from (view_buffer self)))) (view_place q) (view_field f) }
        ensures form { field_form f ≡ true → field_form result ≡ true }
    {
        let batches = lists::used(&self.batches, self.count);
        let first = (from as usize).min(batches.len());
        let mut now = f;
        for b in &batches[first..] {
            if b.changes.touches(q) && !rows.has(b.number) {
                now = b.changes.run(q, now);
            }
        }
        now
    }

    // A place's field after all buffered changes from there on: the store has none of them.
    pub fn run(self, from: u8, q: Place, f: Field) -> Field
        ensures shows { view_field result ≡ run (changes_in (drop from (view_buffer self))) (view_place q) (view_field f) }
        ensures form { field_form f ≡ true → field_form result ≡ true }
    {
        self.carried(from, Rows::empty(), q, f)
    }
}
