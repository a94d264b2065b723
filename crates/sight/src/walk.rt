// The walk from the newest change back, which decides without the store whether a place is known.
ghost use Rattle.std.specs.Prelude.{◌≡◌};
ghost use Rattle.rules.specs.Reading.{walk_back};
ghost use Rattle.keys.specs.View.{view_place};
ghost use Rattle.changes.specs.View.{view_changes};
ghost use Rattle.buffer.specs.View.{view_buffer};
ghost use Rattle.sight.specs.walk.View.{view_walk, Since};

use buffer::Buffer;
use changes::Changes;
use keys::Place;

// Where it found a change that sets or unsets the place, as the number of buffered sessions that it did not reach, and how many changes it looked at.
#[derive(Clone, Copy)]
pub struct Walk {
    pub found: Option<u8>,
    pub looked: u16,
}

// It starts at the newest change and stops at the first set or unset of the place: over the session's own changes, which are the newest, then over the
// buffered sessions. A session's loop is as long as its table, so that its changes need not be copied for it.
pub fn back(buffer: Buffer, own: Changes, q: Place) -> Walk
    ensures shows { view_walk result ≡ walk_back (view_buffer buffer) (view_changes own) (view_place q) }
    ensures since { Since (view_buffer buffer) (view_changes own) (view_place q) result }
{
    let mut changes = own;
    let mut from = buffer.len();
    let mut looked: u16 = 0;
    let found = 'walk: loop {
        let count = changes.len();
        for c in (0..Changes::LIMIT as u8).rev() {
            if changes.sets_at(c, q) {
                looked += (count - c) as u16;
                break 'walk Some(from);
            }
        }
        looked += count as u16;
        if from == 0 {
            break 'walk None;
        }
        from -= 1;
        let b = buffer.batches[from as usize];
        changes = b.changes;
    };
    Walk { found, looked }
}
