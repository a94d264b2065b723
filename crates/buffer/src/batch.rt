// A committed session that waits for a worker.
ghost use Rattle.std.specs.Prelude.{◌≡◌, true};
ghost use Rattle.buffer.specs.batch.Form.{is_unused};

use changes::Changes;

// A committed session: its number and its changes.
#[derive(Clone, Copy)]
pub struct Batch {
    pub number: u32,
    pub changes: Changes,
}

impl Batch {
    pub fn empty() -> Self
        ensures { is_unused result ≡ true }
    {
        let changes = Changes::empty();
        Self { number: 0, changes }
    }
}
