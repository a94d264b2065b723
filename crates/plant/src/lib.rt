// The plant: all tables in one struct.
#![tactic(auto)]

ghost use Rattle.std.specs.Prelude.{◌≡◌, true};
ghost use Rattle.rules.specs.Tables.{setup};
ghost use Rattle.plant.specs.View.{view_plant, kept_plant};

use buffer::Buffer;
use cache::Cache;
use keys::Keys;
use rows::Rows;
use sessions::Sessions;
use store::Store;
use workers::{Hands, Queue};

// Beside the tables: the clock, whether the store is near, and the number of the next session.
#[derive(Clone, Copy)]
pub struct Plant {
    pub store: Store,
    pub keys: Keys,
    pub cache: Cache,
    pub sessions: Sessions,
    pub buffer: Buffer,
    pub rows: Rows,
    pub hands: Hands,
    pub queue: Queue,
    pub clock: u64,
    pub near: bool,
    pub next: u64,
}

impl Plant {
    pub const FIRST_SESSION: u64 = 1;

    // The plant at set-up.
    pub fn empty() -> Self
        ensures shows { view_plant result ≡ setup }
        ensures kept { kept_plant result ≡ true }
    {
        let store = Store::empty();
        let keys = Keys::empty();
        let cache = Cache::empty();
        let sessions = Sessions::empty();
        let buffer = Buffer::empty();
        let rows = Rows::empty();
        let hands = Hands::empty();
        let queue = Queue::empty();
        Self {
            store,
            keys,
            cache,
            sessions,
            buffer,
            rows,
            hands,
            queue,
            clock: 0,
            near: true,
            next: Self::FIRST_SESSION,
        }
    }
}
