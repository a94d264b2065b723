// Read: the fields of a key's places go into the lent words, the session gets shared leases, and the key may be cached.
#![tactic(auto)]

pub mod admission;

ghost use Rattle.std.specs.Prelude.{◌≡◌, true};
ghost use Rattle.rules.specs.Calls.{Read};
ghost use Rattle.plant.specs.View.{plant_form};
ghost use Rattle.cache.specs.cached.Form.{cached_form};
ghost use Rattle.promises.specs.Promise.{Performs};
ghost use Rattle.call_read.specs.Left.{left};
ghost use Rattle.call_read.specs.Shows.{Shows, filled, shown_by, Found};

use answers::Refusal;
use cache::Cache;
use call_read_shown::{Marked, values};
use field::Field;
use keys::Keys;
use plant::Plant;
use sessions::Sessions;

// What a read shows where so many words are lent, or the refusal that it meets.
pub fn found(p: Plant, session: i64, key: i64, lent: usize) -> Result<Marked, Refusal>
    ensures { Found session key p lent result }
{
    let store = p.store;
    let keys = p.keys;
    let cache = p.cache;
    let sessions = p.sessions;
    let buffer = p.buffer;
    let rows = p.rows;
    let n = arguments::session(session);
    let k = arguments::index(key, Keys::LIMIT as u8).ok_or(Refusal::OutOfRange)?;
    admission::admitted(p.near, keys, cache, sessions, buffer, n, k, lent)?;
    Ok(call_read_shown::shown(p.near, store, keys, cache, sessions, buffer, rows, n, k))
}

// Fills the words, where there are enough: with the fields that a read shows, or with nothing where it is refused. It gives how many that takes.
pub fn fill(found: Result<Marked, Refusal>, words: &mut [i32]) -> usize
    ensures fills { words.new ≡ filled found words.old }
    ensures counts { result ≡ shown_by found }
{
    match found {
        Ok(shown) => {
            values::write(shown.fields, words);
            Field::WORDS * values::len(shown.fields)
        }
        Err(_) => 0,
    }
}

// The tables that the call writes, as it leaves them.
#[derive(Clone, Copy)]
pub struct Left {
    pub cache: Cache,
    pub sessions: Sessions,
}

pub fn after(p: Plant, session: i64, key: i64, shown: Marked) -> Left
    ensures shows { Shows session key p shown → Performs (Read session key) p (left p result) }
    ensures form { cached_form shown.fields ≡ true → plant_form p ≡ true → plant_form (left p result) ≡ true }
{
    let keys = p.keys;
    let cached = p.cache;
    let old = p.sessions;
    let n = arguments::session(session);
    let k = arguments::index(key, Keys::LIMIT as u8).unwrap_or(Keys::LIMIT as u8);
    let cache = call_read_shown::cached(cached, shown);
    let sessions = old.shared(n, keys.key(k), p.clock);
    Left { cache, sessions }
}
