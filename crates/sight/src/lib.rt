// What a session sees at a place, and whether it is known. While the store is away nothing here reads it.
#![tactic(auto)]

pub mod walk;

ghost use Rattle.std.specs.Prelude.{◌≡◌, true, ◌||◌};
ghost use Rattle.rules.specs.Changes.{run};
ghost use Rattle.rules.specs.Tables.{pending, changes_in};
ghost use Rattle.rules.specs.Reading.{known_away, seen_away};
ghost use Rattle.keys.specs.View.{view_place, view_keys};
ghost use Rattle.field.specs.View.{view_field, field_form};
ghost use Rattle.changes.specs.View.{view_changes};
ghost use Rattle.rows.specs.View.{view_rows};
ghost use Rattle.buffer.specs.View.{view_buffer};
ghost use Rattle.cache.specs.View.{view_cache};
ghost use Rattle.cache.specs.Form.{cache_form};
ghost use Rattle.store.specs.View.{view_store, store_form};
ghost use Rattle.sight.specs.Value.{value_by};

use buffer::Buffer;
use cache::Cache;
use changes::Changes;
use field::Field;
use keys::{Keys, Place};
use rows::Rows;
use store::Store;

// What a session with these changes of its own sees, from the store's field: the buffered changes of sessions without a row
// come before its own.
pub fn seen(stored: Field, rows: Rows, buffer: Buffer, own: Changes, q: Place) -> Field
    ensures shows { view_field result ≡ run (view_changes own) (view_place q) (run (changes_in (pending (view_rows rows) (view_buffer buffer))) (view_place q) (view_field stored)) }
    ensures form { field_form stored ≡ true → field_form result ≡ true }
{
    let now = buffer.carried(0, rows, q, stored);
    own.run(q, now)
}

// Can it be found without the store? A cached key shows it, or a buffered or own change sets or unsets it.
pub fn known_away(keys: Keys, cache: Cache, buffer: Buffer, own: Changes, q: Place) -> bool
    ensures { result ≡ known_away (view_keys keys) (view_cache cache) (view_buffer buffer) (view_changes own) (view_place q) }
{
    if cache.shows(keys, q) {
        return true;
    }
    let w = walk::back(buffer, own, q);
    w.found.is_some()
}

// What a session sees where it is known, found without the store: worked out from the session on in which the walk stopped, else from a cached key's field.
pub fn seen_away(keys: Keys, cache: Cache, buffer: Buffer, own: Changes, q: Place) -> Field
    ensures shows { view_field result ≡ seen_away (view_keys keys) (view_cache cache) (view_buffer buffer) (view_changes own) (view_place q) }
    ensures form { cache_form cache ≡ true → field_form result ≡ true }
{
    let w = walk::back(buffer, own, q);
    let shown = match w.found {
        Some(from) => buffer.run(from, q, Field::empty()),
        None => cache.field(keys, q),
    };
    own.run(q, shown)
}

pub fn known(near: bool, keys: Keys, cache: Cache, buffer: Buffer, own: Changes, q: Place) -> bool
    ensures { result ≡ near || known_away (view_keys keys) (view_cache cache) (view_buffer buffer) (view_changes own) (view_place q) }
{
    near || known_away(keys, cache, buffer, own, q)
}

pub fn field(
    near: bool,
    store: Store,
    keys: Keys,
    cache: Cache,
    buffer: Buffer,
    rows: Rows,
    own: Changes,
    q: Place,
) -> Field
    ensures shows { view_field result ≡ value_by near (view_store store) (view_keys keys) (view_cache cache) (view_buffer buffer) (view_rows rows) (view_changes own) (view_place q) }
    ensures form { store_form store ≡ true → cache_form cache ≡ true → field_form result ≡ true }
{
    if near {
        let stored = store.field(q);
        return seen(stored, rows, buffer, own, q);
    }
    seen_away(keys, cache, buffer, own, q)
}
