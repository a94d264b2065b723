// The fields that a read shows, with the key's number as they may be cached, and the words that show them.
ghost use Rattle.std.specs.Prelude.{◌≡◌, true, false, map, ◌≤◌, length, MatchOption, IfSome};
ghost use Rattle.rules.specs.Limits.{place_limit};
ghost use Rattle.rules.specs.Values as S;
ghost use Rattle.rules.specs.Changes.{follow};
ghost use Rattle.rules.specs.Tables.{pending, changes_in, is_cached};
ghost use Rattle.rules.specs.Reading.{seen_away};
ghost use Rattle.keys.specs.View.{view_place, view_key, view_keys};
ghost use Rattle.keys.specs.declared.Place.{Place};
ghost use Rattle.field.specs.View.{view_field, field_form};
ghost use Rattle.field.specs.declared.Field.{Field};
ghost use Rattle.changes.specs.View.{view_changes};
ghost use Rattle.store.specs.View.{view_store, store_form};
ghost use Rattle.rows.specs.View.{view_rows};
ghost use Rattle.buffer.specs.View.{view_buffer};
ghost use Rattle.cache.specs.cached.View.{view_cached};
ghost use Rattle.cache.specs.cached.Form.{cached_form};
ghost use Rattle.cache.specs.View.{view_cache};
ghost use Rattle.cache.specs.Form.{cache_form};
ghost use Rattle.call_read_shown.specs.values.Shown.{cached_at, shown_in};

use buffer::Buffer;
use cache::Cache;
use cache::cached::Cached;
use changes::Changes;
use field::Field;
use keys::{Key, Keys, Place};
use rows::Rows;
use store::Store;

// The key's number, with a field for each of its places.
fn fields<F: Fn(Place) -> Field>(key: Key, k: u8, field: F) -> Cached
    requires { F.IsAlwaysCallable field }
    ensures shows { (g : S.Place → S.Field) → ((q : Place) (f : Field) → F.post field q f → view_field f ≡ g (view_place q)) → view_cached result ≡ record { key = k; fields = map g (view_key key) } }
    ensures form { ((q : Place) (f : Field) → F.post field q f → field_form f ≡ true) → cached_form result ≡ true }
{
    let mut t = Cached::of(k);
    for q in lists::used(&key.places, key.count) {
        t = t.push(field(*q));
    }
    t
}

// The store's field of a place, read where the store lies: `Store::field` has it copied.
fn stored(store: &Store, q: Place) -> Field
    ensures shows { view_field result ≡ view_store store.now (view_place q) }
    ensures form { store_form store.now ≡ true → field_form result ≡ true }
{
    match store::index_of(q) {
        Some(i) => store.fields[i],
        None => Field::empty(),
    }
}

// What a session with these changes of its own sees at the places of the key.
pub fn near(store: &Store, rows: Rows, buffer: Buffer, own: Changes, key: Key, k: u8) -> Cached
    ensures shows { view_cached result ≡ record { key = k; fields = map (follow (follow (view_store store.now) (changes_in (pending (view_rows rows) (view_buffer buffer)))) (view_changes own)) (view_key key) } }
    ensures form { store_form store.now ≡ true → cached_form result ≡ true }
{
    fields(
        key,
        k,
        |q| sight::seen(stored(store, q), rows, buffer, own, q),
    )
}

// The same without the store, where it is known.
pub fn away(keys: Keys, cache: Cache, buffer: Buffer, own: Changes, key: Key, k: u8) -> Cached
    ensures shows { view_cached result ≡ record { key = k; fields = map (seen_away (view_keys keys) (view_cache cache) (view_buffer buffer) (view_changes own)) (view_key key) } }
    ensures form { cache_form cache ≡ true → cached_form result ≡ true }
{
    fields(key, k, |q| sight::seen_away(keys, cache, buffer, own, q))
}

// The cached key of a number.
pub fn found(cache: Cache, k: u8) -> Option<Cached>
    ensures shows { MatchOption result (is_cached k (view_cache cache) ≡ false) (λ c. is_cached k (view_cache cache) ≡ true × view_cached c ≡ cached_at k (view_cache cache)) }
    ensures form { cache_form cache ≡ true → IfSome result (λ c. cached_form c ≡ true) }
{
    lists::used(&cache.entries, cache.count)
        .iter()
        .find(|c| k == c.key)
        .copied()
}

// How many fields there are.
pub fn len(c: Cached) -> usize
    ensures few { result ≤ place_limit }
    ensures shows { result ≡ length (view_cached c).fields }
{
    lists::used(&c.fields, c.count).len()
}

// Shows the fields in the first of the lent words, eight for each, or in none where too few are lent.
pub fn write(c: Cached, words: &mut [i32])
    ensures { words.new ≡ shown_in (view_cached c).fields words.old }
{
    let n = len(c);
    if words.len() < Field::WORDS * n {
        return;
    }
    for i in 0..n {
        let at = Field::WORDS * i;
        c.fields[i].write(&mut words[at..]);
    }
}
