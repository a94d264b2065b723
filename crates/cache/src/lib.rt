// The cached keys, each with the fields that its places showed.
#![tactic(auto)]

pub mod cached;

ghost use Rattle.std.specs.Prelude.{◌≡◌, true, [], map, drop, length};
ghost use Rattle.rules.specs.Limits.{cache_limit};
ghost use Rattle.rules.specs.Lists.{any, keep, pushed};
ghost use Rattle.rules.specs.Tables.{is_cached};
ghost use Rattle.rules.specs.Reading.{shows_it, cached_field};
ghost use Rattle.rules.specs.Effects.{stays};
ghost use Rattle.docset.specs.Sets.{docs};
ghost use Rattle.keys.specs.View.{view_place, view_keys};
ghost use Rattle.field.specs.View.{view_field, field_form};
ghost use Rattle.changes.specs.View.{view_changes};
ghost use Rattle.cache.specs.cached.View.{view_cached, after_changes};
ghost use Rattle.cache.specs.cached.Form.{cached_form};
ghost use Rattle.cache.specs.View.{view_cache};
ghost use Rattle.cache.specs.Form.{cache_form};

use cached::Cached;
use changes::Changes;
use field::Field;
use keys::{Keys, Place};

// The cached keys, in the order in which they came.
#[derive(Clone, Copy)]
pub struct Cache {
    pub count: u8,
    pub entries: [Cached; Cache::LIMIT],
}

impl Cache {
    pub const LIMIT: usize = 16;

    pub fn empty() -> Self
        ensures shows { view_cache result ≡ [] }
        ensures form { cache_form result ≡ true }
    {
        Self {
            count: 0,
            entries: [Cached::of(0); Self::LIMIT],
        }
    }

    pub fn len(self) -> u8
        ensures { result ≡ length (view_cache self) }
    {
        self.count.min(Self::LIMIT as u8)
    }

    // Is the key of a number cached?
    pub fn has(self, k: u8) -> bool
        ensures { result ≡ is_cached k (view_cache self) }
    {
        let used = lists::used(&self.entries, self.count);
        used.iter().any(|c| k == c.key)
    }

    // One more, if there is room.
    pub fn push(mut self, c: Cached) -> Self
        ensures shows { view_cache result ≡ pushed cache_limit (view_cache self) (view_cached c) }
        ensures form { cached_form c ≡ true → cache_form self ≡ true → cache_form result ≡ true }
    {
        lists::push(&mut self.entries, &mut self.count, c);
        self
    }

    // The cached keys without a place in a document of the set.
    pub fn without(mut self, keys: Keys, set: u64) -> Self
        ensures shows { view_cache result ≡ keep (stays (docs set) (view_keys keys)) (view_cache self) }
        ensures form { cache_form self ≡ true → cache_form result ≡ true }
    {
        if set != 0 {
            let stays = |c: &Cached| !keys.key(c.key).in_documents(set);
            lists::keep(&mut self.entries, &mut self.count, Cached::of(0), stays);
        }
        self
    }

    // Does a cached key show a place?
    pub fn shows(self, keys: Keys, q: Place) -> bool
        ensures { result ≡ any (shows_it (view_keys keys) (view_place q)) (view_cache self) }
    {
        let used = lists::used(&self.entries, self.count);
        used.iter().any(|c| keys.key(c.key).has(q))
    }

    // The place's field in the first cached key that shows it.
    pub fn field(self, keys: Keys, q: Place) -> Field
        ensures shows { view_field result ≡ cached_field (view_keys keys) (view_place q) (view_cache self) }
        ensures form { cache_form self ≡ true → field_form result ≡ true }
    {
        for c in lists::used(&self.entries, self.count) {
            let key = keys.key(c.key);
            if key.has(q) {
                return c.field(key, q);
            }
        }
        Field::empty()
    }

    // All but the first: the others move down, and the entry of the last is emptied.
    pub fn without_first(mut self) -> Self
        ensures shows { view_cache result ≡ drop 1 (view_cache self) }
        ensures form { cache_form self ≡ true → cache_form result ≡ true }
    {
        let n = self.len();
        if n > 0 {
            let end = n as usize;
            self.entries.copy_within(1..end, 0);
            self.entries[end - 1] = Cached::of(0);
            self.count = n - 1;
        }
        self
    }

    // All brought up to date with changes.
    pub fn up_to_date(mut self, keys: Keys, cs: Changes) -> Self
        ensures shows { view_cache result ≡ map (λ c. after_changes (view_changes cs) (view_keys keys c.key) c) (view_cache self) }
        ensures form { cache_form self ≡ true → cache_form result ≡ true }
    {
        let n = self.len() as usize;
        for i in 0..n {
            self.entries[i] = self.entries[i].up_to_date(keys, cs);
        }
        self
    }
}
