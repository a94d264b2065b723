// What a read shows, with its mark, at the numbers of a session and a key, and what it caches of that: for all tables.
#![tactic(auto)]

pub mod values;

ghost use Rattle.std.specs.Prelude.{◌≡◌, true};
ghost use Rattle.rules.specs.Effects.{evicted, cache_by};
ghost use Rattle.rules.specs.Effects as E;
ghost use Rattle.store.specs.View.{store_form};
ghost use Rattle.cache.specs.cached.View.{view_cached};
ghost use Rattle.cache.specs.cached.Form.{cached_form};
ghost use Rattle.cache.specs.View.{view_cache};
ghost use Rattle.cache.specs.Form.{cache_form};
ghost use Rattle.answers.specs.View.{view_mark};
ghost use Rattle.sight.specs.Sight.{sight};
ghost use Rattle.call_read_shown.specs.Fields.{shown_fields};

use answers::Mark;
use buffer::Buffer;
use cache::Cache;
use cache::cached::Cached;
use keys::Keys;
use rows::Rows;
use sessions::Sessions;
use store::Store;

// What a read shows, and where it comes from.
#[derive(Clone, Copy)]
pub struct Marked {
    pub mark: Mark,
    pub fields: Cached,
}

impl Marked {
    // What stands where no read has shown anything.
    pub fn nothing() -> Self
        ensures { cached_form result.fields ≡ true }
    {
        let fields = Cached::of(0);
        Self {
            mark: Mark::FromCache,
            fields,
        }
    }
}

// With a change of the session's own at a place they are worked out, else the cached ones are shown where there are any.
pub fn shown(
    near: bool,
    store: Store,
    keys: Keys,
    cache: Cache,
    sessions: Sessions,
    buffer: Buffer,
    rows: Rows,
    n: u32,
    k: u8,
) -> Marked
    ensures mark { view_mark result.mark ≡ E.mark n k (sight near store keys cache sessions buffer rows) }
    ensures fields { view_cached result.fields ≡ record { key = k; fields = shown_fields n k (sight near store keys cache sessions buffer rows) } }
    ensures form { store_form store ≡ true → cache_form cache ≡ true → cached_form result.fields ≡ true }
{
    let s = sessions.session(n);
    let own = s.changes;
    let key = keys.key(k);
    let touched = own.touches_any(key);
    if !touched {
        if let Some(fields) = values::found(cache, k) {
            return Marked {
                mark: Mark::FromCache,
                fields,
            };
        }
    }
    let fields = if near {
        values::near(&store, rows, buffer, own, key, k)
    } else {
        values::away(keys, cache, buffer, own, key, k)
    };
    let mark = if touched {
        Mark::OwnChange
    } else {
        Mark::CachedNow
    };
    Marked { mark, fields }
}

// Of sixteen cached keys the first, cached longest ago, gives way.
fn with_room(cache: Cache) -> Cache
    ensures shows { view_cache result ≡ evicted (view_cache cache) }
    ensures form { cache_form cache ≡ true → cache_form result ≡ true }
{
    if Cache::LIMIT <= cache.len() as usize {
        return cache.without_first();
    }
    cache
}

// The cached keys after a read that showed this: one more where it came neither from them nor from a change of the session's own.
pub fn cached(cache: Cache, shown: Marked) -> Cache
    ensures shows { view_cache result ≡ cache_by (view_mark shown.mark) (view_cached shown.fields) (view_cache cache) }
    ensures form { cached_form shown.fields ≡ true → cache_form cache ≡ true → cache_form result ≡ true }
{
    match shown.mark {
        Mark::CachedNow => with_room(cache).push(shown.fields),
        Mark::FromCache | Mark::OwnChange => cache,
    }
}
