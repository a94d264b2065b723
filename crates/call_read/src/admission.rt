// Who is turned away from a read: the numbers of a session and of a key, and how many words are lent.
ghost use Rattle.std.specs.Prelude.{◌≡◌, not, List, [], ℤ, pos, length};
ghost use Rattle.rules.specs.Lists.{any};
ghost use Rattle.rules.specs.Tables.{others_exclusive};
ghost use Rattle.rules.specs.Reading.{known_away};
ghost use Rattle.keys.specs.View.{view_key, view_keys};
ghost use Rattle.changes.specs.View.{view_changes};
ghost use Rattle.sessions.specs.View.{view_sessions};
ghost use Rattle.buffer.specs.View.{view_buffer};
ghost use Rattle.cache.specs.View.{view_cache};
ghost use Rattle.rules.specs.Refusals.{first};
ghost use Rattle.rules.specs.Calls.{Read};
ghost use Rattle.rules.specs.Conditions.{conditions};
ghost use Rattle.answers.specs.View.{refusal_met};
ghost use Rattle.sight.specs.Sight.{sight_away};

use answers::Refusal;
use buffer::Buffer;
use cache::Cache;
use changes::Changes;
use field::Field;
use keys::{Key, Keys};
use sessions::Sessions;

// Another session than n holds a document of them exclusively.
pub fn hindered(sessions: Sessions, n: u32, key: Key) -> bool
    ensures { result ≡ any (λ q. others_exclusive n q.document (view_sessions sessions)) (view_key key) }
{
    lists::used(&key.places, key.count)
        .iter()
        .any(|q| sessions.others_exclusive(n, q.document))
}

// One of them cannot be found without the store.
pub fn unknown_away(keys: Keys, cache: Cache, buffer: Buffer, own: Changes, key: Key) -> bool
    ensures { result ≡ any (λ q. not (known_away (view_keys keys) (view_cache cache) (view_buffer buffer) (view_changes own) q)) (view_key key) }
{
    lists::used(&key.places, key.count)
        .iter()
        .any(|q| !sight::known_away(keys, cache, buffer, own, *q))
}

// Admitted, or the refusal, in the paper's order 1, 2, 3, 9, 22, 4, 20.
pub fn admitted(
    near: bool,
    keys: Keys,
    cache: Cache,
    sessions: Sessions,
    buffer: Buffer,
    n: u32,
    k: u8,
    lent: usize,
) -> Result<(), Refusal>
    ensures { (words : List ℤ) → lent ≡ length words → refusal_met result ≡ first (conditions (Read (pos n) (pos k)) words (sight_away near keys cache sessions buffer)) }
{
    if Keys::LIMIT <= k as usize {
        return Err(Refusal::OutOfRange);
    }
    let s = caller::of(sessions, n)?;
    let key = keys.key(k);
    if key.is_empty() {
        return Err(Refusal::KeyUndefined);
    }
    if lent < Field::WORDS * key.len() as usize {
        return Err(Refusal::FewWords);
    }
    if hindered(sessions, n, key) {
        return Err(Refusal::ExclusiveElsewhere);
    }
    if !near && unknown_away(keys, cache, buffer, s.changes, key) {
        return Err(Refusal::StoreAway);
    }
    Ok(())
}
