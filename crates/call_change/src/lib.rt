// Change: a session changes a field, under an exclusive lease on its document.
#![tactic(auto)]

ghost use Rattle.std.specs.Prelude.{◌≡◌, true, false, not, ◌&&◌, ◌||◌, List, [], ◌∷◌, ℤ};
ghost use Rattle.rules.specs.Values.{nat_of};
ghost use Rattle.rules.specs.Changes.{is_set, kind_of, meets, place_of, update_of};
ghost use Rattle.rules.specs.Conditions.{good_place, good_change};
ghost use Rattle.changes.specs.Form.{is_used};
ghost use Rattle.rules.specs.Calls.{Change};
ghost use Rattle.rules.specs.Reading.{known_away};
ghost use Rattle.keys.specs.View.{view_place, view_keys};
ghost use Rattle.field.specs.View.{view_field};
ghost use Rattle.changes.specs.View.{view_changes, view_update};
ghost use Rattle.buffer.specs.View.{view_buffer};
ghost use Rattle.cache.specs.View.{view_cache};
ghost use Rattle.plant.specs.View.{plant_form};
ghost use Rattle.plant.specs.With.{with_sessions};
ghost use Rattle.answers.specs.View.{view_answer, answer_by};
ghost use Rattle.answers.specs.Own.{is_answer_of};
ghost use Rattle.promises.specs.Promise.{Answers, Performs};
ghost use Rattle.sight.specs.Sight.{sight, at_hand};
ghost use Rattle.call_change.specs.Met.{later_answer, found_answer};

use answers::{Answer, Refusal};
use buffer::Buffer;
use cache::Cache;
use changes::{Changes, Update};
use field::Field;
use keys::{Keys, Place};
use plant::Plant;
use rows::Rows;
use sessions::Sessions;
use store::Store;

// The change needs the field that is there, and it is not known.
fn is_unknown(near: bool, keys: Keys, cache: Cache, buffer: Buffer, own: Changes, c: Update) -> bool
    ensures { result ≡ not (is_set (kind_of c.kind)) && not (near || known_away (view_keys keys) (view_cache cache) (view_buffer buffer) (view_changes own) (view_place c.place)) }
{
    !changes::is_set(c.kind) && !sight::known(near, keys, cache, buffer, own, c.place)
}

// The answer of a change at a field, where the session has count changes with it.
fn met(f: Field, c: Update, count: u8) -> Result<Answer, Refusal>
    ensures shows { view_answer result ≡ answer_by (meets (view_update c) (view_field f)) (count ∷ []) }
    ensures own { (s d x k v : ℤ) → is_answer_of (Change s d x k v) result ≡ true }
{
    arguments::change::met(c, f)?;
    Ok(Answer::Changed(count))
}

// The answer from refusal 5 on, of a change of session n whose own changes so far are these.
fn later(
    near: bool,
    store: Store,
    keys: Keys,
    cache: Cache,
    sessions: Sessions,
    buffer: Buffer,
    rows: Rows,
    n: u32,
    own: Changes,
    c: Update,
) -> Result<Answer, Refusal>
    ensures shows { view_answer result ≡ later_answer (sight near store keys cache sessions buffer rows) n (view_changes own) (view_update c) }
    ensures own { (s d x k v : ℤ) → is_answer_of (Change s d x k v) result ≡ true }
{
    let count = own.len();
    if Changes::LIMIT <= count as usize {
        return Err(Refusal::ChangesFull);
    }
    if sessions.others_exclusive(n, c.place.document) {
        return Err(Refusal::ExclusiveElsewhere);
    }
    if is_unknown(near, keys, cache, buffer, own, c) {
        return Err(Refusal::StoreAway);
    }
    let f = sight::field(near, store, keys, cache, buffer, rows, own, c.place);
    met(f, c, count + 1)
}

pub fn answer(
    p: Plant,
    session: i64,
    document: i64,
    field: i64,
    kind: i64,
    value: i64,
) -> Result<Answer, Refusal>
    ensures away { p.near ≡ false → view_answer result ≡ found_answer session document field kind value (at_hand p) }
    ensures answers { (lent : List ℤ) → Answers (Change session document field kind value) lent p result }
    ensures own { is_answer_of (Change session document field kind value) result ≡ true }
{
    let keys = p.keys;
    let cache = p.cache;
    let sessions = p.sessions;
    let buffer = p.buffer;
    let c = arguments::change::update(document, field, kind, value).ok_or(Refusal::OutOfRange)?;
    let n = arguments::session(session);
    let s = caller::of(sessions, n)?;
    later(
        p.near, p.store, keys, cache, sessions, buffer, p.rows, n, s.changes, c,
    )
}

// The change of four numbers; where one of them is out of its range, which the answer refuses, some change that is in form. A `return` of the
// sessions in that case would have their table copied once more in every other.
fn made(document: i64, field: i64, kind: i64, value: i64) -> Update
    ensures shows { good_place document field && good_change kind value ≡ true → view_update result ≡ update_of (place_of document field) (nat_of kind) value }
    ensures form { is_used result ≡ true }
{
    arguments::change::update(document, field, kind, value).unwrap_or(Update {
        place: Place::empty(),
        kind: Update::SET,
        value: 0,
    })
}

pub fn after(p: Plant, session: i64, document: i64, field: i64, kind: i64, value: i64) -> Sessions
    ensures shows { Performs (Change session document field kind value) p (with_sessions p result) }
    ensures form { plant_form p ≡ true → plant_form (with_sessions p result) ≡ true }
{
    let c = made(document, field, kind, value);
    let n = arguments::session(session);
    p.sessions.changed(n, c, p.clock)
}
