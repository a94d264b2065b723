// A caller's numbers read as places and changes, and the refusal of a change.
ghost use Rattle.std.specs.Prelude.{◌≡◌, true, ◌&&◌, cond, is_some, IfSome, Some, None};
ghost use Rattle.rules.specs.Values.{in_range, nat_of};
ghost use Rattle.rules.specs.Changes.{kind_of, meets, good_kind, good_value, place_of, update_of};
ghost use Rattle.rules.specs.Conditions.{good_place, good_change};
ghost use Rattle.keys.specs.View.{view_place};
ghost use Rattle.field.specs.View.{view_field};
ghost use Rattle.changes.specs.View.{view_update};
ghost use Rattle.changes.specs.Form.{is_used};
ghost use Rattle.answers.specs.View.{refusal_met};

use answers::Refusal;
use changes::Update;
use field::Field;
use keys::Place;

const LAST_KIND: u8 = 6;

// The place of two numbers, if there is one.
pub fn place(document: i64, field: i64) -> Option<Place>
    ensures within { is_some result ≡ good_place document field }
    ensures shows { IfSome result (λ q. view_place q ≡ place_of document field) }
{
    let document = crate::index(document, docset::DOCUMENTS)?;
    let field = crate::index(field, Place::FIELDS)?;
    Some(Place { document, field })
}

// Is it a place within the stock?
pub fn is_within(q: Place) -> bool
    ensures { result ≡ in_range (view_place q) }
{
    q.document < docset::DOCUMENTS && q.field < Place::FIELDS
}

// The number of a change's kind.
fn kind_of(z: i64) -> Option<u8>
    ensures { result ≡ cond (good_kind z) (Some (nat_of z)) None }
{
    let kind = crate::index(z, LAST_KIND + 1)?;
    (kind != 0).then_some(kind)
}

// The value of a change of the kind: unset's is 0, and any other has 32 bits.
fn value_of(kind: u8, z: i64) -> Option<i32>
    ensures { result ≡ cond (good_value (kind_of kind) z) (Some z) None }
{
    match kind {
        Update::UNSET => (z == 0).then_some(0),
        _ => i32::try_from(z).ok(),
    }
}

// The change of four numbers, if each is in its range.
pub fn update(document: i64, field: i64, kind: i64, value: i64) -> Option<Update>
    ensures good { is_some result ≡ (good_place document field && good_change kind value) }
    ensures shows { IfSome result (λ c. view_update c ≡ update_of (place_of document field) (nat_of kind) value) }
    ensures form { IfSome result (λ c. is_used c ≡ true) }
{
    let place = place(document, field)?;
    let kind = kind_of(kind)?;
    let value = value_of(kind, value)?;
    Some(Update { place, kind, value })
}

// Whether the field takes the change, and if not, why.
pub fn met(c: Update, f: Field) -> Result<(), Refusal>
    ensures { refusal_met result ≡ meets (view_update c) (view_field f) }
{
    f.changed(c.kind, c.value)?;
    Ok(())
}
