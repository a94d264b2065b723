// The data store: the field of every place.
#![tactic(auto)]

ghost use Rattle.std.specs.Prelude.{◌≡◌, true, cond, [], ◌∷◌, ◌*◌, ◌<◌, IfSome};
ghost use Rattle.rules.specs.Limits.{document_count, field_count};
ghost use Rattle.rules.specs.Values.{absent, in_range};
ghost use Rattle.rules.specs.Changes.{follow};
ghost use Rattle.keys.specs.View.{view_place};
ghost use Rattle.field.specs.View.{view_field, field_form};
ghost use Rattle.changes.specs.View.{view_update, view_changes};
ghost use Rattle.store.specs.View.{index_of, ranged, view_store, store_form};

use changes::{Changes, Update};
use field::Field;
use keys::Place;

// The fields of a document stand side by side, and the documents in their order.
#[derive(Clone, Copy)]
pub struct Store {
    pub fields: [Field; Store::LIMIT],
}

// Where a place's field stands, if there is such a place.
pub fn index_of(q: Place) -> Option<usize>
    ensures shows { result ≡ cond (in_range (view_place q)) (Some (index_of (view_place q))) None }
    ensures within { IfSome result (λ i. i < document_count * field_count) }
{
    let document = q.document as usize;
    let field = q.field as usize;
    let there = document < Store::DOCUMENTS && field < Store::FIELDS;
    there.then_some(Store::FIELDS * document + field)
}

impl Store {
    pub const DOCUMENTS: usize = docset::DOCUMENTS as usize;

    pub const FIELDS: usize = Place::FIELDS as usize;

    pub const LIMIT: usize = Store::DOCUMENTS * Store::FIELDS;

    pub fn empty() -> Self
        ensures shows { view_store result ≡ (λ q. absent) }
        ensures form { store_form result ≡ true }
    {
        Self {
            fields: [Field::empty(); Self::LIMIT],
        }
    }

    pub fn field(self, q: Place) -> Field
        ensures shows { view_field result ≡ view_store self (view_place q) }
        ensures form { store_form self ≡ true → field_form result ≡ true }
    {
        let Some(i) = index_of(q) else {
            return Field::empty();
        };
        self.fields[i]
    }

    // One change made in place; none where there is no such place.
    fn make(&mut self, c: Update)
        ensures shows { view_store self.new ≡ ranged (follow (view_store self.old) (view_update c ∷ [])) }
        ensures form { store_form self.old ≡ true → store_form self.new ≡ true }
    {
        if let Some(i) = index_of(c.place) {
            self.fields[i] = c.after(c.place, self.fields[i]);
        }
    }

    // One change made.
    pub fn changed(mut self, c: Update) -> Self
        ensures shows { view_store result ≡ ranged (follow (view_store self) (view_update c ∷ [])) }
        ensures form { store_form self ≡ true → store_form result ≡ true }
    {
        self.make(c);
        self
    }

    // Changes made in their order.
    pub fn follow(mut self, cs: Changes) -> Self
        ensures shows { view_store result ≡ ranged (follow (view_store self) (view_changes cs)) }
        ensures form { store_form self ≡ true → store_form result ≡ true }
    {
        for c in lists::used(&cs.items, cs.count) {
            self.make(*c);
        }
        self
    }
}
