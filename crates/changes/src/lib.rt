// One change of one place, and the changes of a session in their order.
#![tactic(auto)]

ghost use Rattle.std.specs.Prelude.{◌≤◌, ◌≡◌, true, [], length, take, drop, map};
ghost use Rattle.rules.specs.Limits.{change_limit};
ghost use Rattle.rules.specs.Lists.{is_empty, pushed};
ghost use Rattle.rules.specs.Values.{same_place};
ghost use Rattle.rules.specs.Changes.{kind_of, is_set, field_after, run, sets, touches, sets_it};
ghost use Rattle.rules.specs.Effects.{touched};
ghost use Rattle.field.specs.View.{view_field, field_form};
ghost use Rattle.keys.specs.View.{view_place, view_key};
ghost use Rattle.changes.specs.View.{view_update, view_changes};
ghost use Rattle.changes.specs.Form.{is_used, is_unused, changes_form};

use field::Field;
use keys::{Key, Place};

// A change: its place, the number of its kind and its value.
#[derive(Clone, Copy)]
pub struct Update {
    pub place: Place,
    pub kind: u8,
    pub value: i32,
}

// Set and unset make a field whatever it was.
pub fn is_set(kind: u8) -> bool
    ensures { result ≡ is_set (kind_of kind) }
{
    matches!(kind, Update::SET | Update::UNSET)
}

impl Update {
    pub const SET: u8 = field::SET;

    pub const UNSET: u8 = field::UNSET;

    pub fn empty() -> Self
        ensures { is_unused result ≡ true }
    {
        Self {
            place: Place::empty(),
            kind: 0,
            value: 0,
        }
    }

    pub fn is_at(self, q: Place) -> bool
        ensures { result ≡ same_place (view_place q) (view_update self).at }
    {
        q.is(self.place)
    }

    // It sets or unsets the place.
    pub fn sets(self, q: Place) -> bool
        ensures { result ≡ sets (view_place q) (view_update self) }
    {
        self.is_at(q) && is_set(self.kind)
    }

    // A place's field after it.
    pub fn after(self, q: Place, f: Field) -> Field
        ensures shows { view_field result ≡ field_after (view_place q) (view_field f) (view_update self) }
        ensures form { field_form f ≡ true → field_form result ≡ true }
    {
        if self.is_at(q) {
            return f.changed(self.kind, self.value).unwrap_or(f);
        }
        f
    }
}

// The changes of a session, oldest first.
#[derive(Clone, Copy)]
pub struct Changes {
    pub count: u8,
    pub items: [Update; Changes::LIMIT],
}

impl Changes {
    pub const LIMIT: usize = 8;

    pub fn empty() -> Self
        ensures shows { view_changes result ≡ [] }
        ensures form { changes_form result ≡ true }
    {
        Self {
            count: 0,
            items: [Update::empty(); Self::LIMIT],
        }
    }

    // The changes, in their order.
    fn shown(&self) -> &[Update]
        ensures { map view_update result.now ≡ view_changes self.now }
    {
        lists::used(&self.items, self.count)
    }

    pub fn len(self) -> u8
        ensures counts { result ≡ length (view_changes self) }
        ensures most { result ≤ change_limit }
    {
        self.count.min(Self::LIMIT as u8)
    }

    pub fn is_empty(self) -> bool
        ensures { result ≡ is_empty (view_changes self) }
    {
        self.count == 0
    }

    // One more, if there is room.
    pub fn push(mut self, c: Update) -> Self
        ensures shows { view_changes result ≡ pushed change_limit (view_changes self) (view_update c) }
        ensures form { is_used c ≡ true → changes_form self ≡ true → changes_form result ≡ true }
    {
        lists::push(&mut self.items, &mut self.count, c);
        self
    }

    // Some change is to the place.
    pub fn touches(self, q: Place) -> bool
        ensures { result ≡ touches (view_changes self) (view_place q) }
    {
        self.shown().iter().any(|c| c.is_at(q))
    }

    // Some change is to a place of the key.
    pub fn touches_any(self, key: Key) -> bool
        ensures { result ≡ touched (view_changes self) (view_key key) }
    {
        key.shown().iter().any(|q| self.touches(*q))
    }

    // The change that stands at i sets or unsets the place, if there is one.
    pub fn sets_at(self, i: u8, q: Place) -> bool
        ensures { result ≡ sets_it (take 1 (drop i (view_changes self))) (view_place q) }
    {
        self.shown().get(i as usize).is_some_and(|c| c.sets(q))
    }

    // A place's field after all of them.
    pub fn run(self, q: Place, f: Field) -> Field
        ensures shows { view_field result ≡ run (view_changes self) (view_place q) (view_field f) }
        ensures form { field_form f ≡ true → field_form result ≡ true }
    {
        let mut now = f;
        for c in self.shown() {
            now = c.after(q, now);
        }
        now
    }
}
