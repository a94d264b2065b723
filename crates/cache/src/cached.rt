// A cached key: its number, with the fields that its places showed.
ghost use Rattle.std.specs.Prelude.{◌≡◌, true, []};
ghost use Rattle.rules.specs.Reading.{field_at};
ghost use Rattle.keys.specs.View.{view_place, view_key, view_keys};
ghost use Rattle.field.specs.View.{view_field, field_form};
ghost use Rattle.changes.specs.View.{view_changes};
ghost use Rattle.cache.specs.cached.View.{view_cached, with_field, after_changes};
ghost use Rattle.cache.specs.cached.Form.{cached_form};

use changes::Changes;
use field::Field;
use keys::{Key, Keys, Place};

// A key's number, with the fields of its places.
#[derive(Clone, Copy)]
pub struct Cached {
    pub key: u8,
    pub count: u8,
    pub fields: [Field; Key::LIMIT],
}

impl Cached {
    // The key of a number, without fields yet.
    pub fn of(key: u8) -> Self
        ensures shows { view_cached result ≡ record { key = key; fields = [] } }
        ensures form { cached_form result ≡ true }
    {
        Self {
            key,
            count: 0,
            fields: [Field::empty(); Key::LIMIT],
        }
    }

    // One more field, if there is room.
    pub fn push(mut self, f: Field) -> Self
        ensures shows { view_cached result ≡ with_field (view_field f) (view_cached self) }
        ensures form { field_form f ≡ true → cached_form self ≡ true → cached_form result ≡ true }
    {
        lists::push(&mut self.fields, &mut self.count, f);
        self
    }

    // The field of a place, where the key's places are those of `key`.
    pub fn field(self, key: Key, q: Place) -> Field
        ensures shows { view_field result ≡ field_at (view_place q) (view_key key) (view_cached self).fields }
        ensures form { cached_form self ≡ true → field_form result ≡ true }
    {
        let places = key.shown();
        let fields = lists::used(&self.fields, self.count);
        let shown = places.iter().zip(fields).find(|(p, _)| q.is(**p));
        shown.map_or(Field::empty(), |(_, f)| *f)
    }

    // After changes, where the key's places are those of `key`.
    pub fn after(self, key: Key, cs: Changes) -> Self
        ensures shows { view_cached result ≡ after_changes (view_changes cs) (view_key key) (view_cached self) }
        ensures form { cached_form self ≡ true → cached_form result ≡ true }
    {
        let mut t = Cached::of(self.key);
        for (i, f) in lists::used(&self.fields, self.count).iter().enumerate() {
            let q = key.place(i as u8);
            t = t.push(cs.run(q, *f));
        }
        t
    }

    // After changes, with the places that the table of keys gives it. Where they touch none of these it is as it was,
    // but for fields past the last place, which `after` takes for those of the empty place.
    pub fn up_to_date(self, keys: Keys, cs: Changes) -> Self
        ensures shows { view_cached result ≡ after_changes (view_changes cs) (view_keys keys (view_cached self).key) (view_cached self) }
        ensures form { cached_form self ≡ true → cached_form result ≡ true }
    {
        let key = keys.key(self.key);
        if self.count <= key.count && !cs.touches_any(key) {
            return self;
        }
        self.after(key, cs)
    }
}
