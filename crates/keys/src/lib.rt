// Places, keys of one to four places, and the table of keys.
#![tactic(auto)]

ghost use Rattle.std.specs.Prelude.{◌≡◌, true, cond, [], ltb, length, map, get_or};
ghost use Rattle.rules.specs.Limits.{place_limit, key_count};
ghost use Rattle.rules.specs.Lists.{any, is_empty, pushed, override};
ghost use Rattle.rules.specs.Values.{same_place, twice};
ghost use Rattle.rules.specs.Effects.{in_documents};
ghost use Rattle.docset.specs.Sets.{docs};
ghost use Rattle.keys.specs.View.{view_place, no_place, view_key, view_keys};
ghost use Rattle.keys.specs.Form.{is_blank, key_form, keys_form};

// A field of a document.
#[derive(Clone, Copy, PartialEq, Eq)]
pub struct Place {
    pub document: u8,
    pub field: u8,
}

impl Place {
    pub const FIELDS: u8 = 4;

    pub fn empty() -> Self
        ensures shows { view_place result ≡ no_place }
        ensures form { is_blank result ≡ true }
    {
        Self {
            document: 0,
            field: 0,
        }
    }

    pub fn is(self, q: Place) -> bool
        ensures { result ≡ same_place (view_place self) (view_place q) }
    {
        self == q
    }
}

// The places that a key shows; none if the key is undefined.
#[derive(Clone, Copy)]
pub struct Key {
    pub count: u8,
    pub places: [Place; Key::LIMIT],
}

impl Key {
    pub const LIMIT: usize = 4;

    pub fn empty() -> Self
        ensures shows { view_key result ≡ [] }
        ensures form { key_form result ≡ true }
    {
        Self {
            count: 0,
            places: [Place::empty(); Self::LIMIT],
        }
    }

    // The places, in their order.
    pub fn shown(&self) -> &[Place]
        ensures { map view_place result.now ≡ view_key self.now }
    {
        lists::used(&self.places, self.count)
    }

    pub fn len(self) -> u8
        ensures { result ≡ length (view_key self) }
    {
        self.shown().len() as u8
    }

    pub fn is_empty(self) -> bool
        ensures { result ≡ is_empty (view_key self) }
    {
        self.count == 0
    }

    // The place of a number, counted from 0.
    pub fn place(self, i: u8) -> Place
        ensures { view_place result ≡ get_or (view_key self) i no_place }
    {
        match self.shown().get(i as usize) {
            Some(q) => *q,
            None => Place::empty(),
        }
    }

    // One more place, if there is room.
    pub fn push(mut self, q: Place) -> Self
        ensures shows { view_key result ≡ pushed place_limit (view_key self) (view_place q) }
        ensures form { key_form self ≡ true → key_form result ≡ true }
    {
        lists::push(&mut self.places, &mut self.count, q);
        self
    }

    pub fn has(self, q: Place) -> bool
        ensures { result ≡ any (same_place (view_place q)) (view_key self) }
    {
        self.shown().contains(&q)
    }

    // A place of it lies in a document of the set.
    pub fn in_documents(self, set: u64) -> bool
        ensures { result ≡ in_documents (docs set) (view_key self) }
    {
        self.shown().iter().any(|q| docset::has(set, q.document))
    }

    // A place stands in it twice.
    pub fn has_twice(self) -> bool
        ensures { result ≡ twice (view_key self) }
    {
        let places = self.shown();
        for (i, q) in places.iter().enumerate() {
            if places[i + 1..].contains(q) {
                return true;
            }
        }
        false
    }
}

// The keys by their numbers.
#[derive(Clone, Copy)]
pub struct Keys {
    pub all: [Key; Keys::LIMIT],
}

impl Keys {
    pub const LIMIT: usize = 32;

    pub fn empty() -> Self
        ensures shows { view_keys result ≡ (λ k. []) }
        ensures form { keys_form result ≡ true }
    {
        Self {
            all: [Key::empty(); Self::LIMIT],
        }
    }

    pub fn key(self, k: u8) -> Key
        ensures shows { view_key result ≡ view_keys self k }
        ensures form { keys_form self ≡ true → key_form result ≡ true }
    {
        match self.all.get(k as usize) {
            Some(key) => *key,
            None => Key::empty(),
        }
    }

    // Another key of a number, if there is such a number.
    pub fn with(mut self, k: u8, key: Key) -> Self
        ensures shows { view_keys result ≡ cond (ltb k key_count) (override (view_keys self) k (view_key key)) (view_keys self) }
        ensures form { keys_form self ≡ true → key_form key ≡ true → keys_form result ≡ true }
    {
        let at = k as usize;
        if at < Self::LIMIT {
            self.all[at] = key;
        }
        self
    }
}
