// The places that a map names: its four pairs, and the key that they make.
ghost use Rattle.std.specs.Prelude.{◌≡◌, ◌≤◌, true, is_some, IfSome};
ghost use Rattle.rules.specs.Limits.{place_limit};
ghost use Rattle.rules.specs.Lists.{all};
ghost use Rattle.rules.specs.Values.{in_range};
ghost use Rattle.rules.specs.Calls.{places_of};
ghost use Rattle.rules.specs.Conditions.{good_pairs};
ghost use Rattle.keys.specs.View.{view_key};
ghost use Rattle.keys.specs.Form.{key_form};
ghost use Rattle.arguments.specs.places.View.{pairs, view_places, has_stray, key_of};

use crate::change::{is_within, place};
use keys::{Key, Place};

// The places of a map's four pairs, those in use first.
#[derive(Clone, Copy)]
pub struct Places {
    pub all: [Place; Key::LIMIT],
}

impl Places {
    // The places of the pairs, if there is one for each.
    pub fn of(
        d1: i64,
        f1: i64,
        d2: i64,
        f2: i64,
        d3: i64,
        f3: i64,
        d4: i64,
        f4: i64,
    ) -> Option<Self>
        ensures within { is_some result ≡ good_pairs (pairs d1 f1 d2 f2 d3 f3 d4 f4) }
        ensures shows { IfSome result (λ t. view_places t ≡ places_of (pairs d1 f1 d2 f2 d3 f3 d4 f4)) }
    {
        let all = [
            place(d1, f1)?,
            place(d2, f2)?,
            place(d3, f3)?,
            place(d4, f4)?,
        ];
        Some(Self { all })
    }

    pub fn are_within(self) -> bool
        ensures { result ≡ all in_range (view_places self) }
    {
        self.all.iter().all(|q| is_within(*q))
    }

    // A place from a number on is not zero.
    fn has_stray(self, from: usize) -> bool
        requires { from ≤ place_limit }
        ensures { result ≡ has_stray from (view_places self) }
    {
        let zero = Place::empty();
        self.all[from..].iter().any(|q| !q.is(zero))
    }

    // The key of the first places, undefined where they make none: too many, a place that is not in use and not zero, or one that stands twice.
    pub fn key(self, count: u8) -> Key
        ensures shows { view_key result ≡ key_of count (view_places self) }
        ensures form { key_form result ≡ true }
    {
        let n = count as usize;
        let places = self.all;
        // those that are not in use are zero, as a key has them
        let key = Key { count, places };
        if Key::LIMIT < n || self.has_stray(n) || key.has_twice() {
            return Key::empty();
        }
        key
    }
}
