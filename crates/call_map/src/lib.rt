// Map: a key is defined as one to four places, before the first session.
#![tactic(auto)]

ghost use Rattle.std.specs.Prelude.{◌≡◌, true, List, ℤ};
ghost use Rattle.rules.specs.Calls.{Map};
ghost use Rattle.plant.specs.View.{plant_form};
ghost use Rattle.plant.specs.With.{with_keys};
ghost use Rattle.answers.specs.Own.{is_answer_of};
ghost use Rattle.promises.specs.Promise.{Answers, Performs};
ghost use Rattle.arguments.specs.places.View.{pairs};

use answers::{Answer, Refusal};
use arguments::places::Places;
use keys::{Key, Keys};
use plant::Plant;

pub fn answer(
    p: Plant,
    key: i64,
    count: i64,
    d1: i64,
    f1: i64,
    d2: i64,
    f2: i64,
    d3: i64,
    f3: i64,
    d4: i64,
    f4: i64,
) -> Result<Answer, Refusal>
    ensures answers { (lent : List ℤ) → Answers (Map key count (pairs d1 f1 d2 f2 d3 f3 d4 f4)) lent p result }
    ensures own { is_answer_of (Map key count (pairs d1 f1 d2 f2 d3 f3 d4 f4)) result ≡ true }
{
    let k = arguments::index(key, Keys::LIMIT as u8).ok_or(Refusal::OutOfRange)?;
    let places = Places::of(d1, f1, d2, f2, d3, f3, d4, f4).ok_or(Refusal::OutOfRange)?;
    if Plant::FIRST_SESSION < p.next {
        return Err(Refusal::SessionBegun);
    }
    let old = p.keys.key(k);
    if !old.is_empty() {
        return Err(Refusal::KeyDefined);
    }
    let n = arguments::index(count, Key::LIMIT as u8 + 1).ok_or(Refusal::BadPlaces)?;
    let new = places.key(n);
    if new.is_empty() {
        return Err(Refusal::BadPlaces);
    }
    Ok(Answer::Done)
}

pub fn after(
    p: Plant,
    key: i64,
    count: i64,
    d1: i64,
    f1: i64,
    d2: i64,
    f2: i64,
    d3: i64,
    f3: i64,
    d4: i64,
    f4: i64,
) -> Keys
    ensures shows { Performs (Map key count (pairs d1 f1 d2 f2 d3 f3 d4 f4)) p (with_keys p result) }
    ensures form { plant_form p ≡ true → plant_form (with_keys p result) ≡ true }
{
    let k = arguments::index(key, Keys::LIMIT as u8).unwrap_or(Keys::LIMIT as u8);
    let n = arguments::index(count, Key::LIMIT as u8 + 1).unwrap_or(0);
    match Places::of(d1, f1, d2, f2, d3, f3, d4, f4) {
        Some(places) => p.keys.with(k, places.key(n)),
        None => p.keys,
    }
}
