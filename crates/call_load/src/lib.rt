// Load: one change is made to the store itself, before the first session.
#![tactic(auto)]

ghost use Rattle.std.specs.Prelude.{◌≡◌, true, List, ℤ};
ghost use Rattle.rules.specs.Calls.{Load};
ghost use Rattle.plant.specs.View.{plant_form};
ghost use Rattle.plant.specs.With.{with_store};
ghost use Rattle.answers.specs.Own.{is_answer_of};
ghost use Rattle.promises.specs.Promise.{Answers, Performs};

use answers::{Answer, Refusal};
use plant::Plant;
use store::Store;

pub fn answer(p: Plant, document: i64, field: i64, kind: i64, value: i64) -> Result<Answer, Refusal>
    ensures answers { (lent : List ℤ) → Answers (Load document field kind value) lent p result }
    ensures own { is_answer_of (Load document field kind value) result ≡ true }
{
    let c = arguments::change::update(document, field, kind, value).ok_or(Refusal::OutOfRange)?;
    if Plant::FIRST_SESSION < p.next {
        return Err(Refusal::SessionBegun);
    }
    if !p.near {
        return Err(Refusal::StoreAway);
    }
    let f = p.store.field(c.place);
    arguments::change::met(c, f)?;
    Ok(Answer::Done)
}

pub fn after(p: Plant, document: i64, field: i64, kind: i64, value: i64) -> Store
    ensures shows { Performs (Load document field kind value) p (with_store p result) }
    ensures form { plant_form p ≡ true → plant_form (with_store p result) ≡ true }
{
    match arguments::change::update(document, field, kind, value) {
        Some(c) => p.store.changed(c),
        None => p.store,
    }
}
