// Store: the data store is near or away from now on.
#![tactic(auto)]

ghost use Rattle.std.specs.Prelude.{◌≡◌, true, List, ℤ};
ghost use Rattle.rules.specs.Calls.{Store};
ghost use Rattle.plant.specs.View.{plant_form};
ghost use Rattle.plant.specs.With.{with_near};
ghost use Rattle.answers.specs.Own.{is_answer_of};
ghost use Rattle.promises.specs.Promise.{Answers, Performs};

use answers::{Answer, Refusal};
use plant::Plant;

const NEAR: u8 = 1;

pub fn answer(p: Plant, mark: i64) -> Result<Answer, Refusal>
    ensures answers { (lent : List ℤ) → Answers (Store mark) lent p result }
    ensures own { is_answer_of (Store mark) result ≡ true }
{
    arguments::index(mark, NEAR + 1).ok_or(Refusal::OutOfRange)?;
    Ok(Answer::Done)
}

pub fn after(p: Plant, mark: i64) -> bool
    ensures shows { Performs (Store mark) p (with_near p result) }
    ensures form { plant_form p ≡ true → plant_form (with_near p result) ≡ true }
{
    arguments::index(mark, NEAR + 1) == Some(NEAR)
}
