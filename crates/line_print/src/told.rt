// What an answer tells on its line: the refusal or 0, numbers, and how many of the words that are lent to a read.
ghost use Rattle.std.specs.Prelude.{[], ◌∷◌};
ghost use Rattle.rules.specs.Calls.{fine};
ghost use Rattle.answers.specs.View.{view_answer};
ghost use Rattle.line_print.specs.told.Told.{Tells, Shows};

use answers::{Answer, Refusal};

// What an answer tells: its refusal or 0, and the first `count` of the numbers.
#[derive(Clone, Copy)]
pub struct Told {
    pub refusal: u8,
    pub count: usize,
    pub numbers: [u64; Told::LIMIT],
}

impl Told {
    pub const LIMIT: usize = 3;

    fn one(n: u64) -> Self
        ensures { Tells (fine (n ∷ [])) result }
    {
        Told {
            refusal: 0,
            count: 1,
            numbers: [n, 0, 0],
        }
    }

    pub fn of(a: Result<Answer, Refusal>) -> Self
        ensures { Tells (view_answer a) result }
    {
        match a {
            Err(r) => Told {
                refusal: r.number(),
                count: 0,
                numbers: [0, 0, 0],
            },
            Ok(Answer::Done) => Told {
                refusal: 0,
                count: 0,
                numbers: [0, 0, 0],
            },
            Ok(Answer::Begun(n)) => Told::one(n as u64),
            Ok(Answer::Read(m)) => Told::one(m.number() as u64),
            Ok(Answer::Changed(n)) => Told::one(n as u64),
            Ok(Answer::Committed(n)) => Told::one(n as u64),
            Ok(Answer::Advanced(t)) => Told::one(t),
            Ok(Answer::Taken(n)) => Told::one(n as u64),
            Ok(Answer::Applied(r)) => Told::one(r.number() as u64),
            Ok(Answer::Deleted(b)) => Told::one(b as u64),
            Ok(Answer::Swept(n)) => Told::one(n as u64),
            Ok(Answer::Reported(s, x, c)) => Told {
                refusal: 0,
                count: 3,
                numbers: [s as u64, x as u64, c as u64],
            },
        }
    }
}

// How many of the words a line shows: a refusal shows none.
pub fn shown_words(a: Result<Answer, Refusal>, words: &[i32], shown: usize) -> usize
    ensures { Shows (view_answer a) words.now shown result }
{
    if a.is_err() {
        return 0;
    }
    shown.min(words.len())
}
