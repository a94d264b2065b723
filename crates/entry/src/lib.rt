// The one entry: any call, on the plant, with words lent to it, or calls one after the other.
#![tactic(auto)]

ghost use Rattle.std.specs.Prelude.{◌≡◌, true, length, take};
ghost use Rattle.plant.specs.View.{plant_form, kept_plant};
ghost use Rattle.answers.specs.View.{view_answer, is_refused, is_ending};
ghost use Rattle.answers.specs.Own.{is_answer_of};
ghost use Rattle.calls.specs.View.{view_call, view_calls};
ghost use Rattle.entry.specs.Ran.{Ran};
ghost use Rattle.entry.specs.RanAll.{RanAll};
ghost use Rattle.entry.specs.Refused.{RefusalLeaves};

use answers::{Answer, Refusal};
use call_read_shown::Marked;
use calls::{Call, Calls};
use plant::Plant;

// What a call answered, and how many words it shows, of those lent to it.
#[derive(Clone, Copy)]
pub struct Told {
    pub answer: Result<Answer, Refusal>,
    pub shown: usize,
}

// The plant that calls leave, and what they were told, in their order: the first `count`. The count stands between the two, because the compiler
// then moves the plant by itself, and half as often.
#[derive(Clone, Copy)]
pub struct Outcomes {
    pub plant: Plant,
    pub count: usize,
    pub told: [Told; Calls::LIMIT],
}

// The session that called has ended by it.
fn ends(a: Result<Answer, Refusal>) -> bool
    ensures { result ≡ is_ending (view_answer a) }
{
    a.is_err_and(|r| r.ends_session())
}

// Runs calls one after the other, and lends each the next `share` of the words, as far as there are any. The plant lies here: calls are asked where
// it lies and their tables are written in place, because a plant that goes through a function is copied. What a read shows is kept for the
// cache, and not worked out again.
pub fn run_all(mut p: Plant, calls: Calls, share: usize, words: &mut [i32]) -> Outcomes
    ensures runs { RanAll share p (view_calls calls) (take result.count result.told) words.old words.new result.plant }
    ensures counts { result.count ≡ length (view_calls calls) }
{
    let none = Told {
        answer: Ok(Answer::Done),
        shown: 0,
    };
    let mut told = [none; Calls::LIMIT];
    let mut read = Marked::nothing();
    let end = calls.len();
    let mut i: usize = 0;
    let mut at: usize = 0;
    while i < end {
        let c = calls.items[i];
        let next = at + share.min(words.len() - at);
        let mut shown: usize = 0;
        let a = match c {
            Call::Read(s, k) => {
                let found = call_read::found(p, s, k, next - at);
                shown = call_read::fill(found, &mut words[at..next]);
                match found {
                    Ok(m) => {
                        read = m;
                        Ok(Answer::Read(m.mark))
                    }
                    Err(r) => Err(r),
                }
            }
            Call::Change(s, d, f, k, v) => call_change::answer(p, s, d, f, k, v),
            Call::Commit(s) => call_commit::answer(p, s),
            Call::Abandon(s) => call_abandon::answer(p, s),
            Call::Report(s) => call_report::answer(p, s),
            _ => entry_parts::plain(p, c),
        };
        told[i] = Told { answer: a, shown };
        i += 1;
        at = next;
        if ends(a) {
            let sessions = entry_parts::ended(p, c);
            p.sessions = sessions;
            continue;
        }
        if a.is_err() {
            continue;
        }
        match c {
            Call::Load(d, f, k, v) => {
                let store = call_load::after(p, d, f, k, v);
                p.store = store;
            }
            Call::Map(k, n, d1, f1, d2, f2, d3, f3, d4, f4) => {
                let keys = call_map::after(p, k, n, d1, f1, d2, f2, d3, f3, d4, f4);
                p.keys = keys;
            }
            Call::Begin => {
                let t = call_begin::after(p);
                let sessions = t.sessions;
                p.sessions = sessions;
                p.next = t.next;
            }
            Call::Read(s, k) => {
                let t = call_read::after(p, s, k, read);
                let cache = t.cache;
                let sessions = t.sessions;
                p.cache = cache;
                p.sessions = sessions;
            }
            Call::Change(s, d, f, k, v) => {
                let sessions = call_change::after(p, s, d, f, k, v);
                p.sessions = sessions;
            }
            Call::Commit(s) => {
                let t = call_commit::after(p, s);
                let buffer = t.buffer;
                let cache = t.cache;
                let sessions = t.sessions;
                p.buffer = buffer;
                p.cache = cache;
                p.sessions = sessions;
            }
            Call::Abandon(s) => {
                let sessions = call_abandon::after(p, s);
                p.sessions = sessions;
            }
            Call::Advance(n) => {
                let t = call_advance::after(p, n);
                let cache = t.cache;
                let sessions = t.sessions;
                let queue = t.queue;
                p.cache = cache;
                p.sessions = sessions;
                p.queue = queue;
                p.clock = t.clock;
            }
            Call::Take(w) => {
                let t = call_take::after(p, w);
                let hands = t.hands;
                let queue = t.queue;
                p.hands = hands;
                p.queue = queue;
            }
            Call::Apply(w, f) => {
                let t = call_apply::after(p, w, f);
                let store = t.store;
                let rows = t.rows;
                let hands = t.hands;
                p.store = store;
                p.rows = rows;
                p.hands = hands;
            }
            Call::Delete(w) => {
                let t = call_delete::after(p, w);
                let buffer = t.buffer;
                let hands = t.hands;
                let queue = t.queue;
                p.buffer = buffer;
                p.hands = hands;
                p.queue = queue;
            }
            Call::Cut(w) => {
                let t = call_cut::after(p, w);
                let hands = t.hands;
                let queue = t.queue;
                p.hands = hands;
                p.queue = queue;
            }
            Call::Sweep => {
                let rows = call_sweep::after(p);
                p.rows = rows;
            }
            Call::Store(n) => {
                let near = call_store::after(p, n);
                p.near = near;
            }
            Call::Report(_) => {}
        }
    }
    Outcomes {
        plant: p,
        count: i,
        told,
    }
}

#[derive(Clone, Copy)]
pub struct Outcome {
    pub answer: Result<Answer, Refusal>,
    pub plant: Plant,
}

pub fn run(p: Plant, c: Call, words: &mut [i32]) -> Outcome
    ensures runs { kept_plant p ≡ true → Ran c words.old p result.answer words.new result.plant }
    ensures own { is_answer_of (view_call c) result.answer ≡ true }
    ensures form { plant_form p ≡ true → plant_form result.plant ≡ true }
    ensures refused { RefusalLeaves p result.answer result.plant }
    ensures memory { is_refused (view_answer result.answer) ≡ true → words.new ≡ words.old }
{
    let none = Calls::none();
    let share = words.len();
    let all = run_all(p, none.push(c), share, words);
    let t = all.told[0];
    let answer = t.answer;
    let plant = all.plant;
    Outcome { answer, plant }
}
