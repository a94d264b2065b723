// How code calls the plant, without lines: each call goes through the entry, on the plant that the call before left, and its answer is told.
// 600 of 10,000 kilos are drawn, the reply of the worker that carries them is lost, and a second worker does not draw them again.
#![tactic(auto)]

use answers::{Answer, Refusal};
use calls::Call;
use entry::Outcome;
use plant::Plant;

// the one place, and the key that shows it
const FLOUR: i64 = 0;

const KILOS: i64 = 0;

const KEY: i64 = 0;

// kilos at the start, the change that draws some, and what it leaves
const STOCK: i64 = 10000;

const DRAW: i64 = -600;

const LEFT: i32 = 9400;

// changes and fates, by the paper's numbers
const SET: i64 = 1;

const INC: i64 = 3;

const REPLY_ARRIVES: i64 = 0;

const REPLY_LOST: i64 = 1;

// the ticks after which a worker's queue lease lapses
const LEASE: i64 = 300;

// a read fills eight words for each place of its key; of a number the third is its value
const WORDS: usize = 8;

const VALUE: usize = 2;

// Where standard output takes nothing more, the calls go on: they are what is shown here.
fn tell(rt: &impl Print, name: &str, answer: Result<Answer, Refusal>) {
    let _ = match answer {
        Err(refusal) => println!(rt; "{name}: refused by {}", refusal.number()),
        Ok(Answer::Done) => println!(rt; "{name}: done"),
        Ok(Answer::Begun(session)) => println!(rt; "{name}: session {session}"),
        Ok(Answer::Read(mark)) => println!(rt; "{name}: mark {}", mark.number()),
        Ok(Answer::Changed(changes)) => println!(rt; "{name}: changes now {changes}"),
        Ok(Answer::Committed(buffered)) => println!(rt; "{name}: buffered now {buffered}"),
        Ok(Answer::Advanced(clock)) => println!(rt; "{name}: clock {clock}"),
        Ok(Answer::Taken(session)) => println!(rt; "{name}: session {session}"),
        Ok(Answer::Applied(reply)) => println!(rt; "{name}: reply {}", reply.number()),
        Ok(Answer::Deleted(found)) => println!(rt; "{name}: removed {}", u8::from(found)),
        Ok(Answer::Swept(rows)) => println!(rt; "{name}: rows removed {rows}"),
        Ok(Answer::Reported(shared, exclusive, changes)) => {
            println!(rt; "{name}: shared {shared}, exclusive {exclusive}, changes {changes}")
        }
    };
}

// Makes a call and tells its answer.
fn made(rt: &impl Print, name: &str, p: Plant, c: Call, words: &mut [i32]) -> Outcome {
    let outcome = entry::run(p, c, words);
    tell(rt, name, outcome.answer);
    outcome
}

// The same of several calls, for whoever needs only the plant that is left. Calls that are no reads need no words.
fn after(rt: &impl Print, mut p: Plant, calls: &[(&str, Call)]) -> Plant {
    for (name, call) in calls {
        p = made(rt, name, p, *call, &mut []).plant;
    }
    p
}

fn set_up(rt: &impl Print) -> Plant {
    let calls = [
        ("load", Call::Load(FLOUR, KILOS, SET, STOCK)),
        ("map", Call::Map(KEY, 1, FLOUR, KILOS, 0, 0, 0, 0, 0, 0)),
    ];
    after(rt, Plant::empty(), &calls)
}

// A session's number, from the answer to its begin; 0, which no session has, from any other.
fn session_of(answer: Result<Answer, Refusal>) -> i64 {
    if let Ok(Answer::Begun(session)) = answer {
        session as i64
    } else {
        0
    }
}

fn drawn(rt: &impl Print, p: Plant) -> Plant {
    let begun = made(rt, "begin", p, Call::Begin, &mut []);
    let session = session_of(begun.answer);
    let calls = [
        ("change", Call::Change(session, FLOUR, KILOS, INC, DRAW)),
        ("report", Call::Report(session)),
        ("commit", Call::Commit(session)),
        ("commit", Call::Commit(session)),
    ];
    after(rt, begun.plant, &calls)
}

fn carried(rt: &impl Print, p: Plant) -> Plant {
    let calls = [
        ("take", Call::Take(0)),
        ("apply", Call::Apply(0, REPLY_LOST)),
        ("advance", Call::Advance(LEASE)),
        ("take", Call::Take(1)),
        ("apply", Call::Apply(1, REPLY_ARRIVES)),
        ("delete", Call::Delete(1)),
        ("cut", Call::Cut(0)),
        ("sweep", Call::Sweep),
    ];
    after(rt, p, &calls)
}

// Whoever has only the entry learns a stock by a read, from the words that it fills.
fn read(rt: &impl Print, p: Plant) {
    let mut words = [0; WORDS];
    let begun = made(rt, "begin", p, Call::Begin, &mut words);
    let session = session_of(begun.answer);
    let call = Call::Read(session, KEY);
    made(rt, "read", begun.plant, call, &mut words);
    let _ = if words[VALUE] == LEFT {
        println!(rt; "the draw stands once")
    } else {
        println!(rt; "the stock is another")
    };
}

fn main(rt: HostRuntime) {
    let stocked = set_up(&rt);
    let buffered = drawn(&rt, stocked);
    let stored = carried(&rt, buffered);
    read(&rt, stored);
}
