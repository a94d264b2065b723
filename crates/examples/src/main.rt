// The worked examples of data/: the lines of each are served on a plant of their own, in pieces of a size of their own because input may
// be cut anywhere, and the answers are compared with those that stand beside the lines.
#![tactic(auto)]

ghost use Rattle.std.specs.Prelude.{ℕ, ◌<◌, List, ◌++◌, Ok};
ghost use Rattle.examples.specs.Comparison.{Matches, Compared};

use line_server::Server;
use std::rt::Files;
use std::{fs, io};

const ROOM: usize = 65536;

// The examples, each with the size of its pieces. Both names of each are written out: a name that was made could find no memory.
const EXAMPLES: [(&str, &str, usize); 26] = [
    // lines
    ("paper.lines", "paper.answers", 4096),
    ("line-forms.lines", "line-forms.answers", 1),
    ("empty.lines", "empty.answers", 65536),
    // replies
    ("lost-reply.lines", "lost-reply.answers", 2),
    ("lost-reply-cut.lines", "lost-reply-cut.answers", 3),
    ("two-hands.lines", "two-hands.answers", 5),
    // mistakes
    ("swept-too-soon.lines", "swept-too-soon.answers", 7),
    (
        "cached-past-the-buffer.lines",
        "cached-past-the-buffer.answers",
        11,
    ),
    ("doomed-for-nothing.lines", "doomed-for-nothing.answers", 13),
    ("lapsed-commit.lines", "lapsed-commit.answers", 26),
    // limits
    ("store-away.lines", "store-away.answers", 27),
    ("newest-booking.lines", "newest-booking.answers", 37),
    ("full-buffer.lines", "full-buffer.answers", 64),
    ("full-rows.lines", "full-rows.answers", 100),
    ("rows-passed-over.lines", "rows-passed-over.answers", 29),
    // cached keys
    ("full-cache.lines", "full-cache.answers", 122),
    ("cached-again.lines", "cached-again.answers", 17),
    ("oldest-updated.lines", "oldest-updated.answers", 19),
    // rules
    ("leases.lines", "leases.answers", 123),
    ("fields.lines", "fields.answers", 124),
    ("recalled-lot.lines", "recalled-lot.answers", 51),
    ("refusals.lines", "refusals.answers", 256),
    ("refusal-order.lines", "refusal-order.answers", 1000),
    // differences: the answers of these are wrong on purpose
    ("differs-byte.lines", "differs-byte.answers", 9),
    ("differs-short.lines", "differs-short.answers", 4096),
    ("differs-long.lines", "differs-long.answers", 1),
];

// How many of the answers have come, once the bytes of out come after the first `at`; or, where a byte is not the next one, after how many.
fn add(answers: &[u8], mut at: usize, out: &[u8]) -> Result<usize, usize>
    ensures { (came : List ℕ) → Matches answers.now came (Ok at) → Matches answers.now (came ++ out.now) result }
{
    for b in out {
        if answers.get(at) != Some(b) {
            return Err(at);
        }
        at += 1;
    }
    Ok(at)
}

// Whether the lines are answered with the answers, no byte less and no byte more; or after how many bytes they differ.
fn serve(lines: &[u8], size: usize, answers: &[u8]) -> Result<(), usize>
    requires { 0 < size }
    ensures { Compared lines.now answers.now result }
{
    let mut out = [0; ROOM];
    let mut server = Server::start();
    let mut at = 0;
    let mut rest = lines;
    while !rest.is_empty() {
        let piece = &rest[..size.min(rest.len())];
        server = line_server::feed(server, piece, &mut out);
        at = add(answers, at, &out[..server.wrote])?;
        rest = &rest[server.used..];
    }
    server = line_server::finish(server, &mut out);
    at = add(answers, at, &out[..server.wrote])?;
    if at == answers.len() { Ok(()) } else { Err(at) }
}

// The system's words for an error, of which `Display` adds the number. It stands in kagbitu too: no crate below both is about errors.
fn without_number(text: &str) -> &str {
    text.rsplit_once(" (os error ")
        .map_or(text, |(words, _)| words)
}

// Says on standard error why a file of an example is not read. Where no memory is left, the number stays.
fn unread(rt: &(impl Eprint + AllocGlobal), name: &str, error: io::Error) {
    let _ = match error.to_string(rt.alloc()) {
        Ok(text) => eprintln!(rt; "{name}: {}", without_number(text.as_str())),
        Err(_) => eprintln!(rt; "{name}: {error}"),
    };
}

// The bytes of a file of an example; where it is not read, why not is said.
fn read(rt: &(impl Files + Eprint + AllocGlobal), name: &str) -> Option<Vec<u8>> {
    fs::read(rt, name)
        .map_err(|error| unread(rt, name, error))
        .ok()
}

// Where standard output takes nothing more, the examples that are left are compared and not told.
fn example(
    rt: &(impl Files + Print + Eprint + AllocGlobal),
    lines: &str,
    answers: &str,
    size: usize,
) -> Option<()>
    requires { 0 < size }
{
    let given = read(rt, lines)?;
    let expected = read(rt, answers)?;
    match serve(given.as_slice(), size, expected.as_slice()) {
        Ok(()) => println!(rt; "{lines} same").ok(),
        Err(at) => println!(rt; "{lines} differs at byte {at}").ok(),
    }
}

fn main(rt: HostRuntime) {
    for (lines, answers, size) in EXAMPLES {
        example(&rt, lines, answers, size);
    }
}
