// A server of lines: it takes input in pieces of any size, answers each line once byte 10 has ended it, and keeps of a line that is not
// ended its first bytes.
#![tactic(auto)]

ghost use Rattle.std.specs.Prelude.{◌+◌, ◌<◌, ◌≤◌, ◌≡◌, true, [], ◌++◌, length};
ghost use Rattle.rules.specs.Tables.{setup};
ghost use Rattle.line_format.specs.Lines.{said};
ghost use Rattle.line_print.specs.Line.{longest};
ghost use Rattle.plant.specs.View.{view_plant};
ghost use Rattle.line_pending.specs.View.{view_pending, between};
ghost use Rattle.line_parse.specs.View.{view_said};
ghost use Rattle.line_server.specs.Fed.{kept_server, Within, Past, Fed, Finished, Untouched, FormKept};

use answers::Refusal;
use calls::{Call, Calls};
use line_pending::Pending;
use plant::Plant;

// The plant, what is kept of a line that is not ended, and how many bytes of the last piece were used, and of those lent with it filled.
#[derive(Clone, Copy)]
pub struct Server {
    pub plant: Plant,
    pub pending: Pending,
    pub used: usize,
    pub wrote: usize,
}

impl Server {
    pub fn start() -> Self
        ensures shows { view_plant result.plant ≡ setup }
        ensures empty { view_pending result.pending ≡ [] }
        ensures kept { kept_server result ≡ true }
    {
        let plant = Plant::empty();
        let pending = Pending::empty();
        Server {
            plant,
            pending,
            used: 0,
            wrote: 0,
        }
    }
}

// What the line of what is kept and the piece's bytes from one position up to another says.
fn heard(kept: Pending, piece: &[u8], from: usize, to: usize) -> Result<Call, Refusal>
    requires { (from ≤ to) × (to ≤ length piece.now) }
    ensures { view_said result ≡ said (view_pending kept ++ between from to piece.now) }
{
    if kept.len == 0 {
        return line_parse::parse(&piece[from..to]);
    }
    let whole = kept.add(piece, from, to);
    let bytes = whole.line;
    let len = whole.len as usize;
    line_parse::parse(&bytes[..len])
}

// Takes the piece as far as there is room for its answers, and nothing of it where too few bytes are lent for any. The calls that lines say go into
// a list, until it is full or there is no room left for the longest answer to each, or until no line follows that says a call. Then it is run and
// what its calls were told is printed. A line that says no call, and the rest of a piece, are taken when the list is empty.
pub fn feed(s: Server, piece: &[u8], out: &mut [u8]) -> Server
    ensures feeds { kept_server s ≡ true → Fed s piece.now out.new result }
    ensures within { Within result piece.now out.old }
    ensures all { result.wrote + longest ≤ length out.old → result.used ≡ length piece.now }
    ensures some { longest ≤ length out.old → result.used ≡ 0 → length piece.now ≡ 0 }
    ensures past { kept_server s ≡ true → Past result out.old out.new }
    ensures short { length out.old < longest → Untouched s out.old out.new result }
    ensures form { FormKept s result }
{
    let mut p = s.plant;
    let mut kept = s.pending;
    let mut calls = Calls::none();
    let mut used: usize = 0;
    let mut wrote: usize = 0;
    let mut room = out.len();
    let mut words = [0i32; line_print::WORDS * Calls::LIMIT];
    loop {
        let at = calls.count as usize;
        if used < piece.len() && line_print::LONGEST <= room && at < Calls::LIMIT {
            let end = line_pending::line_end(piece, used);
            if end < piece.len() {
                let said = heard(kept, piece, used, end);
                match said {
                    Ok(c) => {
                        calls.items[at] = c;
                        calls.count = calls.count + 1;
                        kept = Pending::empty();
                        used = end + 1;
                        room -= line_print::LONGEST;
                        continue;
                    }
                    Err(r) => {
                        if at == 0 {
                            wrote += line_answer::refuse(r, &mut out[wrote..]);
                            kept = Pending::empty();
                            used = end + 1;
                            room = out.len() - wrote;
                            continue;
                        }
                    }
                }
            } else if at == 0 {
                let pending = kept.add(piece, used, end);
                return Server {
                    plant: p,
                    pending,
                    used: end,
                    wrote,
                };
            }
        }
        if at == 0 {
            return Server {
                plant: p,
                pending: kept,
                used,
                wrote,
            };
        }
        let o = entry::run_all(p, calls, line_print::WORDS, &mut words);
        let told = o.told;
        p = o.plant;
        calls.count = 0;
        wrote += line_answer::tell_all(o.count, told, &words, &mut out[wrote..]);
        room = out.len() - wrote;
    }
}

// The end of input ends a line that has begun, as a byte 10 does. Where too few bytes are lent for any answer nothing is done.
pub fn finish(s: Server, out: &mut [u8]) -> Server
    ensures serves { longest ≤ length out.old → kept_server s ≡ true → Finished s out.new result }
    ensures within { result.wrote ≤ length out.old }
    ensures past { kept_server s ≡ true → Past result out.old out.new }
    ensures short { length out.old < longest → Untouched s out.old out.new result }
    ensures form { FormKept s result }
{
    let kept = s.pending;
    if kept.is_empty() {
        let plant = s.plant;
        return Server {
            plant,
            pending: kept,
            used: 0,
            wrote: 0,
        };
    }
    let end = [b'\n'; 1];
    feed(s, &end, out)
}
