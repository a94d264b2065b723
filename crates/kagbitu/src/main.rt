// The line program: lines of standard input served one after the other on a plant that starts empty, their answers on standard output.
#![tactic(auto)]

mod part;
mod transfer;

ghost use Rattle.std.specs.Prelude.{◌≤◌, ◌≡◌, length};
ghost use Rattle.line_print.specs.Line.{longest};
ghost use Rattle.kagbitu.specs.Transfer.{IsFailed, CameTo};
ghost use Rattle.kagbitu.specs.Part.{Inside};
ghost use Rattle.kagbitu.specs.Run.{Turned, Ended, AllServed};

use line_server::Server;
use part::Part;
use std::io::{Read, Stdin, Stdout, Write};
use std::{io, thread};
use transfer::Transfer;

// Bytes read at a time: a quarter of the room for answers, because calls are run together only as far as there is room for the longest answer to each.
const PIECE: usize = 16384;

const ROOM: usize = 65536;

fn piece_buffer() -> [u8; PIECE]
    ensures { 16384 ≡ length result }
{
    [0; PIECE]
}

fn answer_buffer() -> [u8; ROOM]
    ensures { 65536 ≡ length result }
{
    [0; ROOM]
}

fn read(input: &mut Stdin, piece: &mut [u8]) -> Transfer
    ensures { CameTo (length piece.old) result }
{
    let lent = piece.len();
    let answer = input.read(piece);
    transfer::told(answer, lent)
}

fn write_some(output: &mut Stdout, out: &[u8]) -> Transfer
    ensures { CameTo (length out.now) result }
{
    let answer = output.write(out);
    transfer::told(answer, out.len())
}

// Others run first. A wait for a time would make an answer late where the next try is soon possible.
fn wait() {
    thread::yield_now();
}

// The system's words for an error, of which `Display` adds the number.
fn without_number(text: &str) -> &str {
    match text.rsplit_once(" (os error ") {
        Some((words, _)) => words,
        None => text,
    }
}

// Where standard error takes no text, nothing is left to say it on. Where no memory is left, the number stays.
fn say(rt: &(impl Eprint + AllocGlobal), stream: &str, error: io::Error) {
    let _ = match error.to_string(rt.alloc()) {
        Ok(text) => {
            let words = without_number(text.as_str());
            eprintln!(rt; "kagbitu: {stream}: {words}")
        }
        Err(_) => eprintln!(rt; "kagbitu: {stream}: {error}"),
    };
}

// Only a read that failed is said to have failed, and the line that has begun is not run.
fn unread(rt: &(impl Eprint + AllocGlobal), read: Transfer)
    requires { IsFailed read }
{
    if let Transfer::Failed(error) = read {
        say(rt, "standard input", error);
    }
}

// A write that took nothing gave no error of its own.
fn unwritten(rt: &(impl Eprint + AllocGlobal), wrote: Transfer) {
    let error = match wrote {
        Transfer::Failed(error) => error,
        _ => io::Error::from(io::ErrorKind::WriteZero),
    };
    say(rt, "standard output", error);
}

// Writes all, or says why not. A write that takes some of the bytes is followed by one of the rest, and one that takes nothing has failed.
fn write(rt: &(impl Eprint + AllocGlobal), output: &mut Stdout, out: &[u8]) -> bool {
    let mut rest = Part::first(out.len());
    let mut tries = u64::MAX;
    while tries > 0 {
        if rest.is_empty() {
            return true;
        }
        tries -= 1;
        let at = rest.at;
        let end = rest.end;
        let wrote = write_some(output, &out[at..end]);
        match wrote {
            Transfer::Moved(n) => rest = rest.after(n),
            Transfer::Again => wait(),
            _ => {
                unwritten(rt, wrote);
                return false;
            }
        }
    }
    false
}

// The end of input ends a line that has begun. Nothing else does but byte 10: so what the read came to is asked for.
fn finish(server: Server, read: Transfer, out: &mut [u8]) -> usize
    requires read_value { read ≡ Transfer.End }
    requires ended { Ended server }
    ensures within { result ≤ length out.old }
    ensures serves { longest ≤ length out.old → AllServed server out.new result }
{
    let finished = line_server::finish(server, out);
    finished.wrote
}

// What is left of a turn that serves: the server, and what of the piece is still unused.
#[derive(Clone, Copy)]
struct Turn {
    server: Server,
    part: Part,
}

// Feeds all that is unused, no byte twice and none passed over.
fn serve(server: Server, part: Part, piece: &[u8], out: &mut [u8]) -> Turn
    requires { Inside part piece.now }
    ensures { Turned server part piece.now out.old out.new result.server result.part }
{
    let at = part.at;
    let end = part.end;
    let next = line_server::feed(server, &piece[at..end], out);
    let rest = part.after(next.used);
    Turn {
        server: next,
        part: rest,
    }
}

// A turn reads once, or serves what was read as far as there is room for the answers, so that a line is answered before more input is
// waited for. A proved loop has to end, and nothing says that input does: so the turns are counted down, and the tries that read nothing yet,
// from a number that no run uses up.
fn main(rt: HostRuntime) {
    let mut input = rt.stdin();
    let mut output = rt.stdout();
    let mut piece = piece_buffer();
    let mut out = answer_buffer();
    let mut server = Server::start();
    let mut part = Part::first(0);
    let mut turns = u64::MAX;
    let mut tries = u64::MAX;
    while turns > 0 {
        if part.is_empty() {
            let got = read(&mut input, &mut piece);
            match got {
                Transfer::Moved(n) => {
                    part = Part::first(n);
                    turns -= 1;
                }
                Transfer::End => {
                    let wrote = finish(server, got, &mut out);
                    write(&rt, &mut output, &out[..wrote]);
                    return;
                }
                Transfer::Again => {
                    if tries == 0 {
                        return;
                    }
                    tries -= 1;
                    wait();
                }
                Transfer::Failed(_) => {
                    unread(&rt, got);
                    return;
                }
            }
            continue;
        }
        let turn = serve(server, part, &piece, &mut out);
        let next = turn.server;
        let rest = turn.part;
        server = next;
        part = rest;
        turns -= 1;
        let wrote = server.wrote;
        if !write(&rt, &mut output, &out[..wrote]) {
            return;
        }
    }
}
