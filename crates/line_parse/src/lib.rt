// A line read into the call that it says, or into the refusal that it meets before the plant is asked.
#![tactic(auto)]

pub mod columns;

ghost use Rattle.std.specs.Prelude.{◌≡◌, ◌≤◌, length, drop};
ghost use Rattle.line_format.specs.Bytes.{call_width, most_numbers};
ghost use Rattle.line_format.specs.Lines.{call_of, nth, numbers_in, said};
ghost use Rattle.calls.specs.View.{view_call};
ghost use Rattle.line_parse.specs.columns.View.{view_option};
ghost use Rattle.line_parse.specs.View.{view_said, view_numbers, named, arity_of};

use answers::Refusal;
use calls::Call;
use line_format::{CALL_WIDTH, MOST_NUMBERS, NUMBER_WIDTH};

// How many numbers each call has, from call 1 on.
const ARITIES: [usize; 15] = [4, 10, 0, 2, 5, 1, 1, 1, 1, 2, 1, 1, 0, 1, 1];

fn arity(call: u8) -> Option<usize>
    ensures { view_option result ≡ arity_of call }
{
    let at = usize::from(call).checked_sub(1)?;
    ARITIES.get(at).copied()
}

// The numbers after the call column, just as many as are asked for; those past its count do not count.
fn numbers_of(line: &[u8], count: usize) -> Option<[i64; MOST_NUMBERS]>
    requires few { count ≤ most_numbers }
    requires long { call_width ≤ length line.now }
    ensures { view_numbers count result ≡ numbers_in count (drop call_width line.now) }
{
    if line.len() != CALL_WIDTH + count * NUMBER_WIDTH {
        return None;
    }
    let mut numbers = [0; MOST_NUMBERS];
    for i in 0..count {
        // Its own columns alone, whose count is then known where this is compiled.
        let at = CALL_WIDTH + i * NUMBER_WIDTH;
        numbers[i] = columns::number_at(&line[at..at + NUMBER_WIDTH], 0)?;
    }
    Some(numbers)
}

// The call of a number, begin where there is none, with its numbers.
fn made(call: u8, numbers: [i64; MOST_NUMBERS]) -> Call
    ensures { view_call result ≡ call_of (named call) (nth numbers) }
{
    let [a, b, c, d, e, f, g, h, i, j] = numbers;
    match call {
        1 => Call::Load(a, b, c, d),
        2 => Call::Map(a, b, c, d, e, f, g, h, i, j),
        4 => Call::Read(a, b),
        5 => Call::Change(a, b, c, d, e),
        6 => Call::Commit(a),
        7 => Call::Abandon(a),
        8 => Call::Advance(a),
        9 => Call::Take(a),
        10 => Call::Apply(a, b),
        11 => Call::Delete(a),
        12 => Call::Cut(a),
        13 => Call::Sweep,
        14 => Call::Store(a),
        15 => Call::Report(a),
        _ => Call::Begin,
    }
}

// What the line says; any bytes.
pub fn parse(line: &[u8]) -> Result<Call, Refusal>
    ensures { view_said result ≡ said line.now }
{
    let call = columns::call(line).ok_or(Refusal::BadLine)?;
    let count = arity(call).ok_or(Refusal::OutOfRange)?;
    let numbers = numbers_of(line, count).ok_or(Refusal::BadLine)?;
    Ok(made(call, numbers))
}
