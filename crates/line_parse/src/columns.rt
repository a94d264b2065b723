// A number in its columns: spaces, a minus, digits.
ghost use Rattle.std.specs.Prelude.{◌≡◌, ◌≤◌, ◌<◌, ◌^◌, IfSome, length, take, drop};
ghost use Rattle.line_format.specs.Bytes.{base, number_width};
ghost use Rattle.line_format.specs.Columns as C;
ghost use Rattle.line_format.specs.Columns.{integer_in};
ghost use Rattle.line_format.specs.Lines.{call_in};
ghost use Rattle.line_parse.specs.columns.View.{view_option};

use line_format::{BASE, CALL_WIDTH, DIGIT_ZERO, MINUS, NUMBER_WIDTH, SPACE};

// Past the first eight columns at once, where they are spaces, as before most numbers.
fn past_eight(columns: &[u8]) -> &[u8]
    ensures same { C.trimmed result.now ≡ C.trimmed columns.now }
    ensures within { length result.now ≤ length columns.now }
{
    columns.strip_prefix(&[SPACE; 8]).unwrap_or(columns)
}

// The columns past the spaces before them.
fn past_spaces(columns: &[u8]) -> &[u8]
    ensures rest { result.now ≡ C.trimmed columns.now }
    ensures within { length result.now ≤ length columns.now }
{
    let near = past_eight(columns);
    let from = near.iter().position(|&b| b != SPACE);
    &near[from.unwrap_or(near.len())..]
}

// The number that digits make: at least one, and no leading zero.
fn natural(digits: &[u8]) -> Option<u64>
    requires { length digits.now ≤ number_width }
    ensures shows { view_option result ≡ C.natural digits.now }
    ensures small { IfSome result (λ n. n < base ^ length digits.now) }
{
    if matches!(digits, [] | [DIGIT_ZERO, _, ..]) {
        return None;
    }
    let mut value = 0;
    for &b in digits {
        if !b.is_ascii_digit() {
            return None;
        }
        value = value * BASE + u64::from(b - DIGIT_ZERO);
    }
    Some(value)
}

fn plain(digits: &[u8]) -> Option<i64>
    requires { length digits.now ≤ number_width }
    ensures { view_option result ≡ C.plain (C.natural digits.now) }
{
    Some(natural(digits)? as i64)
}

// The number after a minus; "-0" is none.
fn negative(digits: &[u8]) -> Option<i64>
    requires { length digits.now ≤ number_width }
    ensures { view_option result ≡ C.negative (C.natural digits.now) }
{
    let n = natural(digits)?;
    (n != 0).then_some(-(n as i64))
}

fn integer(columns: &[u8]) -> Option<i64>
    requires { length columns.now ≤ number_width }
    ensures { view_option result ≡ integer_in columns.now }
{
    match past_spaces(columns) {
        [] => None,
        [MINUS, digits @ ..] => negative(digits),
        digits => plain(digits),
    }
}

// The number in the twelve columns that start at an index.
pub fn number_at(line: &[u8], at: usize) -> Option<i64>
    ensures { view_option result ≡ integer_in (take number_width (drop at line.now)) }
{
    let rest = line.get(at..)?;
    integer(&rest[..NUMBER_WIDTH.min(rest.len())])
}

// The number in the two columns of the call.
pub fn call(line: &[u8]) -> Option<u8>
    ensures { view_option result ≡ call_in line.now }
{
    let columns = line.get(..CALL_WIDTH)?;
    let n = natural(past_spaces(columns))?;
    Some(n as u8)
}
