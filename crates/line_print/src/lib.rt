// An answer's line, printed into lent bytes.
#![tactic(auto)]

pub mod columns;
pub mod told;

ghost use Rattle.std.specs.Prelude.{◌≡◌, map, ◌*◌, ◌≤◌, leb, pos, length, take};
ghost use Rattle.line_format.specs.Bytes.{number_width};
ghost use Rattle.line_format.specs.Lines.{columns, answer_line};
ghost use Rattle.line_format.specs.Serving.{ended};
ghost use Rattle.answers.specs.View.{view_answer};
ghost use Rattle.line_print.specs.columns.Printed.{printed};
ghost use Rattle.line_print.specs.told.Told.{number_limit};
ghost use Rattle.line_print.specs.Line.{line_width, line_of, taken};

use answers::{Answer, Refusal};
use field::Field;
use keys::Key;
use line_format::{CALL_WIDTH, NEWLINE, NUMBER_WIDTH};
use told::Told;

// The words of the longest key.
pub const WORDS: usize = Field::WORDS * Key::LIMIT;

// Room for the line of any answer: as many numbers as one tells, the words of the longest key, and byte 10.
pub const LONGEST: usize = CALL_WIDTH + NUMBER_WIDTH * (Told::LIMIT + WORDS) + 1;

// Numbers that are told, each in its columns.
fn print_numbers(numbers: &[u64], out: &mut [u8])
    requires { number_width * length numbers.now ≤ length out.old }
    ensures { out.new ≡ printed (columns (map pos numbers.now)) out.old }
{
    for (i, n) in numbers.iter().enumerate() {
        columns::number(*n, &mut out[NUMBER_WIDTH * i..]);
    }
}

// Words that are shown, each in its columns.
fn print_words(words: &[i32], out: &mut [u8])
    requires { number_width * length words.now ≤ length out.old }
    ensures { out.new ≡ printed (columns words.now) out.old }
{
    for (i, z) in words.iter().enumerate() {
        columns::word(*z, &mut out[NUMBER_WIDTH * i..]);
    }
}

// There is room for a line with so many numbers and words. The division keeps the sum from being too large.
fn has_room(count: usize, n: usize, room: usize) -> bool
    requires { count ≤ number_limit }
    ensures { result ≡ leb (line_width count n) room }
{
    let fixed = CALL_WIDTH + NUMBER_WIDTH * count + 1;
    fixed <= room && n <= (room - fixed) / NUMBER_WIDTH
}

// The line of what is told and of the words; its length.
fn print_line(t: Told, words: &[i32], out: &mut [u8]) -> usize
    requires { (t.count ≤ number_limit) × (line_width t.count (length words.now) ≤ length out.old) }
    ensures prints { out.new ≡ printed (line_of t words.now) out.old }
    ensures takes { result ≡ line_width t.count (length words.now) }
{
    let at = CALL_WIDTH + NUMBER_WIDTH * t.count;
    let end = at + NUMBER_WIDTH * words.len();
    columns::refusal(t.refusal, out);
    print_numbers(&t.numbers[..t.count], &mut out[CALL_WIDTH..]);
    print_words(words, &mut out[at..]);
    out[end] = NEWLINE;
    end + 1
}

// Prints the answer with the first `shown` of a read's words, byte 10 last, and tells how many bytes that takes;
// nothing, and 0, where too few are lent.
pub fn answer(a: Result<Answer, Refusal>, words: &[i32], shown: usize, out: &mut [u8]) -> usize
    ensures prints { out.new ≡ printed (ended (answer_line (view_answer a) (take shown words.now))) out.old }
    ensures takes { result ≡ taken (ended (answer_line (view_answer a) (take shown words.now))) out.old }
{
    let t = Told::of(a);
    let n = told::shown_words(a, words, shown);
    if !has_room(t.count, n, out.len()) {
        return 0;
    }
    print_line(t, &words[..n], out)
}
