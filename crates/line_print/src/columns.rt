// A number in its columns, printed into lent bytes; nothing is printed where these are too few.
ghost use Rattle.std.specs.Prelude.{◌≡◌, ◌++◌, ◌+◌, ◌%◌, ◌≤◌, pos, length, drop, take, replicate};
ghost use Rattle.line_format.specs.Bytes.{space, digit_zero, base, call_width, number_width};
ghost use Rattle.line_format.specs.Columns.{before, digits_in, column};
ghost use Rattle.line_print.specs.columns.Printed.{printed};

use line_format::{BASE, CALL_WIDTH, DIGIT_ZERO, MINUS, NUMBER_WIDTH, SPACE};

// The last digit of n.
fn digit(n: u64) -> u8
    ensures { result ≡ digit_zero + n % base }
{
    DIGIT_ZERO + (n % BASE) as u8
}

// The sign before the digits, in the last of w empty columns.
fn sign(negative: bool, w: usize, out: &mut [u8])
    requires { (w ≤ length out.old) × (take w out.old ≡ replicate w space) }
    ensures { out.new ≡ before negative w ++ drop w out.old }
{
    if negative && 0 < w {
        out[w - 1] = MINUS;
    }
}

// A number's columns, filled from the last digit.
fn digits(negative: bool, n: u64, out: &mut [u8])
    ensures { out.new ≡ printed (digits_in negative number_width n) out.old }
{
    if out.len() < NUMBER_WIDTH {
        return;
    }
    out[..NUMBER_WIDTH].fill(SPACE);
    let mut rest = n;
    for i in (0..NUMBER_WIDTH).rev() {
        out[i] = digit(rest);
        if rest < BASE {
            sign(negative, i, out);
            return;
        }
        rest /= BASE;
    }
}

// A number without a sign, as an answer tells it.
pub fn number(n: u64, out: &mut [u8])
    ensures { out.new ≡ printed (column number_width (pos n)) out.old }
{
    digits(false, n, out);
}

// A word that a read shows.
pub fn word(z: i32, out: &mut [u8])
    ensures { out.new ≡ printed (column number_width z) out.old }
{
    digits(z < 0, u64::from(z.unsigned_abs()), out);
}

// A refusal or 0.
pub fn refusal(n: u8, out: &mut [u8])
    ensures { out.new ≡ printed (column call_width (pos n)) out.old }
{
    if out.len() < CALL_WIDTH {
        return;
    }
    let n = u64::from(n);
    out[0] = if n < BASE { SPACE } else { digit(n / BASE) };
    out[1] = digit(n);
}
