// The line format: its bytes and widths, each by the name that it has in `specs/Bytes`; the definitions are in `specs/`.
#![tactic(auto)]

pub const NEWLINE: u8 = 10;

pub const SPACE: u8 = 32;

pub const MINUS: u8 = 45;

// The digits '0' to '9'.
pub const DIGIT_ZERO: u8 = 48;

pub const DIGIT_NINE: u8 = 57;

pub const BASE: u64 = 10;

// Columns of the call, and of a refusal or 0.
pub const CALL_WIDTH: usize = 2;

// Columns of every other number.
pub const NUMBER_WIDTH: usize = 12;

// Numbers of the call that has most, map.
pub const MOST_NUMBERS: usize = 10;

// Bytes of a line that tell what it says: those of the longest line in form, and one more, which tells that a line is too long.
pub const LINE_LIMIT: usize = CALL_WIDTH + MOST_NUMBERS * NUMBER_WIDTH + 1;
