// The bytes kept of a line that is not ended yet, and the end of a line in a piece of input.
#![tactic(auto)]

ghost use Rattle.std.specs.Prelude.{◌≡◌, true, [], ◌++◌, take};
ghost use Rattle.rules.specs.Lists.{is_empty};
ghost use Rattle.line_format.specs.Bytes.{line_limit};
ghost use Rattle.line_pending.specs.View.{view_pending, pending_form, end_from, between};

// The first bytes of a line: one more than the longest line in form has, which tells that a line is too long.
#[derive(Clone, Copy)]
pub struct Pending {
    pub line: [u8; Pending::LIMIT],
    pub len: u8,
}

impl Pending {
    pub const LIMIT: usize = line_format::LINE_LIMIT;

    pub fn empty() -> Self
        ensures shows { view_pending result ≡ [] }
        ensures form { pending_form result ≡ true }
    {
        Self {
            line: [0; Pending::LIMIT],
            len: 0,
        }
    }

    pub fn is_empty(self) -> bool
        ensures { result ≡ is_empty (view_pending self) }
    {
        self.len == 0
    }

    // The bytes of a piece from one position up to another put last, as far as there is room.
    pub fn add(mut self, piece: &[u8], from: usize, to: usize) -> Self
        ensures shows { view_pending result ≡ take line_limit (view_pending self ++ between from to piece.now) }
        ensures form { pending_form result ≡ true }
    {
        let new = piece.get(from..to.min(piece.len())).unwrap_or(&[]);
        let at = (self.len as usize).min(Pending::LIMIT);
        let n = new.len().min(Pending::LIMIT - at);
        self.line[at..at + n].copy_from_slice(&new[..n]);
        self.len = (at + n) as u8;
        self
    }
}

// The position of the first byte 10 at or after a position, or the length of the piece where there is none.
pub fn line_end(piece: &[u8], from: usize) -> usize
    ensures { result ≡ end_from from piece.now }
{
    let rest = piece.get(from..).unwrap_or(&[]);
    match rest.iter().position(|&b| b == line_format::NEWLINE) {
        Some(n) => from + n,
        None => piece.len(),
    }
}
