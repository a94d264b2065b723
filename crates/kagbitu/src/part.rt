// The bytes of a buffer that are not used yet: of one that was read, those not served, of one that is written, those not taken.
ghost use Rattle.std.specs.Prelude.{◌+◌, ◌≤◌, ◌≡◌, eqb};
ghost use Rattle.kagbitu.specs.Part.{First, Rest};

#[derive(Clone, Copy)]
pub struct Part {
    pub at: usize,
    pub end: usize,
}

impl Part {
    pub fn first(n: usize) -> Self
        ensures { First n result }
    {
        Part { at: 0, end: n }
    }

    pub fn is_empty(self) -> bool
        ensures { result ≡ eqb self.at self.end }
    {
        self.at == self.end
    }

    // The first n of them are used.
    pub fn after(self, n: usize) -> Self
        requires { self.at + n ≤ self.end }
        ensures { Rest n self result }
    {
        Part {
            at: self.at + n,
            end: self.end,
        }
    }
}
