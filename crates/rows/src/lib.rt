// The store's rows of applied sessions, all of them or those that a sweep removes.
#![tactic(auto)]

ghost use Rattle.std.specs.Prelude.{◌≡◌, true, not, [], length};
ghost use Rattle.rules.specs.Limits.{row_limit};
ghost use Rattle.rules.specs.Lists.{has, keep, pushed};
ghost use Rattle.rows.specs.View.{view_rows, rows_form};

// Rows in the store: the numbers of applied sessions, in the order in which they came to stand.
#[derive(Clone, Copy)]
pub struct Rows {
    pub count: u8,
    pub numbers: [u32; Rows::LIMIT],
}

impl Rows {
    pub const LIMIT: usize = 48;

    pub fn empty() -> Self
        ensures shows { view_rows result ≡ [] }
        ensures form { rows_form result ≡ true }
    {
        Self {
            count: 0,
            numbers: [0; Rows::LIMIT],
        }
    }

    // The numbers in use.
    fn used(&self) -> &[u32]
        ensures { result.now ≡ view_rows self.now }
    {
        lists::used(&self.numbers, self.count)
    }

    pub fn has(self, n: u32) -> bool
        ensures { result ≡ has n (view_rows self) }
    {
        self.used().contains(&n)
    }

    // One more, if there is room.
    pub fn push(mut self, n: u32) -> Self
        ensures shows { view_rows result ≡ pushed row_limit (view_rows self) n }
        ensures form { rows_form self ≡ true → rows_form result ≡ true }
    {
        lists::push(&mut self.numbers, &mut self.count, n);
        self
    }

    pub fn len(self) -> u8
        ensures { result ≡ length (view_rows self) }
    {
        self.used().len() as u8
    }

    // The rows that are not among these.
    pub fn without(mut self, gone: Rows) -> Self
        ensures shows { view_rows result ≡ keep (λ n. not (has n (view_rows gone))) (view_rows self) }
        ensures form { rows_form result ≡ true }
    {
        let gone = gone.used();
        lists::keep(&mut self.numbers, &mut self.count, 0, |n| !gone.contains(n));
        self
    }
}
