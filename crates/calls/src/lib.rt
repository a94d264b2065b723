// The fifteen calls as values, with their arguments in the paper's order; any numbers. `specs/View` says which call of the rules each is.
// And calls one after the other, as a list.
#![tactic(auto)]

ghost use Rattle.std.specs.Prelude.{◌≡◌, [], length};
ghost use Rattle.rules.specs.Lists.{pushed};
ghost use Rattle.calls.specs.View.{view_calls, list_limit};

#[derive(Clone, Copy)]
pub enum Call {
    // document, field, change, value
    Load(i64, i64, i64, i64),
    // key, count, four pairs of document and field
    Map(i64, i64, i64, i64, i64, i64, i64, i64, i64, i64),
    Begin,
    // session, key
    Read(i64, i64),
    // session, document, field, change, value
    Change(i64, i64, i64, i64, i64),
    // session
    Commit(i64),
    // session
    Abandon(i64),
    // ticks
    Advance(i64),
    // worker
    Take(i64),
    // worker, fate
    Apply(i64, i64),
    // worker
    Delete(i64),
    // worker
    Cut(i64),
    Sweep,
    // 1 near, 0 away
    Store(i64),
    // session
    Report(i64),
}

// Calls one after the other: the first `count`.
#[derive(Clone, Copy)]
pub struct Calls {
    pub items: [Call; Calls::LIMIT],
    pub count: u8,
}

impl Calls {
    pub const LIMIT: usize = 128;

    pub fn none() -> Self
        ensures shows { view_calls result ≡ [] }
        ensures entries { (length result.items ≡ list_limit) × (result.count ≡ 0) }
    {
        Self {
            items: [Call::Begin; Calls::LIMIT],
            count: 0,
        }
    }

    // How many there are.
    pub fn len(self) -> usize
        ensures { result ≡ length (view_calls self) }
    {
        (self.count as usize).min(Calls::LIMIT)
    }

    // One more, if there is room.
    pub fn push(self, c: Call) -> Self
        ensures { view_calls result ≡ pushed list_limit (view_calls self) c }
    {
        let mut calls = self;
        lists::push(&mut calls.items, &mut calls.count, c);
        calls
    }
}
