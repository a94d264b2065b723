// What a call answers: what it tells, or the refusal that it meets, as `Result<Answer, Refusal>`. `number` has the paper's numbers of refusals,
// marks and replies.
#![tactic(auto)]

ghost use Rattle.std.specs.Prelude.{◌≡◌};
ghost use Rattle.rules.specs.Refusals.{refusal_number, ends_session};
ghost use Rattle.rules.specs.Calls.{mark_number, reply_number};
ghost use Rattle.field.specs.View.{view_misfit};
ghost use Rattle.answers.specs.View.{view_refusal, view_mark, view_reply};

use field::Misfit;

#[derive(Clone, Copy)]
pub enum Refusal {
    OutOfRange = 1,
    NoSlot = 2,
    WasDoomed = 3,
    ExclusiveElsewhere = 4,
    ChangesFull = 5,
    WrongKind = 6,
    SeventhMember = 7,
    SumTooLarge = 8,
    KeyUndefined = 9,
    SlotsFull = 10,
    NumbersSpent = 11,
    SessionBegun = 12,
    KeyDefined = 13,
    BadPlaces = 14,
    BufferFull = 15,
    QueueLeased = 16,
    WrongHand = 17,
    NothingBuffered = 18,
    RowsFull = 19,
    StoreAway = 20,
    ClockEnd = 21,
    FewWords = 22,
    BadLine = 23,
}

// Where a read's fields came from: the cache; worked out and cached now; worked out, with a change of the session's own.
#[derive(Clone, Copy)]
pub enum Mark {
    FromCache = 0,
    CachedNow = 1,
    OwnChange = 2,
}

// What a worker hears of its apply.
#[derive(Clone, Copy)]
pub enum Reply {
    NoWord = 0,
    Done = 1,
    DoneBefore = 2,
}

// What a call that is accepted tells.
#[derive(Clone, Copy)]
pub enum Answer {
    // load, map, abandon, cut, store
    Done,
    // the new session's number
    Begun(u32),
    Read(Mark),
    // the changes that the session has now
    Changed(u8),
    // the sessions that are buffered now
    Committed(u8),
    // the clock's tick
    Advanced(u64),
    // the number of the session in the worker's hand
    Taken(u32),
    Applied(Reply),
    // whether the session was still buffered
    Deleted(bool),
    // the rows that were removed
    Swept(u8),
    // the documents held shared, those held exclusively, the changes
    Reported(u8, u8, u8),
}

impl Refusal {
    pub fn number(self) -> u8
        ensures { result ≡ refusal_number (view_refusal self) }
    {
        self as u8
    }

    // The session that met it ends.
    pub fn ends_session(self) -> bool
        ensures { result ≡ ends_session (view_refusal self) }
    {
        matches!(self, Refusal::WasDoomed | Refusal::ExclusiveElsewhere)
    }
}

impl From<Misfit> for Refusal {
    ghost from_gives = { λ m r. view_refusal r ≡ view_misfit m };

    fn from(misfit: Misfit) -> Self {
        match misfit {
            Misfit::WrongKind => Refusal::WrongKind,
            Misfit::SeventhMember => Refusal::SeventhMember,
            Misfit::SumTooLarge => Refusal::SumTooLarge,
        }
    }
}

impl Mark {
    pub fn number(self) -> u8
        ensures { result ≡ mark_number (view_mark self) }
    {
        self as u8
    }
}

impl Reply {
    pub fn number(self) -> u8
        ensures { result ≡ reply_number (view_reply self) }
    {
        self as u8
    }
}
