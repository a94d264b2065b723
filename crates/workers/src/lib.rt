// The workers' tables: the hands, and the lease of the queue.
#![tactic(auto)]

ghost use Rattle.std.specs.Prelude.{◌≡◌, true, false, cond, ltb};
ghost use Rattle.std.proofs.Math.Option.{some};
ghost use Rattle.rules.specs.Limits.{worker_count};
ghost use Rattle.rules.specs.Lists.{override};
ghost use Rattle.rules.specs.Tables.{empty, holds, full, replied, handed, in_hand, any_hand, idle, leased, is_leased, owned_by};
ghost use Rattle.rules.specs.Effects.{lapsed_queue, ended, orphaned};
ghost use Rattle.workers.specs.View.{view_hand, view_hands, owner_of, view_queue};
ghost use Rattle.workers.specs.Form.{hand_form, hands_form, queue_form};

// A worker's hand: the number of the session in it, and whether a reply of done or done before has come.
#[derive(Clone, Copy)]
pub struct Hand {
    pub full: bool,
    pub replied: bool,
    pub number: u32,
}

impl Hand {
    pub fn empty() -> Self
        ensures shows { view_hand result ≡ empty }
        ensures form { hand_form result ≡ true }
    {
        Self {
            full: false,
            replied: false,
            number: 0,
        }
    }

    // A session just taken.
    pub fn holding(number: u32) -> Self
        ensures shows { view_hand result ≡ holds number false }
        ensures form { hand_form result ≡ true }
    {
        Self {
            full: true,
            replied: false,
            number,
        }
    }

    // The number of the session in it, 0 if it is empty.
    pub fn handed(self) -> u32
        ensures { result ≡ handed (view_hand self) }
    {
        if self.full { self.number } else { 0 }
    }

    pub fn is_full(self) -> bool
        ensures { result ≡ full (view_hand self) }
    {
        self.full
    }

    pub fn is_replied(self) -> bool
        ensures { result ≡ replied (view_hand self) }
    {
        self.full && self.replied
    }

    pub fn holds(self, n: u32) -> bool
        ensures { result ≡ in_hand n (view_hand self) }
    {
        self.full && n == self.number
    }

    // The same session after a reply.
    pub fn answered(self) -> Self
        ensures shows { view_hand result ≡ holds (handed (view_hand self)) true }
        ensures form { hand_form result ≡ true }
    {
        Self {
            full: true,
            replied: true,
            number: self.handed(),
        }
    }
}

// The lease of the queue: since when, and in whose name, if in anybody's.
#[derive(Clone, Copy)]
pub struct Queue {
    pub live: bool,
    pub owned: bool,
    pub owner: u8,
    pub since: u64,
}

impl Queue {
    pub fn empty() -> Self
        ensures shows { view_queue result ≡ idle }
        ensures form { queue_form result ≡ true }
    {
        Self {
            live: false,
            owned: false,
            owner: 0,
            since: 0,
        }
    }

    pub fn taken(worker: u8, now: u64) -> Self
        ensures shows { view_queue result ≡ leased (some worker) now }
        ensures form { queue_form result ≡ true }
    {
        Self {
            live: true,
            owned: true,
            owner: worker,
            since: now,
        }
    }

    pub fn is_leased(self) -> bool
        ensures { result ≡ is_leased (view_queue self) }
    {
        self.live
    }

    // None left when the clock reaches its end.
    pub fn lapsed(self, clock: u64) -> Self
        ensures shows { view_queue result ≡ lapsed_queue clock (view_queue self) }
        ensures form { queue_form self ≡ true → queue_form result ≡ true }
    {
        if clock::ended(self.since, clock::LEASE_TICKS, clock) {
            Self::empty()
        } else {
            self
        }
    }

    fn is_owned_by(self, worker: u8) -> bool
        ensures { result ≡ owned_by worker (owner_of self) }
    {
        self.owned && worker == self.owner
    }

    // A lease in the worker's name ends.
    pub fn ended(self, worker: u8) -> Self
        ensures shows { view_queue result ≡ ended worker (view_queue self) }
        ensures form { queue_form self ≡ true → queue_form result ≡ true }
    {
        if !self.is_owned_by(worker) {
            return self;
        }
        Self::empty()
    }

    // Or it runs on in nobody's name.
    pub fn orphaned(mut self, worker: u8) -> Self
        ensures shows { view_queue result ≡ orphaned worker (view_queue self) }
        ensures form { queue_form self ≡ true → queue_form result ≡ true }
    {
        if self.is_owned_by(worker) {
            self.owned = false;
            self.owner = 0;
        }
        self
    }
}

// The hands of the four workers.
#[derive(Clone, Copy)]
pub struct Hands {
    pub all: [Hand; Hands::LIMIT],
}

impl Hands {
    pub const LIMIT: usize = 4;

    pub fn empty() -> Self
        ensures shows { view_hands result ≡ (λ w. empty) }
        ensures form { hands_form result ≡ true }
    {
        Self {
            all: [Hand::empty(); Self::LIMIT],
        }
    }

    pub fn hand(self, worker: u8) -> Hand
        ensures shows { view_hand result ≡ view_hands self worker }
        ensures form { hands_form self ≡ true → hand_form result ≡ true }
    {
        match self.all.get(worker as usize) {
            Some(h) => *h,
            None => Hand::empty(),
        }
    }

    // Another hand of a worker, if there is such a worker.
    pub fn with(mut self, worker: u8, h: Hand) -> Self
        ensures shows { view_hands result ≡ cond (ltb worker worker_count) (override (view_hands self) worker (view_hand h)) (view_hands self) }
        ensures form { hands_form self ≡ true → hand_form h ≡ true → hands_form result ≡ true }
    {
        let at = worker as usize;
        if at < Self::LIMIT {
            self.all[at] = h;
        }
        self
    }

    // Some hand holds the session.
    pub fn any_holds(self, n: u32) -> bool
        ensures { result ≡ any_hand (view_hands self) n }
    {
        self.all.iter().any(|h| h.holds(n))
    }
}
