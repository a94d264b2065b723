// A session with a slot: its leases as two sets of documents, the tick of each grant since its begin, and its changes.
ghost use Rattle.std.specs.Prelude.{◌≡◌, true, not, cond, ◌&&◌, ◌||◌, ◌+◌, eqb, ltb};
ghost use Rattle.rules.specs.Limits.{document_count};
ghost use Rattle.rules.specs.Lists.{any};
ghost use Rattle.rules.specs.Tables.{is_held, is_exclusive, has_lapsed, documents, doomed_session, remade};
ghost use Rattle.rules.specs.Effects.{opened, with_exclusive, with_last, lapses, loses};
ghost use Rattle.rules.specs.Step.{count, held_shared, held_exclusive};
ghost use Rattle.docset.specs.Sets.{docs};
ghost use Rattle.keys.specs.View.{view_key};
ghost use Rattle.changes.specs.View.{view_update};
ghost use Rattle.changes.specs.Form.{is_used};
ghost use Rattle.sessions.specs.session.View.{view_session, view_slot, within, since, with_shared_one, with_shared_at, grant_at};
ghost use Rattle.sessions.specs.session.Form.{session_form, is_bare, is_unused};

use changes::{Changes, Update};
use keys::Key;

// How many ticks after the begin a grant at now comes, as far as one is kept.
fn since(begun: u64, now: u64) -> u16
    ensures { result ≡ since begun now }
{
    now.saturating_sub(begun).min(Session::LAST_GRANT as u64) as u16
}

#[derive(Clone, Copy)]
pub struct Session {
    pub number: u32,
    pub begun: u64,
    pub doomed: bool,
    pub shared: u64,
    pub exclusive: u64,
    pub granted: [u16; Session::DOCUMENTS],
    pub changes: Changes,
}

impl Session {
    pub const DOCUMENTS: usize = docset::DOCUMENTS as usize;

    pub const LIFE_TICKS: u64 = 1000;

    // The last tick after the begin that is kept of a grant: no session lives so long.
    pub const LAST_GRANT: u16 = 65535;

    // Doomed, without leases and changes: what is left of a session, or of none.
    fn bare(number: u32) -> Self
        ensures shows { view_slot result ≡ record { number = number; session = doomed_session } }
        ensures form { is_bare result ≡ true }
    {
        Self {
            number,
            begun: 0,
            doomed: true,
            shared: 0,
            exclusive: 0,
            granted: [0; Self::DOCUMENTS],
            changes: Changes::empty(),
        }
    }

    // What a slot that is not in use holds, and what is found for a number without a slot.
    pub fn empty() -> Self
        ensures shows { view_session result ≡ doomed_session }
        ensures form { is_unused result ≡ true }
    {
        Self::bare(0)
    }

    pub fn opened(number: u32, clock: u64) -> Self
        ensures shows { view_slot result ≡ opened number clock }
        ensures form { session_form result ≡ true }
    {
        Self {
            number,
            begun: clock,
            doomed: false,
            shared: 0,
            exclusive: 0,
            granted: [0; Self::DOCUMENTS],
            changes: Changes::empty(),
        }
    }

    // Its leases and changes are gone.
    pub fn doom(self) -> Self
        ensures shows { view_slot result ≡ remade (λ n s. doomed_session) (view_slot self) }
        ensures form { session_form result ≡ true }
    {
        Self::bare(self.number)
    }

    pub fn is(&self, n: u32) -> bool
        ensures { result ≡ eqb n (view_slot self.now).number }
    {
        n == self.number
    }

    pub fn is_doomed(&self) -> bool
        ensures { result ≡ (view_slot self.now).session.doomed }
    {
        self.doomed
    }

    pub fn holds(&self, d: u8) -> bool
        ensures { result ≡ is_held ((view_session self.now).lease d) }
    {
        docset::has(self.held(), d)
    }

    pub fn holds_exclusive(&self, d: u8) -> bool
        ensures { result ≡ is_exclusive ((view_session self.now).lease d) }
    {
        docset::has(self.exclusive, d)
    }

    // Another session than n that holds a document exclusively.
    pub fn hinders(&self, n: u32, d: u8) -> bool
        ensures { result ≡ not (eqb n (view_slot self.now).number) && is_exclusive ((view_slot self.now).session.lease d) }
    {
        !self.is(n) && self.holds_exclusive(d)
    }

    // The documents that it holds.
    pub fn held(&self) -> u64
        ensures { docs result ≡ (λ d. is_held ((view_session self.now).lease d)) }
    {
        docset::union(self.shared, self.exclusive)
    }

    pub fn exclusive_count(&self) -> u8
        ensures { result ≡ count (held_exclusive (view_session self.now)) documents }
    {
        docset::count(self.exclusive)
    }

    // All that it holds but for what it holds exclusively.
    pub fn shared_count(&self) -> u8
        ensures { result ≡ count (held_shared (view_session self.now)) documents }
    {
        docset::count(self.held()) - self.exclusive_count()
    }

    // A shared lease on a document, unless it is held, granted some ticks after the begin.
    fn with_shared(mut self, d: u8, ticks: u16) -> Self
        ensures shows { view_slot result ≡ remade (λ n s. with_shared_one (s.begun + ticks) d s) (view_slot self) }
        ensures form { session_form self ≡ true → session_form result ≡ true }
    {
        let at = d as usize;
        if at < Self::DOCUMENTS && !self.holds(d) {
            self.shared = docset::with(self.shared, d);
            self.granted[at] = ticks;
        }
        self
    }

    // Shared leases on the documents of a key.
    pub fn share(mut self, key: Key, now: u64) -> Self
        ensures shows { view_slot result ≡ remade (λ n. with_shared_at now (within (view_key key))) (view_slot self) }
        ensures form { session_form self ≡ true → session_form result ≡ true }
    {
        let ticks = since(self.begun, now);
        for q in key.shown() {
            self = self.with_shared(q.document, ticks);
        }
        self
    }

    // An exclusive lease on a document; one that is held exclusively keeps its grant.
    fn with_exclusive(mut self, d: u8, ticks: u16) -> Self
        ensures shows { view_slot result ≡ cond (ltb d document_count) (remade (λ n s. with_exclusive (s.begun + ticks) d s) (view_slot self)) (view_slot self) }
        ensures form { session_form self ≡ true → session_form result ≡ true }
    {
        let at = d as usize;
        if at < Self::DOCUMENTS && !docset::has(self.exclusive, d) {
            self.shared = docset::without(self.shared, d);
            self.exclusive = docset::with(self.exclusive, d);
            self.granted[at] = ticks;
        }
        self
    }

    // The change last, if there is room.
    pub fn with_last(mut self, c: Update) -> Self
        ensures shows { view_slot result ≡ remade (λ n. with_last (view_update c)) (view_slot self) }
        ensures form { is_used c ≡ true → session_form self ≡ true → session_form result ≡ true }
    {
        self.changes = self.changes.push(c);
        self
    }

    // A change of session n in a document does something to it: it is n, or holds the document.
    pub fn meets(&self, n: u32, d: u8) -> bool
        ensures { result ≡ eqb (view_slot self.now).number n || is_held ((view_session self.now).lease d) }
    {
        self.number == n || self.holds(d)
    }

    // What a change of session n does to a session: n gets the lease and the change, another holder is doomed.
    pub fn grant(self, n: u32, c: Update, now: u64) -> Self
        ensures shows { view_slot result ≡ cond (ltb c.place.document document_count) (remade (grant_at now n (view_update c)) (view_slot self)) (view_slot self) }
        ensures form { is_used c ≡ true → session_form self ≡ true → session_form result ≡ true }
    {
        let d = c.place.document;
        if Self::DOCUMENTS <= d as usize {
            return self;
        }
        if self.number == n {
            let ticks = since(self.begun, now);
            return self.with_exclusive(d, ticks).with_last(c);
        }
        if self.holds(d) {
            return self.doom();
        }
        self
    }

    // A lease of it has lapsed.
    fn any_lapsed(&self, clock: u64) -> bool
        ensures { result ≡ any (λ d. has_lapsed clock ((view_session self.now).lease d)) documents }
    {
        clock::ended(self.begun, clock::LEASE_TICKS, clock)
            && docset::any_over(
                self.held(),
                self.granted,
                clock - self.begun - clock::LEASE_TICKS,
            )
    }

    // A lease of it lapses, or its own life.
    pub fn lapses(&self, clock: u64) -> bool
        ensures { result ≡ lapses clock (view_session self.now) }
    {
        !self.doomed
            && (clock::ended(self.begun, Self::LIFE_TICKS, clock) || self.any_lapsed(clock))
    }

    // The documents that it holds, if it lapses.
    pub fn lost(&self, clock: u64) -> u64
        ensures { docs result ≡ loses clock (view_slot self.now) }
    {
        if self.lapses(clock) { self.held() } else { 0 }
    }
}
