// The table of the sessions with a slot, in the order of their numbers.
#![tactic(auto)]

pub mod session;

ghost use Rattle.std.specs.Prelude.{◌≡◌, true, cond, [], ltb, length, take};
ghost use Rattle.rules.specs.Limits.{document_count, slot_limit};
ghost use Rattle.rules.specs.Lists.{any, pushed};
ghost use Rattle.rules.specs.Tables.{has_slot, session, each, freed, others_exclusive};
ghost use Rattle.rules.specs.Effects.{opened, first_doomed, room, only_at, lapse, is_lost};
ghost use Rattle.docset.specs.Sets.{docs};
ghost use Rattle.keys.specs.View.{view_key};
ghost use Rattle.changes.specs.View.{view_update};
ghost use Rattle.changes.specs.Form.{is_used};
ghost use Rattle.sessions.specs.session.View.{view_session, view_slot, within, with_shared_at, grant_at};
ghost use Rattle.sessions.specs.session.Form.{session_form};
ghost use Rattle.sessions.specs.View.{view_sessions};
ghost use Rattle.sessions.specs.Form.{sessions_form};

use changes::Update;
use keys::Key;
use session::Session;

#[derive(Clone, Copy)]
pub struct Sessions {
    pub count: u8,
    pub slots: [Session; Sessions::LIMIT],
}

impl Sessions {
    pub const LIMIT: usize = 8;

    pub fn empty() -> Self
        ensures shows { view_sessions result ≡ [] }
        ensures form { sessions_form result ≡ true }
    {
        Self {
            count: 0,
            slots: [Session::empty(); Self::LIMIT],
        }
    }

    // The slots in use.
    fn used(&self) -> &[Session]
        ensures { result.now ≡ take self.now.count self.now.slots }
    {
        lists::used(&self.slots, self.count)
    }

    pub fn len(&self) -> u8
        ensures { result ≡ length (view_sessions self.now) }
    {
        self.used().len() as u8
    }

    // The number has a slot. By value and by index: a loop of so few turns is unrolled and reads the table where it lies, and a walk of the slots
    // has it copied first.
    pub fn has(self, n: u32) -> bool
        ensures { result ≡ has_slot n (view_sessions self) }
    {
        let end = (self.count as usize).min(Self::LIMIT);
        for i in 0..end {
            if n == self.slots[i].number {
                return true;
            }
        }
        false
    }

    // The session of a number; a number without a slot has the empty one.
    pub fn session(&self, n: u32) -> Session
        ensures shows { view_session result ≡ session n (view_sessions self.now) }
        ensures form { sessions_form self.now ≡ true → session_form result ≡ true }
    {
        match self.used().iter().find(|s| s.is(n)) {
            Some(s) => *s,
            None => Session::empty(),
        }
    }

    // Another session than n holds the document exclusively.
    pub fn others_exclusive(&self, n: u32, d: u8) -> bool
        ensures { result ≡ others_exclusive n d (view_sessions self.now) }
    {
        self.used().iter().any(|s| s.hinders(n, d))
    }

    pub fn any_doomed(&self) -> bool
        ensures { result ≡ any (λ s. s.session.doomed) (view_sessions self.now) }
    {
        self.used().iter().any(|s| s.doomed)
    }

    // The number of the first doomed session, 0 if there is none.
    pub fn first_doomed(&self) -> u32
        ensures { result ≡ first_doomed (view_sessions self.now) }
    {
        self.used()
            .iter()
            .find(|s| s.doomed)
            .map_or(0, |s| s.number)
    }

    // The slot of n is free.
    pub fn freed(mut self, n: u32) -> Self
        ensures shows { view_sessions result ≡ freed n (view_sessions self) }
        ensures form { sessions_form self ≡ true → sessions_form result ≡ true }
    {
        lists::keep(
            &mut self.slots,
            &mut self.count,
            Session::empty(),
            |s| !s.is(n),
        );
        self
    }

    // If every slot is in use, the first doomed session gives way.
    pub fn room(self) -> Self
        ensures shows { view_sessions result ≡ room (view_sessions self) }
        ensures form { sessions_form self ≡ true → sessions_form result ≡ true }
    {
        if (self.count as usize) < Self::LIMIT {
            return self;
        }
        self.freed(self.first_doomed())
    }

    // A new session of a number, in a slot that is free or whose session is doomed: none where there is no such slot.
    pub fn begun(self, number: u32, clock: u64) -> Self
        ensures shows { view_sessions result ≡ pushed slot_limit (room (view_sessions self)) (opened number clock) }
        ensures form { sessions_form self ≡ true → sessions_form result ≡ true }
    {
        let mut t = self.room();
        lists::push(&mut t.slots, &mut t.count, Session::opened(number, clock));
        t
    }

    // After a change of session n: it has the lease and the change, and the other holders are doomed.
    pub fn changed(mut self, n: u32, c: Update, now: u64) -> Self
        ensures shows { view_sessions result ≡ cond (ltb c.place.document document_count) (each (grant_at now n (view_update c)) (view_sessions self)) (view_sessions self) }
        ensures form { is_used c ≡ true → sessions_form self ≡ true → sessions_form result ≡ true }
    {
        let end = (self.count as usize).min(Self::LIMIT);
        // Split and not sliced: a proof knows what is left of both parts, and nothing of a field after a range of it was lent.
        for s in self.slots.split_at_mut(end).0 {
            if s.meets(n, c.place.document) {
                *s = s.grant(n, c, now);
            }
        }
        self
    }

    // After a read of session n: it has shared leases on the documents of the key.
    pub fn shared(mut self, n: u32, key: Key, now: u64) -> Self
        ensures shows { view_sessions result ≡ each (only_at n (with_shared_at now (within (view_key key)))) (view_sessions self) }
        ensures form { sessions_form self ≡ true → sessions_form result ≡ true }
    {
        let end = (self.count as usize).min(Self::LIMIT);
        for s in self.slots.split_at_mut(end).0 {
            if s.is(n) {
                *s = s.share(key, now);
            }
        }
        self
    }

    // When the clock is at a tick: the sessions that lapse are doomed.
    pub fn lapsed(mut self, clock: u64) -> Self
        ensures shows { view_sessions result ≡ each (lapse clock) (view_sessions self) }
        ensures form { sessions_form self ≡ true → sessions_form result ≡ true }
    {
        let end = (self.count as usize).min(Self::LIMIT);
        for s in self.slots.split_at_mut(end).0 {
            if s.lapses(clock) {
                *s = s.doom();
            }
        }
        self
    }

    // The documents that the sessions that lapse hold.
    pub fn lost(&self, clock: u64) -> u64
        ensures { docs result ≡ is_lost clock (view_sessions self.now) }
    {
        let mut set = 0;
        for s in self.used() {
            set = docset::union(set, s.lost(clock));
        }
        set
    }
}
