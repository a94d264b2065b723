// The session that makes a call: whether it may, and its end.
#![tactic(auto)]

ghost use Rattle.std.specs.Prelude.{◌≡◌, true};
ghost use Rattle.std.proofs.Math.Option.{some};
ghost use Rattle.rules.specs.Values.{nat_of};
ghost use Rattle.rules.specs.Step.{ending};
ghost use Rattle.plant.specs.View.{view_plant, plant_form, kept_plant};
ghost use Rattle.plant.specs.With.{with_sessions};
ghost use Rattle.caller.specs.Standing.{Judges};

use answers::Refusal;
use plant::Plant;
use sessions::Sessions;
use sessions::session::Session;

// Who calls as session n, or the refusal that it meets by conditions 2 and 3. The slot is asked for first, because looking the session up copies
// the table.
pub fn of(sessions: Sessions, n: u32) -> Result<Session, Refusal>
    ensures { Judges sessions n result }
{
    if !sessions.has(n) {
        return Err(Refusal::NoSlot);
    }
    let found = sessions;
    let session = found.session(n);
    if session.is_doomed() {
        return Err(Refusal::WasDoomed);
    }
    Ok(session)
}

// The end of a session: its slot is free, and what it held and changed is gone.
pub fn ended(p: Plant, session: i64) -> Sessions
    ensures shows { kept_plant p ≡ true → view_plant (with_sessions p result) ≡ ending (some (nat_of session)) (view_plant p) }
    ensures form { plant_form p ≡ true → plant_form (with_sessions p result) ≡ true }
{
    let sessions = p.sessions;
    sessions.freed(arguments::session(session))
}
