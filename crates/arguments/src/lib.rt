// A caller's numbers, any integers, read as what the tables number.
#![tactic(auto)]

pub mod change;
pub mod places;

ghost use Rattle.std.specs.Prelude.{◌≡◌};
ghost use Rattle.arguments.specs.Numbers.{index_of, session_number};

pub const LAST_SESSION: u64 = 4294967295;

// The number where it is below the count.
pub fn index(z: i64, count: u8) -> Option<u8>
    ensures { result ≡ index_of z count }
{
    let n = u8::try_from(z).ok()?;
    (n < count).then_some(n)
}

// A session's number, 0 where no session can have it: a number without a slot needs no test of its own.
pub fn session(z: i64) -> u32
    ensures { result ≡ session_number z }
{
    u32::try_from(z).unwrap_or(0)
}
