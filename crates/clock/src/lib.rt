// The clock: how long a lease lasts, and whether what began at a tick has ended.
#![tactic(auto)]

ghost use Rattle.std.specs.Prelude.{◌≡◌, ◌+◌, leb};

// A lease on a document, and that of the queue.
pub const LEASE_TICKS: u64 = 300;

// What began at tick t and lasts k ticks ends when the clock reaches t + k.
pub fn ended(t: u64, k: u64, clock: u64) -> bool
    ensures { result ≡ leb (t + k) clock }
{
    k <= clock && t <= clock - k
}
