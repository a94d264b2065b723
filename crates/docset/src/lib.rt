// Sets of documents, each a number whose binary digit d says whether document d is in the set.
#![tactic(auto)]

ghost use Rattle.std.specs.Prelude.{◌≡◌, false, ◌&&◌, ◌||◌, leb, ltb, get_or};
ghost use Rattle.rules.specs.Lists.{any, from, override};
ghost use Rattle.rules.specs.Limits.{document_count};
ghost use Rattle.rules.specs.Tables.{documents};
ghost use Rattle.rules.specs.Step.{count};
ghost use Rattle.docset.specs.Sets.{docs};

// How many documents there are.
pub const DOCUMENTS: u8 = 64;

// Is document d in the set? No set holds one past the last.
pub fn has(set: u64, d: u8) -> bool
    ensures { result ≡ docs set d }
{
    d < DOCUMENTS && (set >> d) % 2 == 1
}

// The set with document d, if there is such a document.
pub fn with(set: u64, d: u8) -> u64
    ensures { docs result ≡ override (docs set) d (ltb d document_count) }
{
    if d < DOCUMENTS { set | (1 << d) } else { set }
}

// The set without document d.
pub fn without(set: u64, d: u8) -> u64
    ensures { docs result ≡ override (docs set) d false }
{
    if has(set, d) { set ^ (1 << d) } else { set }
}

// The documents of either set.
pub fn union(a: u64, b: u64) -> u64
    ensures { docs result ≡ (λ d. docs a d || docs b d) }
{
    a | b
}

// How many documents the set holds.
pub fn count(set: u64) -> u8
    ensures { result ≡ count (docs set) documents }
{
    set.count_ones() as u8
}

// The lowest document of the set, or their number if it is empty.
pub fn lowest(set: u64) -> u8
    ensures { result ≡ from (docs set) (λ d. d) document_count documents }
{
    set.trailing_zeros() as u8
}

// Has a document of the set a tick of at most limit?
pub fn any_over(set: u64, ticks: [u16; DOCUMENTS as usize], limit: u64) -> bool
    ensures { result ≡ any (λ d. docs set d && leb (get_or ticks d 0) limit) documents }
{
    let mut rest = set;
    // One turn for each document of the set, the lowest first.
    while rest != 0 {
        let d = lowest(rest);
        if ticks[d as usize] as u64 <= limit {
            return true;
        }
        rest = without(rest, d);
    }
    false
}
