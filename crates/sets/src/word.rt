// Sets of places below 64 in one word: bit p is 1 exactly if place p is in the set.
ghost use Rattle.std.specs.Prelude.{◌≡◌, ◌-◌, ◌<◌, ◌≤◌, min};
ghost use Rattle.sets.specs.Sets as sets;
ghost use Rattle.sets.specs.Sets.{one, all_below, Lowest};

// Is p in s? No word has a place past 63.
pub fn has(s: u64, p: usize) -> bool
    ensures { result ≡ sets.has s p }
{
    if p < 64 { (s >> p) & 1 == 1 } else { false }
}

// s and the place p.
pub fn with(s: u64, p: usize) -> u64
    requires { p < 64 }
    ensures { result ≡ sets.union s (one p) }
{
    s | (1u64 << p)
}

pub fn all_below(n: usize) -> u64
    requires { n ≤ 64 }
    ensures { result ≡ all_below n }
{
    if n < 64 { (1u64 << n) - 1 } else { u64::MAX }
}

// The places below n from `from` on, moved down to 0..63. With saturating_sub and min in place of the branches, the four words of at most 63 groups
// take 44 instructions in place of 13.
pub fn all_below_from(n: usize, from: usize) -> u64
    ensures { result ≡ all_below (min 64 (n - from)) }
{
    if n <= from {
        return 0;
    }
    let left = n - from;
    if left < 64 {
        all_below(left)
    } else {
        all_below(64)
    }
}

// Is every place of a in b?
pub fn within(a: u64, b: u64) -> bool
    ensures { result ≡ sets.within a b }
{
    a & b == a
}

// Have a and b a place in common?
pub fn meets(a: u64, b: u64) -> bool
    ensures { result ≡ sets.meets a b }
{
    a & b != 0
}

pub fn is_empty(s: u64) -> bool
    ensures { result ≡ sets.empty s }
{
    s == 0
}

pub fn union(a: u64, b: u64) -> u64
    ensures { result ≡ sets.union a b }
{
    a | b
}

pub fn intersection(a: u64, b: u64) -> u64
    ensures { result ≡ sets.intersection a b }
{
    a & b
}

// The places of a that are not in b.
pub fn difference(a: u64, b: u64) -> u64
    ensures { result ≡ sets.difference a b }
{
    a - (a & b)
}

// s but for the place p.
pub fn without(s: u64, p: usize) -> u64
    requires { p < 64 }
    ensures { result ≡ sets.difference s (one p) }
{
    difference(s, 1u64 << p)
}

// The lowest place of s; 64 where s is empty.
pub fn first(s: u64) -> usize
    ensures { Lowest 64 s result }
{
    s.trailing_zeros() as usize
}
