// A set as the bits of a word: "cart c has weight 2^c". Sets of stations, of rooms and of free rows are the same, so a member here is a bare number.
#![tactic(auto)]

ghost use Rattle.std.specs.Prelude.{◌≡◌, true, cond, ℕ, ◌<◌, ◌≤◌};
ghost use Rattle.std.proofs.Math.Option.{some};
ghost use Rattle.protocol.specs.CartSets.{has, union, minus, with, without, set_of};
ghost use Rattle.sets.specs.Masks.{within, disjoint, least, size};
ghost use Rattle.sets.specs.Walks.{GivesLeast};
ghost use Rattle.std.specs.Iterator.{at_most};

// Is the member in the set?
pub fn has(set: u64, member: u64) -> bool
    requires { member < 64 }
    ensures { result ≡ has set member }
{
    (set >> member) & 1 == 1
}

// Those in either set.
pub fn union(a: u64, b: u64) -> u64
    ensures { result ≡ union a b }
{
    a | b
}

// Those in `a` that are not in `b`.
pub fn minus(a: u64, b: u64) -> u64
    ensures { result ≡ minus a b }
{
    a ^ (a & b)
}

// The set and the member.
pub fn with_member(set: u64, member: u64) -> u64
    requires { member < 64 }
    ensures { result ≡ with set member }
{
    union(set, 1 << member)
}

// The set, and the member if it joins. Both are at hand, so that nothing has to be guessed.
pub fn with_if(set: u64, member: u64, joins: bool) -> u64
    requires { member < 64 }
    ensures { result ≡ cond joins (with set member) set }
{
    if joins { with_member(set, member) } else { set }
}

// The set but for the member.
pub fn without_member(set: u64, member: u64) -> u64
    requires { member < 64 }
    ensures { result ≡ without set member }
{
    minus(set, 1 << member)
}

// Is every one of `a` in `b`?
pub fn is_within(a: u64, b: u64) -> bool
    ensures { result ≡ within 64 a b }
{
    minus(a, b) == 0
}

// Have the sets none in common?
pub fn is_disjoint(a: u64, b: u64) -> bool
    ensures { result ≡ disjoint 64 a b }
{
    minus(a, b) == a
}

// The least one of a set that is not empty.
pub fn first(set: u64) -> u64
    requires { 0 < set }
    ensures { least 64 set ≡ some result }
{
    u64::trailing_zeros(set) as u64
}

// The set but for its least one, in one step, so that a walk over a set need not wait for the name of each.
pub fn without_first(set: u64) -> u64
    requires { 0 < set }
    ensures { (c : ℕ) → least 64 set ≡ some c → result ≡ without set c }
{
    set & (set - 1)
}

// How many are in the set.
pub fn count(set: u64) -> u64
    ensures { result ≡ size 64 set }
{
    u64::count_ones(set) as u64
}

// All of the first `n`.
pub fn all_below(n: u64) -> u64
    requires { n ≤ 64 }
    ensures { result ≡ set_of n (λ _. true) }
{
    if n < 64 { (1 << n) - 1 } else { u64::MAX }
}

// The members of a set that are still to come, from the least one on.
#[derive(Clone, Copy, Debug, PartialEq, Eq)]
pub struct Members {
    pub left: u64,
}

// A walk over a set, from its least member on: whoever has nothing to do at a number that is not in the set may as well walk.
pub fn members_of(set: u64) -> Members
    ensures { result ≡ record { left = set } }
{
    Members { left: set }
}

impl Iterator for Members {
    type Item = u64;

    ghost next_gives = { GivesLeast };

    ghost remaining = { λ s. at_most s.left };

    fn next(&mut self) -> Option<u64> {
        if self.left == 0 {
            return None;
        }
        let least = first(self.left);
        self.left = without_first(self.left);
        Some(least)
    }
}
