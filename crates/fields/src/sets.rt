// Sets of roles and sets of rules, each as the bits of a number. They are different types: one passed for the other does not build.
ghost use Rattle.std.specs.Prelude.{◌≡◌, ◌-◌, ◌^◌, ◌<◌, ◌≤◌, eqb, ltb};
ghost use Rattle.std.specs.Int.Bits.{bit_and, bit_or};
ghost use Rattle.words.specs.Bytes.{bit as bit_of};

use crate::field::{bit, without};
use crate::number::Role;

// A set of roles: "role k is bit k - 1".
#[derive(Clone, Copy, Debug, PartialEq, Eq)]
pub struct Roles(pub u32);

impl Roles {
    // The role is among them.
    pub fn has(self, role: Role) -> bool
        requires { (1 ≤ role.0) × (role.0 ≤ 32) }
        ensures { result ≡ bit_of (role.0 - 1) self.0 }
    {
        bit(self.0, role.0 - 1)
    }

    // Those of both.
    pub fn or(self, others: Roles) -> Self
        ensures { result.0 ≡ bit_or self.0 others.0 }
    {
        Roles(self.0 | others.0)
    }
}

// A set of rules: "rule r at bit r - 1", so that the rule of index i, from 0, is bit i. A record's marks are one.
#[derive(Clone, Copy, Debug, PartialEq, Eq)]
pub struct RuleSet(pub u32);

impl RuleSet {
    // The rule of an index is among them.
    pub fn has(self, i: u32) -> bool
        requires { i < 32 }
        ensures { result ≡ bit_of i self.0 }
    {
        bit(self.0, i)
    }

    // None of them has this index or a higher one.
    pub fn none_from(self, i: u32) -> bool
        requires { i ≤ 32 }
        ensures { result ≡ ltb self.0 (2 ^ i) }
    {
        (self.0 as u64) < 1u64 << i
    }

    // There is none.
    pub fn is_empty(self) -> bool
        ensures { result ≡ eqb self.0 0 }
    {
        self.0 == 0
    }

    // Those that are in both.
    pub fn and(self, others: RuleSet) -> Self
        ensures { result.0 ≡ bit_and self.0 others.0 }
    {
        RuleSet(self.0 & others.0)
    }

    // Those of either.
    pub fn or(self, others: RuleSet) -> Self
        ensures { result.0 ≡ bit_or self.0 others.0 }
    {
        RuleSet(self.0 | others.0)
    }

    // Those that are not among the others.
    pub fn without(self, others: RuleSet) -> Self
        ensures { result.0 ≡ self.0 - bit_and self.0 others.0 }
    {
        RuleSet(without(self.0, others.0))
    }
}
