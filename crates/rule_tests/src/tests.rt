// What the check of a table has of a policy's rules, made once a call.
ghost use Rattle.format.specs.Policy.{policy_of};
ghost use Rattle.rule_tests.specs.Tests.{Made};

use crate::bounds::Bound;
use crate::shapes::Shape;
use fields::layout::MOST_RULES;
use policy_check::policy::Policy;

// The bounds of all rules if one of them has a range, and else their shapes, which are tested sooner. The arrays are lent: a struct that had them would be
// copied with them.
#[derive(Clone, Copy)]
pub enum By<'a> {
    Shapes(&'a [Shape; MOST_RULES as usize]),
    Bounds(&'a [Bound; MOST_RULES as usize]),
}

// A policy, and by what its rules are tested.
#[derive(Clone, Copy)]
pub struct Tests<'a> {
    pub policy: Policy<'a>,
    pub by: By<'a>,
    pub ghost made: { ∥ Made (policy_of policy.image.now) policy.rules by ∥₁ },
}
