// What a request is to the rules of a policy, found in one pass over them. Judging, ending and giving are then operations on sets.
ghost use Rattle.std.specs.Prelude.{◌≡◌, ℕ, Bool};
ghost use Rattle.words.specs.Bytes.{bit};
ghost use Rattle.format.specs.Request.{Request};
ghost use Rattle.format.specs.Policy.{Policy as Rules, policy_of};
ghost use Rattle.matching.specs.Sets.{MatchedIs, EffectIs, judging_in};

use crate::fits::fits;
use crate::steps::{is_last, needs_no_run};
use fields::field::flag;
use fields::layout::REQUEST_BYTES;
use fields::sets::RuleSet;
use policy_check::policy::Policy;

// The rules that the request fits; those of them that judge it whether or not their run place is open; those whose last step it is.
#[derive(Clone, Copy)]
pub struct Matched {
    pub fitting: RuleSet,
    pub starting: RuleSet,
    pub last: RuleSet,
}

// What a grant does to marks: "for each judging rule whose last step this is, clear its mark in that run place. The request gets the marks of the
// other judging rules."
#[derive(Clone, Copy)]
pub struct Effect {
    pub ends: RuleSet,
    pub gives: RuleSet,
}

// One pass over the rules of an accepted policy.
pub fn match_rules(policy: &Policy<'_>, q: &[u8; REQUEST_BYTES]) -> Matched
    ensures { MatchedIs (policy_of policy.now.image.now) q.now result }
{
    let rules = policy.rules;
    let mut fitting = 0u32;
    let mut starting = 0u32;
    let mut last = 0u32;
    for i in 0..rules {
        let b = policy.rule(i);
        let fit = fits(b, q, 0);
        fitting = fitting + flag(fit, i);
        starting = starting + flag(fit & needs_no_run(b, q), i);
        last = last + flag(is_last(b, q), i);
    }
    Matched {
        fitting: RuleSet(fitting),
        starting: RuleSet(starting),
        last: RuleSet(last),
    }
}

impl Matched {
    // "A rule that fits judges if it has no first step, or this is its first step, or its run place has a marked record."
    pub fn judging(self, opened: RuleSet) -> RuleSet
        ensures { (p : Rules) (q : Request) → MatchedIs p q self → result.0 ≡ judging_in p q (λ (i : ℕ). bit i opened.0) }
    {
        self.starting.or(self.fitting.and(opened))
    }

    // What a grant ends and gives, by the rules that judge.
    pub fn effect(self, judging: RuleSet) -> Effect
        ensures { (p : Rules) (q : Request) (open_run : ℕ → Bool) → MatchedIs p q self → judging.0 ≡ judging_in p q open_run → EffectIs p q open_run result }
    {
        Effect {
            ends: judging.and(self.last),
            gives: judging.without(self.last),
        }
    }
}
