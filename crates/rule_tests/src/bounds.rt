// The bounds of a policy's rules: what each asks of a context, for policies that have a range. A level is one number here, its type the high half.
ghost use Rattle.std.specs.Prelude.{◌≡◌, ℕ, ◌+◌, ◌<◌, true};
ghost use Rattle.words.specs.Lists.{all_below};
ghost use Rattle.format.specs.Layout.{most_levels};
ghost use Rattle.format.specs.Rule.{rule_at, good_rule};
ghost use Rattle.format.specs.Policy.{policy_of};
ghost use Rattle.rule_tests.specs.Shapes.{plain, Narrow};
ghost use Rattle.rule_tests.specs.Bounds.{level_number, level_first, level_span, bound_of, Bounds, reached, pair_fits, bound_fits};

use crate::levels::Levels;
use fields::field::u16_at;
use fields::layout::{
    BLOCK_BYTES, DEPTH_AT, FIXED, LEVEL_BYTES, LEVEL_MARK_AT, LEVEL_TAIL_AT, LEVEL_TYPE_AT,
    LEVEL_VALUE_AT, MOST_LEVELS, MOST_RULES, RANGE,
};
use policy_check::policy::Policy;

// The first numbers of the four levels that a rule asks for, and how far the last ones lie behind them.
#[derive(Clone, Copy, Debug, PartialEq, Eq)]
pub struct Bound {
    pub first: [u32; MOST_LEVELS],
    pub span: [u32; MOST_LEVELS],
}

// The rule has no range.
fn is_plain(b: &[u8; BLOCK_BYTES]) -> bool
    ensures { result ≡ plain (rule_at b.now) }
{
    (0..MOST_LEVELS).all(|l| b[LEVEL_MARK_AT + LEVEL_BYTES * l] != RANGE)
}

// No rule of a policy has a range.
pub fn are_plain(policy: &Policy<'_>) -> bool
    ensures { result ≡ all_below policy.now.rules (λ (i : ℕ). plain ((policy_of policy.now.image.now).rule i)) }
{
    (0..policy.rules).all(|i| is_plain(policy.rule(i)))
}

// The lowest number that a rule asks for at a level.
fn level_first(b: &[u8; BLOCK_BYTES], l: usize) -> u32
    requires { l < most_levels }
    ensures { result ≡ level_first (rule_at b.now) l }
{
    u16_at(b, LEVEL_VALUE_AT + LEVEL_BYTES * l) + 65536 * u16_at(b, LEVEL_TYPE_AT + LEVEL_BYTES * l)
}

// How far behind it the highest one lies.
fn level_span(b: &[u8; BLOCK_BYTES], l: usize) -> u32
    requires { (l < most_levels) × (good_rule (rule_at b.now) ≡ true) }
    ensures { result ≡ level_span (rule_at b.now) l }
{
    let at = LEVEL_BYTES * l;
    if usize::from(b[DEPTH_AT]) <= l {
        return u32::MAX;
    }
    if b[LEVEL_MARK_AT + at] == FIXED {
        return 0;
    }
    if b[LEVEL_MARK_AT + at] == RANGE {
        return u16_at(b, LEVEL_TAIL_AT + at) - u16_at(b, LEVEL_VALUE_AT + at);
    }
    u32::from(u16::MAX)
}

// A number lies no further than a span behind a first one.
fn reaches(number: u32, first: u32, span: u32) -> bool
    ensures { result ≡ reached number first span }
{
    number.wrapping_sub(first) <= span
}

// The word of a context's level as one number that has the type as its high half.
fn level_number(word: u32) -> u32
    ensures { result ≡ level_number word }
{
    word / 65536 + 65536 * (word % 65536)
}

impl Bound {
    // The bounds of the rules that a policy has not.
    pub const NONE: Bound = Bound {
        first: [0; MOST_LEVELS],
        span: [0; MOST_LEVELS],
    };

    // Those of a rule, from its block.
    pub fn of(b: &[u8; BLOCK_BYTES]) -> Bound
        requires { good_rule (rule_at b.now) ≡ true }
        ensures bound { result ≡ bound_of (rule_at b.now) }
        ensures narrow { Narrow (rule_at b.now) }
    {
        Bound {
            first: [
                level_first(b, 0),
                level_first(b, 1),
                level_first(b, 2),
                level_first(b, 3),
            ],
            span: [
                level_span(b, 0),
                level_span(b, 1),
                level_span(b, 2),
                level_span(b, 3),
            ],
        }
    }

    // Two levels of a context, from level l on, lie within those of the rule.
    fn pair_fits(&self, l: usize, pair: u64) -> bool
        requires { l + 1 < most_levels }
        ensures { result ≡ pair_fits self.now l pair }
    {
        let first = level_number((pair % 4294967296) as u32);
        let second = level_number((pair / 4294967296) as u32);
        reaches(first, self.first[l], self.span[l])
            & reaches(second, self.first[l + 1], self.span[l + 1])
    }

    // The levels of a context lie within the bounds.
    pub fn fits(&self, levels: Levels) -> bool
        ensures { result ≡ bound_fits self.now levels }
    {
        self.pair_fits(0, levels.low) & self.pair_fits(2, levels.high)
    }
}

// The bounds of a policy's rules. The array is lent, since one that is returned would be copied.
pub fn bounds_of(policy: &Policy<'_>, out: &mut [Bound; MOST_RULES as usize])
    ensures { Bounds (policy_of policy.now.image.now) policy.now.rules out.new }
{
    for i in 0..policy.rules {
        out[i as usize] = Bound::of(policy.rule(i));
    }
}
