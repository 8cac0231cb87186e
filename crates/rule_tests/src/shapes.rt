// The shapes of a policy's rules: what each asks of a context, prepared once for all the records of a table.
ghost use Rattle.std.specs.Prelude.{◌≡◌, ◌<◌};
ghost use Rattle.format.specs.Layout.{most_levels};
ghost use Rattle.format.specs.Rule.{rule_at};
ghost use Rattle.format.specs.Policy.{policy_of};
ghost use Rattle.rule_tests.specs.Shapes.{level_want, level_mask, shape_of, Narrow, Shapes, shape_fits};

use crate::levels::{Levels, paired};
use fields::field::u16_at;
use fields::layout::{
    BLOCK_BYTES, DEPTH_AT, FIXED, LEVEL_BYTES, LEVEL_MARK_AT, LEVEL_TYPE_AT, LEVEL_VALUE_AT,
    MOST_RULES,
};
use policy_check::policy::Policy;

// The levels that a rule wants, and the bits of them that it asks.
#[derive(Clone, Copy, Debug, PartialEq, Eq)]
pub struct Shape {
    pub want: Levels,
    pub mask: Levels,
}

// What a rule wants of the word of a context's level.
fn level_want(b: &[u8; BLOCK_BYTES], l: usize) -> u32
    requires { l < most_levels }
    ensures { result ≡ level_want (rule_at b.now) l }
{
    u16_at(b, LEVEL_TYPE_AT + LEVEL_BYTES * l) + 65536 * u16_at(b, LEVEL_VALUE_AT + LEVEL_BYTES * l)
}

// The bits of that word which the rule asks.
fn level_mask(b: &[u8; BLOCK_BYTES], l: usize) -> u32
    requires { l < most_levels }
    ensures { result ≡ level_mask (rule_at b.now) l }
{
    if usize::from(b[DEPTH_AT]) <= l {
        return 0;
    }
    if b[LEVEL_MARK_AT + LEVEL_BYTES * l] == FIXED {
        return u32::MAX;
    }
    u32::from(u16::MAX)
}

impl Shape {
    // The shape of the rules that a policy has not.
    pub const NONE: Shape = Shape {
        want: Levels { low: 0, high: 0 },
        mask: Levels { low: 0, high: 0 },
    };

    // That of a rule, from its block.
    pub fn of(b: &[u8; BLOCK_BYTES]) -> Shape
        ensures shape { result ≡ shape_of (rule_at b.now) }
        ensures narrow { Narrow (rule_at b.now) }
    {
        Shape {
            want: Levels {
                low: paired(level_want(b, 0), level_want(b, 1)),
                high: paired(level_want(b, 2), level_want(b, 3)),
            },
            mask: Levels {
                low: paired(level_mask(b, 0), level_mask(b, 1)),
                high: paired(level_mask(b, 2), level_mask(b, 3)),
            },
        }
    }

    // The levels of a context are as the shape wants them.
    pub fn fits(&self, levels: Levels) -> bool
        ensures { result ≡ shape_fits self.now levels }
    {
        (levels.low & self.mask.low == self.want.low)
            & (levels.high & self.mask.high == self.want.high)
    }
}

// The shapes of a policy's rules. The array is lent, since one that is returned would be copied.
pub fn shapes_of(policy: &Policy<'_>, out: &mut [Shape; MOST_RULES as usize])
    ensures { Shapes (policy_of policy.now.image.now) policy.now.rules out.new }
{
    for i in 0..policy.rules {
        out[i as usize] = Shape::of(policy.rule(i));
    }
}
