// The rule block: its levels, its steps and its other bytes.
ghost use Rattle.std.specs.Prelude.{◌≡◌, ◌+◌, ◌<◌, length};
ghost use Rattle.format.specs.Layout.{block_bytes, most_levels};
ghost use Rattle.format.specs.Rule.{level_at, rule_at, good_mark, good_values, good_level, good_step, good_steps, good_rule, good_rule_bytes, rule_fault};
ghost use Rattle.format.specs.Code.{fault_of};
ghost use Rattle.policy_check.specs.Parts.{good_level_of, good_levels, step_at};

use exclusion_check::exclusion::exclusions_fault;
use fields::field::{u16_at, zero_from};
use fields::layout::{
    BLOCK_BYTES, DEPTH_AT, EACH, EVERY, EXCLUSIONS_AT, FIRST_STEP_AT, FIXED, HAS_FIRST_AT,
    HAS_LAST_AT, LAST_STEP_AT, LEVEL_BYTES, LEVEL_MARK_AT, LEVEL_PAD_AT, LEVEL_TAIL_AT,
    LEVEL_TYPE_AT, LEVEL_VALUE_AT, MOST_EXCLUSIONS, MOST_LEVELS, RANGE, RULE_SPARE_AT,
    RULE_SPARE_BYTES, RULE_TAIL_AT, RULE_TAIL_BYTES,
};
use fields::privilege;
use format::answer::Refusal;

// A mark with the value beside it: fixed has one, every and each have none. The mark is a byte of an image that is still to be judged, and no `Mark`.
fn good_mark(mark: u8, value: u32) -> bool
    ensures { result ≡ good_mark mark value }
{
    ((mark == FIXED) & (value != 0)) | (((mark == EVERY) | (mark == EACH)) & (value == 0))
}

// A mark with the value and the last two bytes of its level: the low and the high value of a range; with any other mark the last two are zero.
fn good_values(mark: u8, value: u32, tail: u32) -> bool
    ensures { result ≡ good_values mark value tail }
{
    if mark == RANGE {
        return (value != 0) & (value <= tail);
    }
    good_mark(mark, value) & (tail == 0)
}

// A used level.
fn good_level(b: &[u8; BLOCK_BYTES], i: usize) -> bool
    requires { i < most_levels }
    ensures { result ≡ good_level (level_at b.now i) }
{
    let at = LEVEL_BYTES * i;
    let value = u16_at(b, LEVEL_VALUE_AT + at);
    let tail = u16_at(b, LEVEL_TAIL_AT + at);
    (u16_at(b, LEVEL_TYPE_AT + at) != 0)
        & good_values(b[LEVEL_MARK_AT + at], value, tail)
        & (b[LEVEL_PAD_AT + at] == 0)
}

// A level of a rule of some depth: used, or past the depth and all zero.
pub fn good_level_of(b: &[u8; BLOCK_BYTES], depth: u32, i: usize) -> bool
    requires { i < most_levels }
    ensures { result ≡ good_level_of depth (level_at b.now) i }
{
    if (i as u32) < depth {
        good_level(b, i)
    } else {
        zero_from(b, LEVEL_TYPE_AT + LEVEL_BYTES * i, LEVEL_BYTES)
    }
}

// The four levels.
fn good_levels(b: &[u8; BLOCK_BYTES]) -> bool
    ensures { result ≡ good_levels (rule_at b.now) }
{
    let depth = u32::from(b[DEPTH_AT]);
    (0..MOST_LEVELS).all(|i| good_level_of(b, depth, i))
}

// A step: set and full, or neither.
pub fn good_step(b: &[u8], flag: usize, at: usize) -> bool
    requires { (flag < length b.now) × (at + 3 < length b.now) }
    ensures { result ≡ good_step (step_at b.now flag at) }
{
    ((b[flag] == 1) & privilege::full(b, at)) | ((b[flag] == 0) & privilege::blank(b, at))
}

// The first and the last step, which are not equal where both are set.
fn good_steps(b: &[u8; BLOCK_BYTES]) -> bool
    ensures { result ≡ good_steps (rule_at b.now).first_step (rule_at b.now).last_step }
{
    good_step(b, HAS_FIRST_AT, FIRST_STEP_AT)
        & good_step(b, HAS_LAST_AT, LAST_STEP_AT)
        & !((b[HAS_FIRST_AT] == 1)
            & (b[HAS_LAST_AT] == 1)
            & privilege::same(b, FIRST_STEP_AT, LAST_STEP_AT))
}

// Depth, number of exclusions, levels and steps.
fn good_rule(b: &[u8; BLOCK_BYTES]) -> bool
    ensures { result ≡ good_rule (rule_at b.now) }
{
    let exclusions = b[EXCLUSIONS_AT];
    (b[DEPTH_AT] <= MOST_LEVELS as u8)
        & (1 <= exclusions)
        & (exclusions <= MOST_EXCLUSIONS as u8)
        & good_levels(b)
        & good_steps(b)
}

// What of a rule block is neither its first eight bytes, nor an exclusion, nor the check.
fn good_rule_bytes(b: &[u8; BLOCK_BYTES]) -> bool
    ensures { result ≡ good_rule_bytes b.now }
{
    good_rule(b)
        & zero_from(b, RULE_SPARE_AT, RULE_SPARE_BYTES)
        & zero_from(b, RULE_TAIL_AT, RULE_TAIL_BYTES)
}

// The fault of rule block k: its own bytes first, then the first bad exclusion.
pub fn rule_fault(b: &[u8; BLOCK_BYTES], k: u32) -> Result<(), Refusal>
    ensures { fault_of result ≡ rule_fault k b.now }
{
    if !good_rule_bytes(b) {
        return Err(Refusal::RuleBytes(k));
    }
    exclusions_fault(b, k)
}
