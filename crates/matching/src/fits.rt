// Which contexts a rule is about: a rule block beside requests.
ghost use Rattle.std.specs.Prelude.{◌≡◌, ◌+◌, ◌/◌, ◌%◌, ◌<◌, ◌≤◌, length};
ghost use Rattle.words.specs.Bytes.{byte_at, part};
ghost use Rattle.format.specs.Layout.{most_levels, request_bytes};
ghost use Rattle.format.specs.Rule.{level_at, rule_at};
ghost use Rattle.format.specs.Fits.{value_fits, level_fits, fits as fits_rule};
ghost use Rattle.matching.specs.Levels.{fits_below};

use fields::field::{u16_at, u32_at};
use fields::layout::{
    BLOCK_BYTES, CONTEXT_AT, CONTEXT_LEVEL_BYTES, DEPTH_AT, FIXED, LEVEL_BYTES, LEVEL_MARK_AT,
    LEVEL_TAIL_AT, LEVEL_TYPE_AT, LEVEL_VALUE_AT, RANGE,
};
use request_check::request::depth;

// A level of a rule and a value of a context at that level.
fn value_fits(b: &[u8; BLOCK_BYTES], i: usize, value: u32) -> bool
    requires { i < most_levels }
    ensures { result ≡ value_fits (level_at b.now i) value }
{
    let at = LEVEL_BYTES * i;
    let mark = b[LEVEL_MARK_AT + at];
    if mark == FIXED {
        return value == u16_at(b, LEVEL_VALUE_AT + at);
    }
    if mark == RANGE {
        return (u16_at(b, LEVEL_VALUE_AT + at) <= value) & (value <= u16_at(b, LEVEL_TAIL_AT + at));
    }
    true
}

// A level of a rule and the word of a context's level.
fn level_fits(b: &[u8; BLOCK_BYTES], i: usize, level: u32) -> bool
    requires { i < most_levels }
    ensures { result ≡ level_fits (level_at b.now i) (level % 65536) (level / 65536) }
{
    (level % 65536 == u16_at(b, LEVEL_TYPE_AT + LEVEL_BYTES * i)) & value_fits(b, i, level / 65536)
}

// The rule's first n levels. No chain: its proof needs at each turn that i is below n, which the law of `all` does not hand on.
fn levels_fit(b: &[u8; BLOCK_BYTES], n: usize, s: &[u8], at: usize) -> bool
    requires { (n ≤ 4) × (at + request_bytes ≤ length s.now) }
    ensures { result ≡ fits_below (rule_at b.now) (part s.now at request_bytes) n }
{
    let mut good = true;
    for i in 0..n {
        good = good & level_fits(b, i, u32_at(s, at + CONTEXT_AT + CONTEXT_LEVEL_BYTES * i));
    }
    good
}

// The context of the request at a byte fits the rule.
pub fn fits(b: &[u8; BLOCK_BYTES], s: &[u8], at: usize) -> bool
    requires { (byte_at b.now 8 ≤ 4) × (at + request_bytes ≤ length s.now) }
    ensures { result ≡ fits_rule (rule_at b.now) (part s.now at request_bytes) }
{
    let levels = b[DEPTH_AT];
    (u32::from(levels) <= depth(s, at)) & levels_fit(b, usize::from(levels), s, at)
}
