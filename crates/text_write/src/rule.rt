// A rule's text.
ghost use Rattle.std.specs.Prelude.{◌≡◌, true, ◌++◌, ◌+◌, ◌<◌, ◌≤◌, length};
ghost use Rattle.words.specs.Bytes.{byte_at};
ghost use Rattle.format.specs.Layout.{block_bytes, most_levels, depth_at};
ghost use Rattle.format.specs.Rule.{level_at, rule_at};
ghost use Rattle.policy_check.specs.Parts.{step_at};
ghost use Rattle.xml.specs.Names.{most_name_bytes};
ghost use Rattle.xml.specs.Write.{value_text, level_text, context_text, rule_text};
ghost use Rattle.text_write.specs.Words.{most_word_bytes};
ghost use Rattle.text_write.specs.Laid.{Lays, Puts};
ghost use Rattle.text_write.specs.Lost.{value_lost, level_lost, context_lost, step_lost, exclusions_lost, rule_lost, has_range as has_range_of};
ghost use Rattle.text_write.specs.Pieces.{most_pair_bytes, most_level_bytes, most_context_bytes, most_steps_bytes, most_exclusions_bytes, most_rule_bytes};
ghost use Rattle.text_write.specs.Pieces.{set_step_text, steps_text, steps_lost, comma_text, exclusions_text, Writable};

use crate::exclusion::{put_exclusion, put_pair};
use crate::put::{Placed, put, put_name};
use crate::spelling;
use crate::spelling::{COMMA, EQUALS, FIRST_STEP, LAST_STEP, RULE, RULE_END, TAG_END, TARGET_URI};
use fields::field::u16_at;
use fields::layout::{
    BLOCK_BYTES, DEPTH_AT, EVERY, EXCLUSIONS_AT, FIRST_STEP_AT, FIXED, HAS_FIRST_AT, HAS_LAST_AT,
    LAST_STEP_AT, LEVEL_BYTES, LEVEL_MARK_AT, LEVEL_TYPE_AT, LEVEL_VALUE_AT, RANGE,
};
use fields::privilege::Privilege;
use names::good::Names;
use names::kind::NameKind;

// ---- steps

// The step whose flag and whose privilege stand at two bytes, if it is set, with the piece that it starts with.
fn put_step(
    output: &mut [u8],
    at: usize,
    names: &Names<'_>,
    start: &[u8],
    b: &[u8; BLOCK_BYTES],
    flag: usize,
    step: usize,
) -> Placed
    requires at_bound { at + most_pair_bytes < 4294967296 }
    requires start { (length start.now ≤ most_word_bytes) × (flag < block_bytes) × (step + 3 < block_bytes) }
    ensures { Puts most_pair_bytes output.old at (set_step_text names.now.list.now start.now (step_at b.now flag step)) (step_lost names.now.list.now (step_at b.now flag step)) output.new result }
{
    if b[flag] != 1 {
        return Placed {
            next: at,
            named: Ok(()),
        };
    }
    put_pair(
        output,
        at,
        names,
        start,
        TARGET_URI,
        Privilege::read(b, step),
    )
}

// The first step, and then the last.
fn put_steps(output: &mut [u8], at: usize, names: &Names<'_>, b: &[u8; BLOCK_BYTES]) -> Placed
    requires { at + most_steps_bytes < 4294967296 }
    ensures { Puts most_steps_bytes output.old at (steps_text names.now.list.now (rule_at b.now)) (steps_lost names.now.list.now (rule_at b.now)) output.new result }
{
    let first = put_step(
        output,
        at,
        names,
        FIRST_STEP,
        b,
        HAS_FIRST_AT,
        FIRST_STEP_AT,
    );
    let last = put_step(
        output,
        first.next,
        names,
        LAST_STEP,
        b,
        HAS_LAST_AT,
        LAST_STEP_AT,
    );
    Placed {
        next: last.next,
        named: first.named.and(last.named),
    }
}

// ---- the context

// The value of level i: a name, or the sign for all values. A range has no spelling, and is refused before any text is handed out.
fn put_value(
    output: &mut [u8],
    at: usize,
    names: &Names<'_>,
    b: &[u8; BLOCK_BYTES],
    i: usize,
) -> Placed
    requires { (at + most_name_bytes < 4294967296) × (i < most_levels) }
    ensures { Puts most_name_bytes output.old at (value_text names.now.list.now (level_at b.now i)) (value_lost names.now.list.now (level_at b.now i)) output.new result }
{
    let mark = b[LEVEL_MARK_AT + LEVEL_BYTES * i];
    if mark == FIXED {
        let value = u16_at(b, LEVEL_VALUE_AT + LEVEL_BYTES * i) as u16;
        return put_name(output, at, names, NameKind::ContextValue.code(), value);
    }
    if mark == EVERY {
        return Placed {
            next: put(output, at, spelling::EVERY),
            named: Ok(()),
        };
    }
    Placed {
        next: put(output, at, spelling::EACH),
        named: Ok(()),
    }
}

// What stands before level i: a comma, but before the first nothing.
fn put_comma(output: &mut [u8], at: usize, i: usize) -> usize
    requires { at + most_word_bytes < 4294967296 }
    ensures { Lays most_word_bytes output.old at (comma_text i) output.new result }
{
    if i == 0 {
        return at;
    }
    put(output, at, COMMA)
}

// Level i.
fn put_level(
    output: &mut [u8],
    at: usize,
    names: &Names<'_>,
    b: &[u8; BLOCK_BYTES],
    i: usize,
) -> Placed
    requires { (at + most_level_bytes < 4294967296) × (i < most_levels) }
    ensures { Puts most_level_bytes output.old at (comma_text i ++ level_text names.now.list.now (level_at b.now i)) (level_lost names.now.list.now (level_at b.now i)) output.new result }
{
    let kind = u16_at(b, LEVEL_TYPE_AT + LEVEL_BYTES * i) as u16;
    let first = put_comma(output, at, i);
    let name = put_name(output, first, names, NameKind::ContextType.code(), kind);
    let third = put(output, name.next, EQUALS);
    let value = put_value(output, third, names, b, i);
    Placed {
        next: value.next,
        named: name.named.and(value.named),
    }
}

// The levels, outermost first.
fn put_context(output: &mut [u8], start: usize, names: &Names<'_>, b: &[u8; BLOCK_BYTES]) -> Placed
    requires start_bound { start + most_context_bytes < 4294967296 }
    requires depth { byte_at b.now depth_at ≤ most_levels }
    ensures { Puts most_context_bytes output.old start (context_text names.now.list.now (rule_at b.now)) (context_lost names.now.list.now (rule_at b.now)) output.new result }
{
    let depth = usize::from(b[DEPTH_AT]);
    let mut at = start;
    let mut named = Ok(());
    for i in 0..depth {
        let level = put_level(output, at, names, b, i);
        at = level.next;
        named = named.and(level.named);
    }
    Placed { next: at, named }
}

// A level is a range.
pub fn has_range(b: &[u8; BLOCK_BYTES]) -> bool
    requires { byte_at b.now depth_at ≤ most_levels }
    ensures { result ≡ has_range_of (rule_at b.now) }
{
    (0..usize::from(b[DEPTH_AT])).any(|i| b[LEVEL_MARK_AT + LEVEL_BYTES * i] == RANGE)
}

// ---- the rule

// The exclusions.
fn put_exclusions(
    output: &mut [u8],
    start: usize,
    names: &Names<'_>,
    b: &[u8; BLOCK_BYTES],
) -> Placed
    requires start_bound { start + most_exclusions_bytes < 4294967296 }
    requires writable { Writable b.now }
    ensures { Puts most_exclusions_bytes output.old start (exclusions_text names.now.list.now (rule_at b.now)) (exclusions_lost names.now.list.now (rule_at b.now)) output.new result }
{
    let exclusions = usize::from(b[EXCLUSIONS_AT]);
    let mut at = start;
    let mut named = Ok(());
    for e in 0..exclusions {
        let exclusion = put_exclusion(output, at, names, b, e);
        at = exclusion.next;
        named = named.and(exclusion.named);
    }
    Placed { next: at, named }
}

// The rule of a block.
pub fn put_rule(output: &mut [u8], at: usize, names: &Names<'_>, b: &[u8; BLOCK_BYTES]) -> Placed
    requires at_bound { at + most_rule_bytes < 4294967296 }
    requires writable { Writable b.now }
    ensures { Puts most_rule_bytes output.old at (rule_text names.now.list.now (rule_at b.now)) (rule_lost names.now.list.now (rule_at b.now)) output.new result }
{
    let first = put(output, at, RULE);
    let context = put_context(output, first, names, b);
    let third = put(output, context.next, TAG_END);
    let steps = put_steps(output, third, names, b);
    let exclusions = put_exclusions(output, steps.next, names, b);
    let stepped = context.named.and(steps.named);
    Placed {
        next: put(output, exclusions.next, RULE_END),
        named: stepped.and(exclusions.named),
    }
}
