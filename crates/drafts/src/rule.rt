// The rule that is being read.
ghost use Rattle.std.specs.Prelude.{◌≡◌, List, [], ◌∷◌, ◌++◌, ℕ, length, get_or, OnOk};
ghost use Rattle.format.specs.Rule.{Level, good_rule};
ghost use Rattle.format.specs.Code.{text_fault_of};
ghost use Rattle.fields.specs.Code.{mark_code, privilege_of};
ghost use Rattle.xml.specs.Read.{Draft, level_from, new_draft, rule_from, within};
ghost use Rattle.drafts.specs.Code.{with_step};
ghost use Rattle.drafts.specs.Draft.{draft_block, rule_block, LevelFits, StepFits};

use crate::limits::rule_within;
use crate::part::put_pair;
use fields::field::put_u32;
use fields::kind::Mark;
use fields::layout::{
    BLOCK_BYTES, DEPTH_AT, FIRST_STEP_AT, HAS_FIRST_AT, HAS_LAST_AT, KIND_AT, LAST_STEP_AT,
    LEVEL_BYTES, LEVEL_TYPE_AT, LEVEL_VALUE_AT, MOST_LEVELS, RULE_KIND,
};
use fields::privilege::Privilege;
use format::answer::TextRefusal;

// Which step of a rule.
#[derive(Clone, Copy, Debug, PartialEq, Eq)]
pub enum Step {
    First,
    Last,
}

// A rule begins, with no step, no level and no exclusion yet.
pub fn start_rule(d: &mut [u8; BLOCK_BYTES])
    ensures { (c : List ℕ) → d.new ≡ draft_block [] (new_draft c) }
{
    *d = [0; BLOCK_BYTES];
}

// A step is set.
pub fn set_step(d: &mut [u8; BLOCK_BYTES], step: Step, p: Privilege)
    ensures { (ls : List Level) (dr : Draft) → d.old ≡ draft_block ls dr → d.new ≡ draft_block ls (with_step step dr (privilege_of p)) }
{
    let (flag, at) = match step {
        Step::First => (HAS_FIRST_AT, FIRST_STEP_AT),
        Step::Last => (HAS_LAST_AT, LAST_STEP_AT),
    };
    d[flag] = 1;
    put_pair(d, at, p.operation.0, p.target.0);
}

// Level i. A fifth has no place: the depth says that it was there.
pub fn put_level(d: &mut [u8; BLOCK_BYTES], i: usize, kind: u16, mark: Mark, value: u16)
    ensures { (ls : List Level) (dr : Draft) → length ls ≡ i → d.old ≡ draft_block ls dr → d.new ≡ draft_block (ls ++ (level_from kind (mark_code mark) value ∷ [])) dr }
{
    if i < MOST_LEVELS {
        put_pair(
            d,
            LEVEL_TYPE_AT + LEVEL_BYTES * i,
            kind,
            u16::from(mark.code()),
        );
        put_pair(d, LEVEL_VALUE_AT + LEVEL_BYTES * i, value, 0);
    }
}

// The rule ends, with so many levels. Where it is a good one its block is what the policy has, but for the number, the total and the check.
pub fn end_rule(d: &mut [u8; BLOCK_BYTES], depth: usize) -> Result<(), TextRefusal>
    ensures fault { (ls : List Level) (dr : Draft) → length ls ≡ depth → ((i : ℕ) → LevelFits (get_or ls i (level_from 0 0 0))) → StepFits dr.first → StepFits dr.last → d.old ≡ draft_block ls dr → text_fault_of result ≡ within (good_rule (rule_from ls dr)) }
    ensures good { OnOk result ((ls : List Level) (dr : Draft) → length ls ≡ depth → ((i : ℕ) → LevelFits (get_or ls i (level_from 0 0 0))) → StepFits dr.first → StepFits dr.last → d.old ≡ draft_block ls dr → d.new ≡ rule_block (rule_from ls dr)) }
{
    if MOST_LEVELS < depth {
        return Err(TextRefusal::NotWithin);
    }
    put_u32(d, KIND_AT, RULE_KIND);
    d[DEPTH_AT] = depth as u8;
    if !rule_within(d) {
        return Err(TextRefusal::NotWithin);
    }
    Ok(())
}
