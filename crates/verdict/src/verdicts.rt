// Steps 1 to 3 of the judge together.
ghost use Rattle.std.specs.Prelude.{◌≡◌, true, ℕ, ◌+◌, ◌<◌, ◌≤◌, length, get_or};
ghost use Rattle.words.specs.First.{first};
ghost use Rattle.format.specs.Layout.{record_bytes, most_rules, table_blocks, capacity};
ghost use Rattle.format.specs.Policy.{policy_of};
ghost use Rattle.format.specs.Code.{fault_of};
ghost use Rattle.judge.specs.Verdict.{permitted as permitted_by};
ghost use Rattle.fields.specs.Code.{HasRoom};
ghost use Rattle.matching.specs.Masks.{EachOf};
ghost use Rattle.matching.specs.Sets.{MatchedIs};
ghost use Rattle.verdict.specs.Code.{JudgingRules, rule_fails, VerdictIs};

use crate::permits::permitted;
use crate::search::{Judging, search};
use fields::blocks::BlockSet;
use fields::layout::{REQUEST_BYTES, TABLE_BLOCKS};
use fields::sets::RuleSet;
use fields::tables::Blocks;
use format::answer::Refusal;
use history::finding::find;
use matching::masks::Each;
use matching::rules::{Effect, Matched, match_rules};
use policy_check::policy::Policy;
use tally::deed::Deed;

// The records of the largest table, and how many are few.
const MOST: usize = Blocks::RECORDS * TABLE_BLOCKS;

const FEW: usize = 60;

// What a grant ends and gives, and blocks outside which it clears no mark.
#[derive(Clone, Copy)]
pub struct Verdict {
    pub effect: Effect,
    pub near: BlockSet,
}

// What a request is to the rules of a policy, and the masks that tell their run places apart.
#[derive(Clone, Copy)]
struct Asked {
    matched: Matched,
    each: Each,
}

// The search, with room for the past of N records: the room has to be made ready for each call.
fn searched_in<const N: usize>(
    policy: &Policy<'_>,
    judging: Judging,
    q: &[u8; REQUEST_BYTES],
    table: &[u8],
    found: &[u16],
) -> Result<(), Refusal>
    requires judging_rules { JudgingRules policy.now.image.now judging.rules.0 }
    requires found_len { (length found.now ≤ N) × (N ≤ capacity table_blocks) }
    requires by_index { (j : ℕ) → j < length found.now → get_or found.now j 0 + record_bytes ≤ length table.now }
    ensures { fault_of result ≡ first (rule_fails policy.now.image.now judging.rules.0 judging.each q.now table.now found.now) 0 most_rules }
{
    let mut room = [Deed::NONE; N];
    search(policy.image, judging, q, table, found, &mut room)
}

// The search, by how many records may count: most users have few, and do not pay for the room that many take.
fn searched(
    policy: &Policy<'_>,
    judging: Judging,
    q: &[u8; REQUEST_BYTES],
    table: &[u8],
    found: &[u16],
) -> Result<(), Refusal>
    requires judging_rules { JudgingRules policy.now.image.now judging.rules.0 }
    requires found_len { length found.now ≤ capacity table_blocks }
    requires by_index { (j : ℕ) → j < length found.now → get_or found.now j 0 + record_bytes ≤ length table.now }
    ensures { fault_of result ≡ first (rule_fails policy.now.image.now judging.rules.0 judging.each q.now table.now found.now) 0 most_rules }
{
    if found.len() <= FEW {
        return searched_in::<FEW>(policy, judging, q, table, found);
    }
    searched_in::<MOST>(policy, judging, q, table, found)
}

// Steps 2 and 3: one pass over the records, with room for N of them, then the search.
fn judged_in<const N: usize>(
    policy: &Policy<'_>,
    asked: Asked,
    q: &[u8; REQUEST_BYTES],
    table: &[u8],
    n: usize,
) -> Result<Verdict, Refusal>
    requires granted { permitted_by (policy_of policy.now.image.now) q.now ≡ true }
    requires cases { (MatchedIs (policy_of policy.now.image.now) q.now asked.matched) × (EachOf (policy_of policy.now.image.now) asked.each) }
    requires room_len { (n ≤ N) × (N ≤ capacity table_blocks) }
    requires has_room { HasRoom table.now n }
    ensures { VerdictIs (policy_of policy.now.image.now) asked.each table.now n q.now result }
{
    let each = asked.each;
    let matched = asked.matched;
    let mut found = [0u16; N];
    let seen = find(each, matched.fitting, q, table, n, &mut found);
    let rules = matched.judging(seen.open);
    let records = &found[..seen.count];
    searched(policy, Judging { rules, each }, q, table, records)?;
    Ok(Verdict {
        effect: matched.effect(rules),
        near: seen.near,
    })
}

// What a grant does to marks where no rule judges.
fn no_effect() -> Effect
    ensures { (result.ends.0 ≡ 0) × (result.gives.0 ≡ 0) }
{
    Effect {
        ends: RuleSet(0),
        gives: RuleSet(0),
    }
}

// Steps 1 to 3 over the n records of a table, by the masks that tell run places apart: the refusal, or what a grant ends and gives. A request
// that fits no rule is done after step 1, and a table of few records does not pay for the room that many take.
pub fn verdict_of(
    policy: &Policy<'_>,
    each: Each,
    q: &[u8; REQUEST_BYTES],
    table: &[u8],
    n: usize,
) -> Result<Verdict, Refusal>
    requires each_is { EachOf (policy_of policy.now.image.now) each }
    requires has_room { HasRoom table.now n }
    ensures { VerdictIs (policy_of policy.now.image.now) each table.now n q.now result }
{
    if !permitted(policy.image, q) {
        return Err(Refusal::NotPermitted);
    }
    let matched = match_rules(policy, q);
    if matched.fitting.is_empty() {
        return Ok(Verdict {
            effect: no_effect(),
            near: BlockSet::none(),
        });
    }
    if n <= FEW {
        return judged_in::<FEW>(policy, Asked { matched, each }, q, table, n);
    }
    judged_in::<MOST>(policy, Asked { matched, each }, q, table, n)
}
