// Step 3 of the judge: "For each judging rule in order and each exclusion in order". The first failing exclusion ends the search.
ghost use Rattle.std.specs.Prelude.{◌≡◌, ℕ, ◌+◌, ◌<◌, ◌≤◌, length, get_or};
ghost use Rattle.words.specs.First.{first};
ghost use Rattle.format.specs.Answer.{refusal};
ghost use Rattle.format.specs.Code.{fault_of, refusal_of};
ghost use Rattle.format.specs.Layout.{record_bytes, most_rules, most_exclusions, table_blocks, capacity};
ghost use Rattle.format.specs.Rule.{exclusion_at};
ghost use Rattle.judge.specs.Tally.{exclusion_number};
ghost use Rattle.verdict.specs.Code.{JudgingRules, rule_fails};

use fields::layout::{
    BLOCK_BYTES, EXCLUSION_BYTES, EXCLUSION_KIND_AT, EXCLUSIONS_AT, OF_ROLES, REQUEST_BYTES,
};
use fields::sets::RuleSet;
use fields::tables::block;
use format::answer::Refusal;
use history::pasts::past_of;
use matching::masks::Each;
use tally::deed::Deed;
use tally::tallies::reaches;

// The rules that judge, and the masks that tell run places apart.
#[derive(Clone, Copy)]
pub struct Judging {
    pub rules: RuleSet,
    pub each: Each,
}

// The refusal by exclusion e of rule i, each told from 1.
fn refused_by(b: &[u8; BLOCK_BYTES], i: u32, e: usize) -> Refusal
    requires { (i < most_rules) × (e < most_exclusions) }
    ensures { refusal_of result ≡ refusal (exclusion_number (exclusion_at b.now e)) (i + 1) (e + 1) }
{
    match b[EXCLUSION_KIND_AT + EXCLUSION_BYTES * e] {
        OF_ROLES => Refusal::Roles(i + 1, e as u32 + 1),
        _ => Refusal::Privileges(i + 1, e as u32 + 1),
    }
}

// The search. `found` has the user's records that may count; of these, what was done under each rule is put down in `room`.
pub fn search(
    policy: &[u8],
    judging: Judging,
    q: &[u8; REQUEST_BYTES],
    table: &[u8],
    found: &[u16],
    room: &mut [Deed],
) -> Result<(), Refusal>
    requires judging_rules { JudgingRules policy.now judging.rules.0 }
    requires room_len { (length found.now ≤ length room.old) × (length found.now ≤ capacity table_blocks) }
    requires by_index { (j : ℕ) → j < length found.now → get_or found.now j 0 + record_bytes ≤ length table.now }
    ensures { fault_of result ≡ first (rule_fails policy.now judging.rules.0 judging.each q.now table.now found.now) 0 most_rules }
{
    let mut i = 0u32;
    'rules: loop {
        // Behind the highest rule that judges there is nothing to ask.
        if judging.rules.none_from(i) {
            break 'rules Ok(());
        }
        if !judging.rules.has(i) {
            i += 1;
            continue 'rules;
        }
        let b = block(policy, i as usize);
        let count = past_of(judging.each, i, q, table, found, room);
        let past = &room[..count];
        for e in 0..usize::from(b[EXCLUSIONS_AT]) {
            if reaches(b, e, past, q) {
                break 'rules Err(refused_by(b, i, e));
            }
        }
        i += 1;
    }
}
