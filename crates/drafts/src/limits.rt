// Document 01's limits of an exclusion and of a rule, asked of those that are being read. The parts are those of a policy's check. They are put together
// here once more, since the compiler inlines a large function only where one place calls it, and each check of a policy would pay for a second.
ghost use Rattle.std.specs.Prelude.{◌≡◌, ◌≤◌};
ghost use Rattle.words.specs.Bytes.{byte_at};
ghost use Rattle.format.specs.Layout.{n_at, most_members};
ghost use Rattle.format.specs.Rule.{exclusion_at, rule_at, good_exclusion, good_rule, good_steps};
ghost use Rattle.exclusion_check.specs.Parts.{good_members};
ghost use Rattle.policy_check.specs.Parts.{good_levels};

use exclusion_check::exclusion::{good_privileges, good_roles, good_size};
use fields::field::zero_from;
use fields::layout::{
    BLOCK_BYTES, DEPTH_AT, EXCLUSION_KIND_AT, EXCLUSION_N_AT, EXCLUSIONS_AT, FIRST_STEP_AT,
    HAS_FIRST_AT, HAS_LAST_AT, LAST_STEP_AT, MEMBER_BYTES, MEMBERS_AT, MEMBERS_BYTES,
    MOST_EXCLUSIONS, MOST_LEVELS, OF_PRIVILEGES, OF_ROLES,
};
use fields::privilege;
use policy_check::rule::{good_level_of, good_step};

// The n members of a block's first exclusion, by its kind.
fn members_within(x: &[u8; BLOCK_BYTES], n: usize) -> bool
    requires { (n ≤ most_members) × (n ≡ byte_at x.now n_at) }
    ensures { result ≡ good_members (exclusion_at x.now 0) }
{
    let kind = x[EXCLUSION_KIND_AT];
    if kind == OF_ROLES {
        return good_roles(x, 0, n);
    }
    if kind == OF_PRIVILEGES {
        return good_privileges(x, 0, n);
    }
    false
}

// A block's first exclusion.
pub fn exclusion_within(x: &[u8; BLOCK_BYTES]) -> bool
    ensures { result ≡ good_exclusion (exclusion_at x.now 0) }
{
    if good_size(x, 0) {
        let n = usize::from(x[EXCLUSION_N_AT]);
        members_within(x, n)
            & zero_from(
                x,
                MEMBERS_AT + MEMBER_BYTES * n,
                MEMBERS_BYTES - MEMBER_BYTES * n,
            )
    } else {
        false
    }
}

// The four levels of a rule.
fn levels_within(d: &[u8; BLOCK_BYTES]) -> bool
    ensures { result ≡ good_levels (rule_at d.now) }
{
    let depth = u32::from(d[DEPTH_AT]);
    (0..MOST_LEVELS).all(|i| good_level_of(d, depth, i))
}

// Its steps, which are not equal where both are set.
fn steps_within(d: &[u8; BLOCK_BYTES]) -> bool
    ensures { result ≡ good_steps (rule_at d.now).first_step (rule_at d.now).last_step }
{
    good_step(d, HAS_FIRST_AT, FIRST_STEP_AT)
        & good_step(d, HAS_LAST_AT, LAST_STEP_AT)
        & !((d[HAS_FIRST_AT] == 1)
            & (d[HAS_LAST_AT] == 1)
            & privilege::same(d, FIRST_STEP_AT, LAST_STEP_AT))
}

// A rule, but for its exclusions.
pub fn rule_within(d: &[u8; BLOCK_BYTES]) -> bool
    ensures { result ≡ good_rule (rule_at d.now) }
{
    let exclusions = d[EXCLUSIONS_AT];
    (d[DEPTH_AT] <= MOST_LEVELS as u8)
        & (1 <= exclusions)
        & (exclusions <= MOST_EXCLUSIONS as u8)
        & levels_within(d)
        & steps_within(d)
}
