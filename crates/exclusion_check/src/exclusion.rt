// The exclusions of a rule block, each by its index from 0, and its members by theirs.
ghost use Rattle.std.specs.Prelude.{◌≡◌, ◌+◌, ◌*◌, ◌<◌, ◌≤◌, length};
ghost use Rattle.words.specs.Bytes.{byte_at};
ghost use Rattle.format.specs.Layout.{block_bytes, most_exclusions, exclusion_bytes, n_at, most_members};
ghost use Rattle.format.specs.Rule.{exclusion_at, rule_at, good_roles, good_privileges, good_exclusion, good_exclusion_at};
ghost use Rattle.format.specs.Code.{fault_of};
ghost use Rattle.exclusion_check.specs.Parts.{new_role, good_role, good_members, good_size, exclusions_fault};

use fields::field::{u16_at, zero_from};
use fields::layout::{
    BLOCK_BYTES, EXCLUSION_BYTES, EXCLUSION_KIND_AT, EXCLUSION_M_AT, EXCLUSION_N_AT,
    EXCLUSION_PAD_AT, EXCLUSIONS_AT, HIGHEST_ROLE, MEMBER_BYTES, MEMBER_PAD, MEMBERS_AT,
    MEMBERS_BYTES, MOST_EXCLUSIONS, MOST_MEMBERS, OF_PRIVILEGES, OF_ROLES,
};
use fields::number::Role;
use fields::privilege;
use format::answer::Refusal;

// The role of member i is none of those before it.
fn new_role(b: &[u8; BLOCK_BYTES], e: usize, i: usize) -> bool
    requires { (e < most_exclusions) × (i < most_members) }
    ensures { result ≡ new_role (exclusion_at b.now e) i }
{
    let at = MEMBERS_AT + EXCLUSION_BYTES * e;
    let role = Role(u16_at(b, at + MEMBER_BYTES * i));
    (0..i).all(|j| Role(u16_at(b, at + MEMBER_BYTES * j)) != role)
}

// Member i of an exclusion of roles.
fn good_role(b: &[u8; BLOCK_BYTES], e: usize, i: usize) -> bool
    requires { (e < most_exclusions) × (i < most_members) }
    ensures { result ≡ good_role (exclusion_at b.now e) i }
{
    let at = MEMBERS_AT + EXCLUSION_BYTES * e + MEMBER_BYTES * i;
    let role = Role(u16_at(b, at));
    (1 <= role.0) & (role.0 <= HIGHEST_ROLE) & (u16_at(b, at + MEMBER_PAD) == 0) & new_role(b, e, i)
}

// The n members of an exclusion of roles.
pub fn good_roles(b: &[u8; BLOCK_BYTES], e: usize, n: usize) -> bool
    requires { (e < most_exclusions) × ((n ≤ most_members) × (n ≡ byte_at b.now (n_at + exclusion_bytes * e))) }
    ensures { result ≡ good_roles (exclusion_at b.now e) }
{
    (0..n).all(|i| good_role(b, e, i))
}

// The n members of an exclusion of privileges.
pub fn good_privileges(b: &[u8; BLOCK_BYTES], e: usize, n: usize) -> bool
    requires { (e < most_exclusions) × ((n ≤ most_members) × (n ≡ byte_at b.now (n_at + exclusion_bytes * e))) }
    ensures { result ≡ good_privileges (exclusion_at b.now e) }
{
    (0..n).all(|i| privilege::full(b, MEMBERS_AT + EXCLUSION_BYTES * e + MEMBER_BYTES * i))
}

// The n members, by the exclusion's kind.
fn good_members(b: &[u8; BLOCK_BYTES], e: usize, n: usize) -> bool
    requires { (e < most_exclusions) × ((n ≤ most_members) × (n ≡ byte_at b.now (n_at + exclusion_bytes * e))) }
    ensures { result ≡ good_members (exclusion_at b.now e) }
{
    let kind = b[EXCLUSION_KIND_AT + EXCLUSION_BYTES * e];
    if kind == OF_ROLES {
        return good_roles(b, e, n);
    }
    if kind == OF_PRIVILEGES {
        return good_privileges(b, e, n);
    }
    false
}

// The numbers m and n of an exclusion, and the zero byte beside them.
pub fn good_size(b: &[u8; BLOCK_BYTES], e: usize) -> bool
    requires { e < most_exclusions }
    ensures { result ≡ good_size (exclusion_at b.now e) }
{
    let m = b[EXCLUSION_M_AT + EXCLUSION_BYTES * e];
    let n = b[EXCLUSION_N_AT + EXCLUSION_BYTES * e];
    (b[EXCLUSION_PAD_AT + EXCLUSION_BYTES * e] == 0)
        & (2 <= m)
        & (m <= n)
        & (n <= MOST_MEMBERS as u8)
}

// An exclusion among the rule's number. Its members are looked at only where there are at most eight.
fn good_exclusion(b: &[u8; BLOCK_BYTES], e: usize) -> bool
    requires { e < most_exclusions }
    ensures { result ≡ good_exclusion (exclusion_at b.now e) }
{
    if good_size(b, e) {
        let n = usize::from(b[EXCLUSION_N_AT + EXCLUSION_BYTES * e]);
        good_members(b, e, n)
            & zero_from(
                b,
                MEMBERS_AT + EXCLUSION_BYTES * e + MEMBER_BYTES * n,
                MEMBERS_BYTES - MEMBER_BYTES * n,
            )
    } else {
        false
    }
}

// Exclusion e: a good one among the rule's number, and zero past it.
fn good_exclusion_at(b: &[u8; BLOCK_BYTES], e: usize) -> bool
    requires { e < most_exclusions }
    ensures { result ≡ good_exclusion_at (rule_at b.now) e }
{
    if e < usize::from(b[EXCLUSIONS_AT]) {
        good_exclusion(b, e)
    } else {
        zero_from(b, EXCLUSION_KIND_AT + EXCLUSION_BYTES * e, EXCLUSION_BYTES)
    }
}

// The first bad exclusion of rule block k.
pub fn exclusions_fault(b: &[u8; BLOCK_BYTES], k: u32) -> Result<(), Refusal>
    ensures { fault_of result ≡ exclusions_fault k b.now }
{
    for e in 0..MOST_EXCLUSIONS {
        if !good_exclusion_at(b, e) {
            return Err(Refusal::Exclusion(k, e as u32 + 1));
        }
    }
    Ok(())
}
