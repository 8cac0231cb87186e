// What the members of an exclusion count: "Kind 1: how many member roles appear among all their active roles. Kind 2: each different member
// counts min(times listed, times done), summed."
ghost use Rattle.std.specs.Prelude.{◌≡◌, ℕ, ◌+◌, ◌*◌, ◌%◌, ◌<◌, ◌≤◌, cond, eqb, length};
ghost use Rattle.words.specs.Bytes.{u16_at};
ghost use Rattle.format.specs.Layout.{members_at, exclusion_bytes, member_bytes, highest_role, most_members, most_exclusions};
ghost use Rattle.tally.specs.Code.{has_member, roles_among, listed, repeated, member_counts, members_count};

use fields::field::u16_at;
use fields::layout::{BLOCK_BYTES, EXCLUSION_BYTES, MEMBER_BYTES, MEMBERS_AT};
use fields::number::Role;
use fields::privilege::Packed;
use fields::sets::Roles;

// A privilege among an exclusion's members, and how often it was done.
#[derive(Clone, Copy, Debug, PartialEq, Eq)]
pub struct Counted {
    pub privilege: Packed,
    pub times: u32,
}

impl Counted {
    // The place of a member that is not read yet.
    pub const NONE: Counted = Counted {
        privilege: Packed(0),
        times: 0,
    };

    // After what is done. (The remainder keeps the sum in bounds; no count comes to it.)
    pub fn after(self, done: Packed) -> Self
        ensures { (result.privilege ≡ self.privilege) × (result.times ≡ self.times % 65536 + cond (eqb done.0 self.privilege.0) 1 0) }
    {
        Counted {
            privilege: self.privilege,
            times: self.times % 65536 + u32::from(done == self.privilege),
        }
    }
}

// Member k of an exclusion of roles is among these.
fn has_member(b: &[u8; BLOCK_BYTES], e: usize, k: usize, roles: Roles) -> bool
    requires { (e < most_exclusions) × (k < most_members) × (1 ≤ u16_at b.now (members_at + exclusion_bytes * e + member_bytes * k)) × (u16_at b.now (members_at + exclusion_bytes * e + member_bytes * k) ≤ highest_role) }
    ensures { result ≡ has_member b.now e k roles.0 }
{
    roles.has(Role(u16_at(b, MEMBERS_AT + EXCLUSION_BYTES * e + MEMBER_BYTES * k)))
}

// How many of an exclusion's n member roles are among these.
pub fn count_roles(b: &[u8; BLOCK_BYTES], e: usize, n: usize, roles: Roles) -> u32
    requires b_len { (e < most_exclusions) × (n ≤ most_members) }
    requires by_index { (k : ℕ) → k < n → (1 ≤ u16_at b.now (members_at + exclusion_bytes * e + member_bytes * k)) × (u16_at b.now (members_at + exclusion_bytes * e + member_bytes * k) ≤ highest_role) }
    ensures { result ≡ roles_among b.now e n roles.0 }
{
    (0..n).filter(|k| has_member(b, e, *k, roles)).count() as u32
}

// An earlier member is the same as member k.
fn repeats(members: &[Counted], k: usize) -> bool
    requires { k < length members.now }
    ensures { result ≡ repeated members.now k }
{
    let privilege = members[k].privilege;
    members[..k]
        .iter()
        .any(|other| other.privilege == privilege)
}

// How many of the members are member k. A sum and no filter: without a branch the compiler compares many members at once.
fn times_listed(members: &[Counted], k: usize) -> u32
    requires { (length members.now ≤ most_members) × (k < length members.now) }
    ensures { (result ≡ listed members.now k) × (result ≤ most_members) }
{
    let privilege = members[k].privilege;
    let mut count = 0u32;
    for other in members {
        count += u32::from(other.privilege == privilege);
    }
    count
}

// What member k counts: nothing if it repeats an earlier one. It is listed at least once, so how often is asked only of what was done more than once.
fn count_member(members: &[Counted], k: usize) -> u32
    requires { (length members.now ≤ most_members) × (k < length members.now) }
    ensures { (result ≡ member_counts members.now k) × (result ≤ most_members) }
{
    if repeats(members, k) {
        return 0;
    }
    let done = members[k].times;
    if done <= 1 {
        return done;
    }
    let most = times_listed(members, k);
    if most < done {
        return most;
    }
    done
}

// What the members count together.
pub fn count_privileges(members: &[Counted]) -> u32
    requires { length members.now ≤ most_members }
    ensures { result ≡ members_count members.now }
{
    (0..members.len()).map(|k| count_member(members, k)).sum()
}
