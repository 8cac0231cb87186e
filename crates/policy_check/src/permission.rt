// The permission block: the number of its entries, the entries, and its other bytes.
ghost use Rattle.std.specs.Prelude.{◌≡◌, ◌<◌, ◌≤◌};
ghost use Rattle.format.specs.Layout.{most_entries};
ghost use Rattle.format.specs.Policy.{permission_at, entries, good_permission, good_permission_bytes, permission_fault};
ghost use Rattle.format.specs.Code.{fault_of};
ghost use Rattle.policy_check.specs.Parts.{entries_fault};

use fields::field::{u16_at, zero_from};
use fields::layout::{
    BLOCK_BYTES, COUNT_AT, ENTRIES_BYTES, ENTRY_BYTES, ENTRY_PAD_AT, ENTRY_PRIVILEGE_AT,
    ENTRY_ROLE_AT, HIGHEST_ROLE, MOST_ENTRIES, SPARE_AT, SPARE_BYTES,
};
use fields::number::Role;
use fields::privilege;
use format::answer::Refusal;

// Entry i, from 0.
fn good_permission(b: &[u8; BLOCK_BYTES], i: usize) -> bool
    requires { i < most_entries }
    ensures { result ≡ good_permission (permission_at b.now i) }
{
    let role = Role(u16_at(b, ENTRY_ROLE_AT + ENTRY_BYTES * i));
    (1 <= role.0)
        & (role.0 <= HIGHEST_ROLE)
        & privilege::full(b, ENTRY_PRIVILEGE_AT + ENTRY_BYTES * i)
        & (u16_at(b, ENTRY_PAD_AT + ENTRY_BYTES * i) == 0)
}

// What stands outside the counted entries: their number, and bytes that are not named, those after the entries too.
fn good_permission_bytes(b: &[u8; BLOCK_BYTES]) -> bool
    ensures { result ≡ good_permission_bytes b.now }
{
    let n = u16_at(b, COUNT_AT) as usize;
    if MOST_ENTRIES < n {
        return false;
    }
    zero_from(b, SPARE_AT, SPARE_BYTES)
        & zero_from(
            b,
            ENTRY_ROLE_AT + ENTRY_BYTES * n,
            ENTRIES_BYTES - ENTRY_BYTES * n,
        )
}

// The first bad entry of permission block k.
fn entries_fault(b: &[u8; BLOCK_BYTES], k: u32) -> Result<(), Refusal>
    requires { entries b.now ≤ most_entries }
    ensures { fault_of result ≡ entries_fault k b.now }
{
    let n = u16_at(b, COUNT_AT) as usize;
    for i in 0..n {
        if !good_permission(b, i) {
            return Err(Refusal::Entry(k, i as u32 + 1));
        }
    }
    Ok(())
}

// The fault of permission block k: what stands outside the counted entries first, then the first bad entry.
pub fn permission_fault(b: &[u8; BLOCK_BYTES], k: u32) -> Result<(), Refusal>
    ensures { fault_of result ≡ permission_fault k b.now }
{
    if !good_permission_bytes(b) {
        return Err(Refusal::Entry(k, 0));
    }
    entries_fault(b, k)
}
