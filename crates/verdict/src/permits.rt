// Step 1 of the judge: some active role has the permission for operation and target.
ghost use Rattle.std.specs.Prelude.{◌≡◌, ◌<◌, ◌≤◌};
ghost use Rattle.std.proofs.Math.Option.{none};
ghost use Rattle.words.specs.Lists.{any_of};
ghost use Rattle.format.specs.Layout.{most_entries, highest_role, permission_kind};
ghost use Rattle.format.specs.Block.{blocks, kind};
ghost use Rattle.format.specs.Policy.{policy_fault, policy_of, permission_at, permissions_at};
ghost use Rattle.judge.specs.Verdict.{grants as grants_of, permitted as permitted_by};
ghost use Rattle.verdict.specs.Code.{entries_of, EntriesFit};

use fields::field::{u16_at, u32_at};
use fields::layout::{
    BLOCK_BYTES, COUNT_AT, ENTRY_BYTES, ENTRY_PRIVILEGE_AT, ENTRY_ROLE_AT, KIND_AT,
    PERMISSION_KIND, REQUEST_BYTES,
};
use fields::number::Role;
use fields::privilege::Privilege;
use fields::request;
use fields::tables::block;

// Entry i of a permission block grants the request: one of its roles, its operation and its target.
fn grants(b: &[u8; BLOCK_BYTES], i: usize, q: &[u8; REQUEST_BYTES]) -> bool
    requires i_bound { i < most_entries }
    requires bound { (1 ≤ (permission_at b.now i).role) × ((permission_at b.now i).role ≤ highest_role) }
    ensures { result ≡ grants_of q.now (permission_at b.now i) }
{
    let role = Role(u16_at(b, ENTRY_ROLE_AT + ENTRY_BYTES * i));
    let privilege = Privilege::read(b, ENTRY_PRIVILEGE_AT + ENTRY_BYTES * i);
    request::roles(q, 0).has(role) & (privilege == request::privilege(q, 0))
}

// Some entry of a block does. A rule block has none.
fn block_permits(b: &[u8; BLOCK_BYTES], q: &[u8; REQUEST_BYTES]) -> bool
    requires { kind b.now ≡ permission_kind → EntriesFit b.now }
    ensures { result ≡ any_of (grants_of q.now) (entries_of b.now) }
{
    if u32_at(b, KIND_AT) != PERMISSION_KIND {
        return false;
    }
    let n = u16_at(b, COUNT_AT) as usize;
    (0..n).any(|i| grants(b, i, q))
}

// Some entry of block k of a policy does.
fn permits_at(policy: &[u8], k: usize, q: &[u8; REQUEST_BYTES]) -> bool
    requires accepted { policy_fault policy.now ≡ none }
    requires k_bound { k < blocks policy.now }
    ensures { result ≡ any_of (grants_of q.now) (permissions_at policy.now k) }
{
    block_permits(block(policy, k), q)
}

// Some active role has the permission for operation and target.
pub fn permitted(policy: &[u8], q: &[u8; REQUEST_BYTES]) -> bool
    requires { policy_fault policy.now ≡ none }
    ensures { result ≡ permitted_by (policy_of policy.now) q.now }
{
    let n = policy.len() / BLOCK_BYTES;
    (0..n).any(|k| permits_at(policy, k, q))
}
