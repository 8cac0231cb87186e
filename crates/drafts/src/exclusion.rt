// The exclusion that is being read.
ghost use Rattle.std.specs.Prelude.{◌≡◌, List, ◌<◌, OnOk, OnErr};
ghost use Rattle.format.specs.Rule.{Level, good_exclusion};
ghost use Rattle.format.specs.Code.{text_fault_of};
ghost use Rattle.fields.specs.Code.{privilege_of};
ghost use Rattle.xml.specs.Read.{Members, Draft, new_members, exclusion_of, with_member, with_exclusion, within};
ghost use Rattle.drafts.specs.Draft.{exclusion_block, draft_block, MembersFit};

use crate::limits::exclusion_within;
use crate::part::{counted, put_pair};
use fields::layout::{
    BLOCK_BYTES, EXCLUSION_BYTES, EXCLUSION_KIND_AT, EXCLUSION_M_AT, EXCLUSION_N_AT, EXCLUSIONS_AT,
    MEMBER_BYTES, MEMBERS_AT, MOST_EXCLUSIONS, MOST_MEMBERS,
};
use fields::number::Role;
use fields::privilege::Privilege;
use format::answer::TextRefusal;

// No exclusion is being read.
pub fn no_exclusion(x: &mut [u8; BLOCK_BYTES])
    ensures { x.new ≡ exclusion_block (new_members 0 0) }
{
    *x = [0; BLOCK_BYTES];
}

// An exclusion begins, with no member yet.
pub fn start_exclusion(x: &mut [u8; BLOCK_BYTES], kind: u8, m: u8)
    ensures { x.new ≡ exclusion_block (new_members kind m) }
{
    no_exclusion(x);
    x[EXCLUSION_KIND_AT] = kind;
    x[EXCLUSION_M_AT] = m;
}

// One member more, as the two numbers that its bytes have. A ninth is counted, so that the exclusion is refused, and has no place.
fn add_member(x: &mut [u8; BLOCK_BYTES], operation: u16, target: u16)
    ensures { (s : Members) → x.old ≡ exclusion_block s → x.new ≡ exclusion_block (with_member s (record { operation = operation; target = target })) }
{
    let n = x[EXCLUSION_N_AT];
    x[EXCLUSION_N_AT] = counted(n);
    if n < MOST_MEMBERS as u8 {
        put_pair(
            x,
            MEMBERS_AT + MEMBER_BYTES * usize::from(n),
            operation,
            target,
        );
    }
}

// A role is one member more.
pub fn add_role(x: &mut [u8; BLOCK_BYTES], role: Role)
    requires { role.0 < 65536 }
    ensures { (s : Members) → x.old ≡ exclusion_block s → x.new ≡ exclusion_block (with_member s (record { operation = role.0; target = 0 })) }
{
    add_member(x, role.0 as u16, 0);
}

// A privilege is one member more.
pub fn add_privilege(x: &mut [u8; BLOCK_BYTES], p: Privilege)
    ensures { (s : Members) → x.old ≡ exclusion_block s → x.new ≡ exclusion_block (with_member s (privilege_of p)) }
{
    add_member(x, p.operation.0, p.target.0);
}

// The exclusion ends: if it is a good one, the rule has one more. A ninth is counted, so that the rule is refused, and has no place.
pub fn end_exclusion(x: &[u8; BLOCK_BYTES], d: &mut [u8; BLOCK_BYTES]) -> Result<(), TextRefusal>
    ensures fault { (s : Members) → x.now ≡ exclusion_block s → MembersFit s → text_fault_of result ≡ within (good_exclusion (exclusion_of s)) }
    ensures good { OnOk result ((s : Members) (ls : List Level) (dr : Draft) → x.now ≡ exclusion_block s → MembersFit s → d.old ≡ draft_block ls dr → d.new ≡ draft_block ls (with_exclusion dr (exclusion_of s))) }
    ensures bad { OnErr result (d.new ≡ d.old) }
{
    if !exclusion_within(x) {
        return Err(TextRefusal::NotWithin);
    }
    let n = d[EXCLUSIONS_AT];
    d[EXCLUSIONS_AT] = counted(n);
    if n < MOST_EXCLUSIONS as u8 {
        let at = EXCLUSION_KIND_AT + EXCLUSION_BYTES * usize::from(n);
        let exclusion = &x[EXCLUSION_KIND_AT..EXCLUSION_KIND_AT + EXCLUSION_BYTES];
        d[at..at + EXCLUSION_BYTES].copy_from_slice(exclusion);
    }
    Ok(())
}
