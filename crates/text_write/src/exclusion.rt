// An exclusion's text.
ghost use Rattle.std.specs.Prelude.{◌≡◌, ◌∷◌, [], true, cond, ◌+◌, ◌*◌, ◌<◌, ◌≤◌, length, eqb};
ghost use Rattle.format.specs.Layout.{most_exclusions, member_bytes, most_members};
ghost use Rattle.format.specs.Rule.{privilege_at, exclusion_at};
ghost use Rattle.fields.specs.Code.{privilege_of, exclusion_code};
ghost use Rattle.xml.specs.Names.{role_names};
ghost use Rattle.xml.specs.Write.{member_text, exclusion_text};
ghost use Rattle.text_write.specs.Words.{most_word_bytes};
ghost use Rattle.text_write.specs.Laid.{Lays, Puts};
ghost use Rattle.text_write.specs.Lost.{name_lost, privilege_lost, member_lost, exclusion_lost};
ghost use Rattle.text_write.specs.Pieces.{most_role_bytes, most_pair_bytes, most_members_bytes, most_opening_bytes, most_exclusion_bytes};
ghost use Rattle.text_write.specs.Pieces.{role_text, pair_text, opening_text, members_text, members_lost, Countable};

use crate::put::{Placed, put, put_name};
use crate::spelling::{
    ELEMENT_END, PRIVILEGE, PRIVILEGES, PRIVILEGES_END, ROLE, ROLES, ROLES_END, TAG_END, TARGET,
};
use fields::kind::ExclusionKind;
use fields::layout::{
    BLOCK_BYTES, EXCLUSION_BYTES, EXCLUSION_KIND_AT, EXCLUSION_M_AT, EXCLUSION_N_AT, MEMBER_BYTES,
    MEMBERS_AT, OF_ROLES,
};
use fields::privilege::Privilege;
use names::good::Names;
use names::kind::NameKind;

// A privilege, between two fixed pieces that tell what it is there.
pub fn put_pair(
    output: &mut [u8],
    at: usize,
    names: &Names<'_>,
    start: &[u8],
    between: &[u8],
    p: Privilege,
) -> Placed
    requires at_bound { at + most_pair_bytes < 4294967296 }
    requires words { (length start.now ≤ most_word_bytes) × (length between.now ≤ most_word_bytes) }
    ensures { Puts most_pair_bytes output.old at (pair_text names.now.list.now start.now between.now (privilege_of p)) (privilege_lost names.now.list.now (privilege_of p)) output.new result }
{
    let first = put(output, at, start);
    let operation = put_name(
        output,
        first,
        names,
        NameKind::Operation.code(),
        p.operation.0,
    );
    let third = put(output, operation.next, between);
    let target = put_name(output, third, names, NameKind::Target.code(), p.target.0);
    Placed {
        next: put(output, target.next, ELEMENT_END),
        named: operation.named.and(target.named),
    }
}

// A role.
fn put_role(output: &mut [u8], at: usize, names: &Names<'_>, role: u16) -> Placed
    requires { at + most_role_bytes < 4294967296 }
    ensures { Puts most_role_bytes output.old at (role_text names.now.list.now role) (name_lost names.now.list.now role_names role) output.new result }
{
    let first = put(output, at, ROLE);
    let name = put_name(output, first, names, NameKind::Role.code(), role);
    Placed {
        next: put(output, name.next, ELEMENT_END),
        named: name.named,
    }
}

// A member of an exclusion: a role or a privilege.
fn put_member(
    output: &mut [u8],
    at: usize,
    names: &Names<'_>,
    kind: ExclusionKind,
    p: Privilege,
) -> Placed
    requires { at + most_pair_bytes < 4294967296 }
    ensures { Puts most_pair_bytes output.old at (member_text names.now.list.now (exclusion_code kind) (privilege_of p)) (member_lost names.now.list.now (exclusion_code kind) (privilege_of p)) output.new result }
{
    match kind {
        ExclusionKind::Roles => put_role(output, at, names, p.operation.0),
        ExclusionKind::Privileges => put_pair(output, at, names, PRIVILEGE, TARGET, p),
    }
}

// The n members that stand from a byte of the block on.
fn put_members(
    output: &mut [u8],
    start: usize,
    names: &Names<'_>,
    kind: ExclusionKind,
    b: &[u8; BLOCK_BYTES],
    members: usize,
    n: usize,
) -> Placed
    requires start_bound { start + most_members_bytes < 4294967296 }
    requires n_le_most_members { (n ≤ most_members) × (members + member_bytes * most_members ≤ length b.now) }
    ensures { Puts most_members_bytes output.old start (members_text names.now.list.now (exclusion_code kind) (λ i. privilege_at b.now (members + member_bytes * i)) n) (members_lost names.now.list.now (exclusion_code kind) (λ i. privilege_at b.now (members + member_bytes * i)) n) output.new result }
{
    let mut at = start;
    let mut named = Ok(());
    for i in 0..n {
        let p = Privilege::read(b, members + MEMBER_BYTES * i);
        let member = put_member(output, at, names, kind, p);
        at = member.next;
        named = named.and(member.named);
    }
    Placed { next: at, named }
}

// One of two fixed pieces: that of roles, or that of privileges.
fn by_kind<'a>(kind: ExclusionKind, roles: &'a [u8], privileges: &'a [u8]) -> &'a [u8]
    requires { (length roles.now ≤ most_word_bytes) × (length privileges.now ≤ most_word_bytes) }
    ensures { (result.now ≡ cond (eqb (exclusion_code kind) 1) roles.now privileges.now) × (length result.now ≤ most_word_bytes) }
{
    match kind {
        ExclusionKind::Roles => roles,
        ExclusionKind::Privileges => privileges,
    }
}

// The start of an exclusion, with m as one digit.
fn put_opening(output: &mut [u8], at: usize, kind: ExclusionKind, m: u8) -> usize
    requires { (m < 10) × (at + most_opening_bytes < 4294967296) }
    ensures { Lays most_opening_bytes output.old at (opening_text (exclusion_code kind) m) output.new result }
{
    let first = put(output, at, by_kind(kind, ROLES, PRIVILEGES));
    let second = put(output, first, &[b'0' + m]);
    put(output, second, TAG_END)
}

// The kind of an exclusion by its byte, of which the text asks only whether it is that of roles.
fn kind_of(byte: u8) -> ExclusionKind
    ensures { eqb (exclusion_code result) 1 ≡ eqb byte 1 }
{
    if byte == OF_ROLES {
        ExclusionKind::Roles
    } else {
        ExclusionKind::Privileges
    }
}

// Exclusion e of a rule's block.
pub fn put_exclusion(
    output: &mut [u8],
    at: usize,
    names: &Names<'_>,
    b: &[u8; BLOCK_BYTES],
    e: usize,
) -> Placed
    requires at_bound { at + most_exclusion_bytes < 4294967296 }
    requires e_lt { (e < most_exclusions) × Countable (exclusion_at b.now e) }
    ensures { Puts most_exclusion_bytes output.old at (exclusion_text names.now.list.now (exclusion_at b.now e)) (exclusion_lost names.now.list.now (exclusion_at b.now e)) output.new result }
{
    let begin = EXCLUSION_BYTES * e;
    let kind = kind_of(b[EXCLUSION_KIND_AT + begin]);
    let n = usize::from(b[EXCLUSION_N_AT + begin]);
    let first = put_opening(output, at, kind, b[EXCLUSION_M_AT + begin]);
    let members = put_members(output, first, names, kind, b, MEMBERS_AT + begin, n);
    Placed {
        next: put(
            output,
            members.next,
            by_kind(kind, ROLES_END, PRIVILEGES_END),
        ),
        named: members.named,
    }
}
