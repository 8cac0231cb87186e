// The fields of a request, and of the request of a record, that begins at a byte.
ghost use Rattle.std.specs.Prelude.{◌≡◌, ◌+◌, ◌≤◌, length};
ghost use Rattle.words.specs.Bytes.{part, u32_at};
ghost use Rattle.format.specs.Layout.{request_bytes, record_bytes};
ghost use Rattle.format.specs.Request.{user as user_of, roles as roles_of};
ghost use Rattle.format.specs.Rule.{full_privilege};
ghost use Rattle.format.specs.Records.{record_from};
ghost use Rattle.fields.specs.Code.{privilege_of, done_by};

use crate::field::u32_at;
use crate::layout::{MARKS_AT, PRIVILEGE_AT, ROLES_AT};
use crate::number::User;
use crate::privilege::{Privilege, full};
use crate::sets::{Roles, RuleSet};

// Who asks.
pub fn user(s: &[u8], at: usize) -> User
    requires { at + request_bytes ≤ length s.now }
    ensures { result.0 ≡ user_of (part s.now at request_bytes) }
{
    User(u32_at(s, at))
}

// The active roles.
pub fn roles(s: &[u8], at: usize) -> Roles
    requires { at + request_bytes ≤ length s.now }
    ensures { result.0 ≡ roles_of (part s.now at request_bytes) }
{
    Roles(u32_at(s, at + ROLES_AT))
}

// What is to be done, and to what.
pub fn privilege(s: &[u8], at: usize) -> Privilege
    requires { at + request_bytes ≤ length s.now }
    ensures { privilege_of result ≡ done_by (part s.now at request_bytes) }
{
    Privilege::read(s, at + PRIVILEGE_AT)
}

// Its operation and target are from 1.
pub fn full_privilege(s: &[u8], at: usize) -> bool
    requires { at + request_bytes ≤ length s.now }
    ensures { result ≡ full_privilege (done_by (part s.now at request_bytes)) }
{
    full(s, at + PRIVILEGE_AT)
}

// The marks of the record that begins at a byte.
pub fn marks(s: &[u8], at: usize) -> RuleSet
    requires { at + record_bytes ≤ length s.now }
    ensures { result.0 ≡ (record_from s.now at).marks }
{
    RuleSet(u32_at(s, at + MARKS_AT))
}
