// Privileges: an operation with a target.
ghost use Rattle.std.specs.Prelude.{◌≡◌, ◌+◌, ◌<◌, length};
ghost use Rattle.format.specs.Rule.{privilege_at, full_privilege, blank_privilege, same_privilege};
ghost use Rattle.fields.specs.Code.{privilege_of, packed_of};

use crate::field::u16_at;
use crate::number::{Operation, Target};

#[derive(Clone, Copy, Debug, PartialEq, Eq)]
pub struct Privilege {
    pub operation: Operation,
    pub target: Target,
}

// A privilege in one number, as its bytes stand: many are compared at once so. Only a privilege makes one.
#[derive(Clone, Copy, Debug, PartialEq, Eq)]
pub struct Packed(pub u32);

// The operation at a byte.
fn operation_at(s: &[u8], at: usize) -> Operation
    requires { at + 1 < length s.now }
    ensures { result.0 ≡ (privilege_at s.now at).operation }
{
    Operation(u16_at(s, at) as u16)
}

// The target that stands behind the operation at a byte.
fn target_at(s: &[u8], at: usize) -> Target
    requires { at + 3 < length s.now }
    ensures { result.0 ≡ (privilege_at s.now at).target }
{
    Target(u16_at(s, at + 2) as u16)
}

impl Privilege {
    // The privilege at a byte of an image.
    pub fn read(s: &[u8], at: usize) -> Self
        requires { at + 3 < length s.now }
        ensures { privilege_of result ≡ privilege_at s.now at }
    {
        Privilege {
            operation: operation_at(s, at),
            target: target_at(s, at),
        }
    }

    // Both numbers are from 1.
    pub fn full(self) -> bool
        ensures { result ≡ full_privilege (privilege_of self) }
    {
        (self.operation.0 != 0) & (self.target.0 != 0)
    }

    // Both numbers are zero.
    pub fn blank(self) -> bool
        ensures { result ≡ blank_privilege (privilege_of self) }
    {
        (self.operation.0 == 0) & (self.target.0 == 0)
    }

    // Operation and target in one number.
    pub fn packed(self) -> Packed
        ensures { result.0 ≡ packed_of (privilege_of self) }
    {
        Packed(u32::from(self.operation.0) + 65536 * u32::from(self.target.0))
    }
}

// The privilege at a byte has both numbers from 1.
pub fn full(b: &[u8], at: usize) -> bool
    requires { at + 3 < length b.now }
    ensures { result ≡ full_privilege (privilege_at b.now at) }
{
    Privilege::read(b, at).full()
}

// It has neither.
pub fn blank(b: &[u8], at: usize) -> bool
    requires { at + 3 < length b.now }
    ensures { result ≡ blank_privilege (privilege_at b.now at) }
{
    Privilege::read(b, at).blank()
}

// The privileges at two bytes are one.
pub fn same(b: &[u8], at: usize, other: usize) -> bool
    requires { (at + 3 < length b.now) × (other + 3 < length b.now) }
    ensures { result ≡ same_privilege (privilege_at b.now at) (privilege_at b.now other) }
{
    Privilege::read(b, at) == Privilege::read(b, other)
}
