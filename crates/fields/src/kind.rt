// The kinds that an image tells by the number in a byte.
ghost use Rattle.std.specs.Prelude.{◌≡◌};
ghost use Rattle.fields.specs.Code.{exclusion_code, mark_code};

use crate::layout::{EACH, EVERY, FIXED, OF_PRIVILEGES, OF_ROLES, RANGE};

// What the members of an exclusion are.
#[derive(Clone, Copy, Debug, PartialEq, Eq)]
pub enum ExclusionKind {
    Roles,
    Privileges,
}

impl ExclusionKind {
    pub fn code(self) -> u8
        ensures { result ≡ exclusion_code self }
    {
        match self {
            ExclusionKind::Roles => OF_ROLES,
            ExclusionKind::Privileges => OF_PRIVILEGES,
        }
    }
}

// The mark of a rule's level.
#[derive(Clone, Copy, Debug, PartialEq, Eq)]
pub enum Mark {
    Fixed,
    Every,
    Each,
    Range,
}

impl Mark {
    pub fn code(self) -> u8
        ensures { result ≡ mark_code self }
    {
        match self {
            Mark::Fixed => FIXED,
            Mark::Every => EVERY,
            Mark::Each => EACH,
            Mark::Range => RANGE,
        }
    }
}
