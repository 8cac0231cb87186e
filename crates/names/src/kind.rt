// The kinds of names.
ghost use Rattle.std.specs.Prelude.{◌≡◌};
ghost use Rattle.names.specs.Code.{name_code};

use crate::layout::{OPERATION_NAMES, ROLE_NAMES, TARGET_NAMES, TYPE_NAMES, VALUE_NAMES};

// What an entry names.
#[derive(Clone, Copy, Debug, PartialEq, Eq)]
pub enum NameKind {
    ContextType,
    ContextValue,
    Role,
    Operation,
    Target,
}

impl NameKind {
    // The number of the kind in an entry.
    pub fn code(self) -> u8
        ensures { result ≡ name_code self }
    {
        match self {
            NameKind::ContextType => TYPE_NAMES,
            NameKind::ContextValue => VALUE_NAMES,
            NameKind::Role => ROLE_NAMES,
            NameKind::Operation => OPERATION_NAMES,
            NameKind::Target => TARGET_NAMES,
        }
    }
}
