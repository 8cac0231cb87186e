// The sizes and offsets of a list of names, each named once. xml/specs/Names.antt has the same for the definitions.

// "a lent list of 64-byte entries, at most 1,024"
pub const ENTRY_BYTES: usize = 64;

pub const MOST_NAMES: usize = 1024;

// "kind (..), length 1 to 60, number (2 bytes, little-endian, from 1), then ASCII bytes": where an entry has them
pub const LENGTH_AT: usize = 1;

pub const NUMBER_AT: usize = 2;

pub const BYTES_AT: usize = 4;

pub const MOST_NAME_BYTES: usize = 60;

// "kind (1 context type, 2 context value, 3 role, 4 operation, 5 target)"
pub const TYPE_NAMES: u8 = 1;

pub const VALUE_NAMES: u8 = 2;

pub const ROLE_NAMES: u8 = 3;

pub const OPERATION_NAMES: u8 = 4;

pub const TARGET_NAMES: u8 = 5;
