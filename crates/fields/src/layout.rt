// The sizes and offsets of document 01's images, each named once. format/specs/Layout.antt has the same for the definitions.

// ---- blocks

// "Blocks of 512 bytes", of which "bytes 504 to 511 are the check" over the words before them.
pub const BLOCK_BYTES: usize = 512;

pub const CHECK_AT: usize = 504;

pub const CHECK_B_AT: usize = 508;

pub const WORD_BYTES: usize = 4;

pub const CHECKED_WORDS: usize = CHECK_AT / WORD_BYTES;

// "bytes 0-3 kind .., 4-5 block number from 0, 6-7 blocks in all"
pub const KIND_AT: usize = 0;

pub const NUMBER_AT: usize = 4;

pub const TOTAL_AT: usize = 6;

pub const RULE_KIND: u32 = 1;

pub const TABLE_KIND: u32 = 2;

pub const PERMISSION_KIND: u32 = 3;

pub const POLICY_BLOCKS: usize = 64;

pub const TABLE_BLOCKS: usize = 128;

// ---- the rule block

pub const MOST_RULES: u32 = 32;

pub const MOST_LEVELS: usize = 4;

pub const MOST_EXCLUSIONS: usize = 8;

pub const MOST_MEMBERS: usize = 8;

pub const HIGHEST_ROLE: u32 = 32;

pub const DEPTH_AT: usize = 8;

pub const EXCLUSIONS_AT: usize = 9;

pub const HAS_FIRST_AT: usize = 10;

pub const HAS_LAST_AT: usize = 11;

// The bytes between the flags and the levels are not named.
pub const RULE_SPARE_AT: usize = 12;

pub const RULE_SPARE_BYTES: usize = 4;

// "four levels of 8: type (2), mark (1), zero (1), value (2), zero (2)": where each field of the first level stands.
pub const LEVEL_BYTES: usize = 8;

pub const LEVEL_TYPE_AT: usize = 16;

pub const LEVEL_MARK_AT: usize = 18;

pub const LEVEL_PAD_AT: usize = 19;

pub const LEVEL_VALUE_AT: usize = 20;

pub const LEVEL_TAIL_AT: usize = 22;

// "Marks: 1 fixed .., 2 every, 3 each", and 4 a range, whose low value stands where the value does and whose high one is the level's tail (W4)
pub const FIXED: u8 = 1;

pub const EVERY: u8 = 2;

pub const EACH: u8 = 3;

pub const RANGE: u8 = 4;

pub const FIRST_STEP_AT: usize = 48;

pub const LAST_STEP_AT: usize = 52;

// "eight exclusions of 36: kind (1), m (1), n (1), zero (1), eight members of 4": where each field of the first one stands.
pub const EXCLUSION_BYTES: usize = 36;

pub const EXCLUSION_KIND_AT: usize = 56;

pub const EXCLUSION_M_AT: usize = 57;

pub const EXCLUSION_N_AT: usize = 58;

pub const EXCLUSION_PAD_AT: usize = 59;

pub const MEMBERS_AT: usize = 60;

pub const MEMBER_BYTES: usize = 4;

pub const MEMBERS_BYTES: usize = MOST_MEMBERS * MEMBER_BYTES;

// "members are roles 1 to 32 (2), zero (2)": how far behind a member's role its zero stands.
pub const MEMBER_PAD: usize = 2;

// "Exclusion kind 1: members are roles .. Kind 2: operation, target"
pub const OF_ROLES: u8 = 1;

pub const OF_PRIVILEGES: u8 = 2;

// The bytes between the exclusions and the check are not named.
pub const RULE_TAIL_AT: usize = EXCLUSION_KIND_AT + MOST_EXCLUSIONS * EXCLUSION_BYTES;

pub const RULE_TAIL_BYTES: usize = CHECK_AT - RULE_TAIL_AT;

// ---- the permission block: "8-9 number of entries, 0 to 61; from byte 16 entries of four 2-byte fields"

pub const MOST_ENTRIES: usize = 61;

pub const ENTRY_BYTES: usize = 8;

pub const ENTRY_ROLE_AT: usize = 16;

pub const ENTRY_PRIVILEGE_AT: usize = 18;

pub const ENTRY_PAD_AT: usize = 22;

// The entries have all the bytes up to the check.
pub const ENTRIES_BYTES: usize = CHECK_AT - ENTRY_ROLE_AT;

// ---- permission and table blocks: "8-9" is a number, and the bytes behind it are spare

pub const COUNT_AT: usize = 8;

pub const SPARE_AT: usize = 10;

pub const SPARE_BYTES: usize = 6;

// ---- the request: "user (4, from 1), active roles (4, ..), operation (2), target (2), four context levels of type (2), value (2)"

pub const REQUEST_BYTES: usize = 28;

pub const REQUEST_WORDS: usize = 7;

pub const ROLES_AT: usize = 4;

pub const PRIVILEGE_AT: usize = 8;

pub const CONTEXT_AT: usize = 12;

pub const CONTEXT_BYTES: usize = 16;

pub const CONTEXT_LEVEL_BYTES: usize = 4;

pub const CONTEXT_VALUE_AT: usize = 14;

// ---- the table block: "16-23 the stamp, a then b; 15 records from byte 24". "A record is the request and 4 bytes of marks".

pub const STAMP_AT: usize = 16;

pub const STAMP_B_AT: usize = 20;

pub const RECORDS_AT: usize = 24;

pub const RECORD_BYTES: usize = 32;

pub const MARKS_AT: usize = 28;
