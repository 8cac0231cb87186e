// The fixed pieces of the spelling.

pub const SET: &[u8] = b"<MSoDPolicySet>";

pub const SET_END: &[u8] = b"</MSoDPolicySet>";

pub const RULE: &[u8] = b"<MSoDPolicy BusinessContext=\"";

pub const TAG_END: &[u8] = b"\">";

pub const RULE_END: &[u8] = b"</MSoDPolicy>";

pub const FIRST_STEP: &[u8] = b"<FirstStep operation=\"";

pub const LAST_STEP: &[u8] = b"<LastStep operation=\"";

pub const TARGET_URI: &[u8] = b"\" targetURI=\"";

pub const ELEMENT_END: &[u8] = b"\"/>";

pub const ROLES: &[u8] = b"<MMER ForbiddenCardinality=\"";

pub const PRIVILEGES: &[u8] = b"<MMEP ForbiddenCardinality=\"";

pub const ROLES_END: &[u8] = b"</MMER>";

pub const PRIVILEGES_END: &[u8] = b"</MMEP>";

pub const ROLE: &[u8] = b"<Role type=\"role\" value=\"";

pub const PRIVILEGE: &[u8] = b"<Operation value=\"";

pub const TARGET: &[u8] = b"\" target=\"";

pub const COMMA: &[u8] = b",";

pub const EQUALS: &[u8] = b"=";

pub const EVERY: &[u8] = b"*";

pub const EACH: &[u8] = b"!";
