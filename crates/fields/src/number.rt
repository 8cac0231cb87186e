// The numbers of document 01 that come from separate lists: each has a type of its own, so that one passed for another does not build.

// The number of a user, from 1.
#[derive(Clone, Copy, Debug, PartialEq, Eq)]
pub struct User(pub u32);

// The number of a role, 1 to 32.
#[derive(Clone, Copy, Debug, PartialEq, Eq)]
pub struct Role(pub u32);

// The number of an operation, from 1.
#[derive(Clone, Copy, Debug, PartialEq, Eq)]
pub struct Operation(pub u16);

// The number of a target, from 1.
#[derive(Clone, Copy, Debug, PartialEq, Eq)]
pub struct Target(pub u16);
