// What readers and writers of the images share: numbers in bytes, the numbers that must not mix, the sizes and offsets of
// document 01's layout, and the fields of a request.
#![tactic(auto)]

pub mod blocks;
pub mod field;
pub mod kind;
pub mod layout;
pub mod number;
pub mod privilege;
pub mod request;
pub mod sets;
pub mod tables;
