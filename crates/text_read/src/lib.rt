// Reading rules from a text: what its tags say, taken into blocks.
#![tactic(auto)]

mod in_turn;
mod levels;
mod look_up;
pub mod read;
mod sheet;
mod source;
mod turns;
