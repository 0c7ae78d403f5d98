// What a text is answered with, and that the rules allow no other answer.
#![tactic(auto)]

pub mod print;
pub mod sheet;
