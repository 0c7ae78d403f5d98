// What all layers share: the limits of each field, and what a refusal says.
#![tactic(auto)]

pub mod limits;
pub mod refusal;
