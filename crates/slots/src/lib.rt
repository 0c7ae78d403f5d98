// The slot rules of the dynamic segment: what each call of a bench does, and that no release is ever late.
#![tactic(auto)]

pub mod calls;
pub mod position;
pub mod rules;
