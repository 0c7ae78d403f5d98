// A bench: the dynamic segment played slot by slot, with a plan, a release book and a send buffer.
#![tactic(auto)]

pub mod bench;
pub mod carry;
pub mod run;
pub mod set_up;
