// Drafts and plans: a draft collects a table, a plan is a draft whose every message has a delay within its deadline.
#![tactic(auto)]

pub mod calls;
pub mod draft;
pub mod plan;
mod rows;
