// Release books: which releases of a message may come, and how many.
#![tactic(auto)]

pub mod book;
pub mod joint;
pub mod periodic;
mod rows;
pub mod window;
