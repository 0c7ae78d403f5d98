// A table text as its lines, and the sheet that they make.
#![tactic(auto)]

pub mod sheet;
pub mod table;
#[cfg(test)]
mod tests;
