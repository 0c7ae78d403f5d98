// Table text in, sheet text out.
#![tactic(auto)]

pub mod cut;
pub mod digits;
pub mod fault;
pub mod form;
pub mod line;
pub mod part;
pub mod reader;
pub mod sheet;
pub mod table;
