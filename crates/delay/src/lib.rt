// The delay of one message: how long it may take at most from its release to the end of its transmission.
#![tactic(auto)]

pub mod bus;
pub mod entry;
pub mod order;
pub mod search;
