// Calls of send buffers with the answers that the rules give them.
#![tactic(auto)]

#[cfg(test)]
mod tests;
