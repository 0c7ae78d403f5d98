// Benches set up and run, with the answers that the rules give.
#![tactic(auto)]

#[cfg(test)]
mod tests;
