// Tables with the sheets that the rules give them.
#![tactic(auto)]

#[cfg(test)]
mod tests;
