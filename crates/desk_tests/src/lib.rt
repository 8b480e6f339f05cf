// Tests of the state that the console keeps.
#![tactic(auto)]

#[cfg(test)]
mod tests;
