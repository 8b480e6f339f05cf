// Tables of decimals, replies and lines, and two small walks over the commands of a line.
#![tactic(auto)]

#[cfg(test)]
mod tests;
pub mod walks;
