// What is printed of a call: its line, and checksums of what it left. The output that lines go to, and reading a file's bytes.
#![tactic(auto)]

pub mod checksum;
pub mod input;
pub mod line;
pub mod output;
#[cfg(test)]
mod tests;
