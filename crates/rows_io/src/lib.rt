// The rows program of document 01 over slices: what it reads of its input, part by part, and what it prints.
#![tactic(auto)]

pub mod first_line;
pub mod input;
pub mod output;
