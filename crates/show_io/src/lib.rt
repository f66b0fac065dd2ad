// The program `show` over slices: its input in parts, what it prints for a line, and screen rows as ANSI text.
#![tactic(auto)]

mod ansi;
mod few_spans;
pub mod input;
pub mod lines;
mod span_text;
