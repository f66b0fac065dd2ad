// Tables made from the Unicode files, over slices: the lines of a file byte by byte, the cells that they fill, the rows of equal
// cells and the text of the constants.
#![tactic(auto)]

pub mod cells;
pub mod line;
pub mod names;
pub mod output;
pub mod reading;
pub mod rows;
