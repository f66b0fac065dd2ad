// Unicode's tables: the class and width of a scalar by a version of the standard.
//
// Maintenance: a version is added so (VERSION is 151 for Unicode 15.1, FOLDER has its data files).
// 1. `tools/unicode-table VERSION FOLDER` writes src/table_VERSION.rt. A name that the version adds to a file is refused, 13: see what it means
//    for the classes in specs/Classes.antt first. Nothing else stands in that file, and nothing in it is changed by hand.
// 2. `tools/unicode-lookup VERSION` writes from it the table that the contracts name, specs/TableVERSION.antt, the lookup and its proofs.
//    Name the new modules below, in specs/Lib.antt and in proofs/Lib.antt.
// 3. `rt fmt`, `rt check unicode`: the table ascends by one computed test. `tests/unicode-table VERSION FOLDER` reads the files once more, in another way.
// Look at the rows that differ from the version before, and at what crates/text says of ranges of scalars. Table.antt, its laws and rows.rt stay.
#![tactic(auto)]

pub mod lookup_150;
mod rows;
mod table_150;
