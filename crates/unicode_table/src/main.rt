// The program `unicode_table`: the constants of a table of Unicode, made from the Unicode files.
//
// unicode_table GraphemeBreakProperty EastAsianWidth emoji-data [DerivedCoreProperties]: the rows of equal class, width and, with the fourth
// file, conjunct value; `refused 13` where a line is of another form, `refused 14` where two ranges of one property overlap.
#![tactic(auto)]

mod files;
mod table;

ghost use Rattle.unicode_table.specs.Printed.{Begun, Handed, Made};
ghost use Rattle.unicode_io.specs.Generator.Laws.{printed_of};
ghost use Rattle.unicode_io.specs.Reading.{state_of};

use system::argument_count;
use unicode_io::cells::classify;
use unicode_io::reading::Reading;

fn usage(rt: &HostRuntime) {
    let _ = rt.eprint(
        "usage: unicode_table GraphemeBreakProperty EastAsianWidth emoji-data [DerivedCoreProperties]\n",
    );
}

// Whether the files could be read, and whether the system took all that was printed.
#[derive(Clone, Copy)]
struct Outcome {
    read: bool,
    taken: bool,
}

// What was read as a table, or a refusal.
fn print(rt: &HostRuntime, cells: &mut [u32], reading: Reading) -> bool
    ensures { Handed (printed_of (state_of reading cells.old)) result }
{
    if let Err(reason) = reading.refusal() {
        return table::refuse(rt, reason);
    }
    classify(cells);
    table::print(rt, cells)
}

// The table that so many files make, or a refusal.
#[tactic(auto, using(crate::specs::Printed::Laws::made, crate::specs::Printed::Laws::unmade))]
fn make(rt: &HostRuntime, cells: &mut [u32], count: usize) -> Outcome
    requires { Begun cells.old count }
    ensures { Made count result }
{
    match files::read_all(rt, cells, count) {
        Ok(reading) => Outcome {
            read: true,
            taken: print(rt, cells, reading),
        },
        Err(_) => Outcome {
            read: false,
            taken: false,
        },
    }
}

fn main(rt: HostRuntime) {
    let count = argument_count(&rt);
    if count < 4 || 5 < count {
        usage(&rt);
        return;
    }
    let mut cells = [0u32; 1114112];
    make(&rt, &mut cells, count - 1);
}
