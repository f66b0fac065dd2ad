// What is printed: the rows one by one, or a refusal.
ghost use Rattle.std.specs.Prelude.{take};
ghost use Rattle.unicode_io.specs.Rows.{rows_from};
ghost use Rattle.unicode_io.specs.Output.{row_text, table_text, refusal};
ghost use Rattle.unicode_io.specs.Reading.{number_of};
ghost use Rattle.unicode_table.specs.Printed.{Handed};

use system::fail;
use unicode_io::output::{push_refusal, push_row};
use unicode_io::reading::Refusal;
use unicode_io::rows::{Row, count_rows, next_row};

// The first n bytes, handed to the system; where it does not take them, that is said.
fn written(rt: &HostRuntime, out: &[u8], n: usize) -> bool
    ensures { Handed (take n out.now) result }
{
    if n <= out.len() {
        if let Err(error) = rt.write_all(&out[..n]) {
            fail(rt, b"standard output", error);
            return false;
        }
        return true;
    }
    false
}

pub(crate) fn refuse(rt: &HostRuntime, reason: Refusal) -> bool
    ensures { Handed (refusal (number_of reason)) result }
{
    let mut out = [0u8; 64];
    let n = push_refusal(&mut out, 0, reason.number());
    written(rt, &out, n)
}

// Row i of so many.
fn print_row(rt: &HostRuntime, total: usize, i: usize, row: Row) -> bool
    ensures { Handed (row_text total i row) result }
{
    let mut out = [0u8; 256];
    let n = push_row(&mut out, 0, total, i, row);
    written(rt, &out, n)
}

// All rows, as far as the system takes them.
pub(crate) fn print(rt: &HostRuntime, kinds: &[u32]) -> bool
    ensures { Handed (table_text (rows_from 0 kinds.now)) result }
{
    let total = count_rows(kinds);
    let mut i = 0;
    let mut place = 0;
    while let Some(row) = next_row(kinds, place) {
        if !print_row(rt, total, i, row) {
            return false;
        }
        place = row.end;
        i += 1;
    }
    true
}
