// A row in bytes: each cell's cluster with its length, and its attribute body.
ghost use Rattle.std.specs.Prelude.{◌≡◌, ◌*◌, ◌≤◌, length, take, replicate};
ghost use Rattle.buffer.specs.Sink.{sink, emit};
ghost use Rattle.screen.specs.Row.{plain, with_background, row_bytes};
ghost use Rattle.screen.specs.Row.Contracts.{part, body_at, blank_at, cell_in, cells_in, CellReady};
ghost use Rattle.screen.specs.Screen.{row_of, RowReady};
ghost use Rattle.screen.specs.Output.{cell_bytes};

use super::BODY_SIZE;
use super::row::part_len;
use super::screen::Screen;
use buffer::{push_elements, push_le4, push_part};

// The attribute body at a place, 0 for default.
fn write_body(list: &[u8], place: usize, out: &mut [u8], at: usize) -> usize
    ensures { sink out.new result ≡ emit (sink out.old at) (body_at list.now place) }
{
    if place == 0 {
        let plain = [0u8; BODY_SIZE];
        return push_elements(out, at, &plain);
    }
    push_part(out, at, list, place, BODY_SIZE)
}

// Default attributes with the background at a place.
fn write_background(list: &[u8], place: usize, out: &mut [u8], at: usize) -> usize
    ensures { sink out.new result ≡ emit (sink out.old at) (with_background (part list.now place 4)) }
{
    let zeros = [0u8; 13];
    let a = push_elements(out, at, &zeros[..8]);
    let b = push_part(out, a, list, place, 4);
    push_elements(out, b, &zeros)
}

// A blank, with the background at a place.
fn write_blank(list: &[u8], place: usize, out: &mut [u8], at: usize) -> usize
    ensures { sink out.new result ≡ emit (sink out.old at) (cell_bytes (blank_at list.now place)) }
{
    let space = [1u8, 0, 0, 0, 0x20];
    let a = push_elements(out, at, &space);
    if place == 0 {
        return write_body(list, 0, out, a);
    }
    write_background(list, place, out, a)
}

// The cell in a column.
fn write_cell(list: &[u8], row: &[usize], i: usize, out: &mut [u8], at: usize) -> usize
    requires { CellReady row.now i }
    ensures { sink out.new result ≡ emit (sink out.old at) (cell_bytes (cell_in list.now row.now i)) }
{
    let cluster = row[3 * i];
    let len = row[3 * i + 1];
    let body = row[3 * i + 2];
    if cluster == 0 {
        return write_blank(list, body, out, at);
    }
    let a = push_le4(out, at, part_len(list, cluster, len));
    let b = push_part(out, a, list, cluster, len);
    write_body(list, body, out, b)
}

// The cells up to a column.
fn write_cells(list: &[u8], row: &[usize], end: usize, out: &mut [u8]) -> usize
    requires { 3 * end ≤ length row.now }
    ensures { sink out.new result ≡ emit (sink out.old 0) (row_bytes (take end (cells_in list.now row.now))) }
{
    let mut at = 0;
    for i in 0..end {
        at = write_cell(list, row, i, out, at);
    }
    at
}

// So many blanks.
fn write_blanks(list: &[u8], place: usize, count: usize, out: &mut [u8], start: usize) -> usize
    ensures { sink out.new result ≡ emit (sink out.old start) (row_bytes (replicate count (blank_at list.now place))) }
{
    let mut at = start;
    for _ in 0..count {
        at = write_blank(list, place, out, at);
    }
    at
}

// The whole row.
pub(crate) fn write_row(
    list: &[u8],
    row: &[usize],
    width: usize,
    t: Screen,
    out: &mut [u8],
) -> usize
    requires { RowReady width row.now t }
    ensures { sink out.new result ≡ emit (sink out.old 0) (row_bytes (row_of list.now width row.now t)) }
{
    let at = write_cells(list, row, t.end, out);
    write_blanks(list, t.color, width - t.end, out, at)
}
