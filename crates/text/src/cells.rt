// Overstruck reports (document 02, U11): cells of two bytes, a byte and its style, written with backspaces.
ghost use Rattle.std.specs.Prelude.{◌≡◌, [], ◌∷◌, length};
ghost use Rattle.buffer.specs.Sink.{sink, emit};
ghost use Rattle.buffer.specs.Numbers.{smaller_of};
ghost use Rattle.text.specs.Cells.{are_cells, cell_style, is_cell, overstruck, overstruck_cells};
ghost use Rattle.text.specs.Cells.Code.{overstruck_length};

use buffer::push_element;

// Is this a cell: a byte 20 to 7E except 5F, and a style 0 to 3?
fn is_cell(byte: u8, style: u8) -> bool
    ensures { result ≡ is_cell byte style }
{
    ((0x20 <= byte) & (byte <= 0x7E)) & ((byte != 0x5F) & (style <= 3))
}

// Question 16: are the bytes whole cells?
pub(crate) fn are_cells(cells: &[u8]) -> bool
    ensures { result ≡ are_cells cells.now }
{
    let mut left = cells;
    while let [byte, style, rest @ ..] = left {
        if !is_cell(*byte, *style) {
            return false;
        }
        left = rest;
    }
    left.is_empty()
}

// How many bytes are written for a cell of this style.
fn overstruck_len(style: u8) -> usize
    ensures { result ≡ overstruck_length (cell_style style) }
{
    match style {
        0 => 1,
        1 | 2 => 3,
        _ => 5,
    }
}

// How many bytes are written for the cells, counted up to 4,097.
pub(crate) fn written_len(cells: &[u8]) -> usize
    ensures { result ≡ smaller_of (length (overstruck_cells cells.now)) 4097 }
{
    let mut n = 0;
    let mut left = cells;
    while let [_, style, rest @ ..] = left {
        n += overstruck_len(*style);
        if 4096 < n {
            return 4097;
        }
        left = rest;
    }
    n
}

// A byte struck over another.
fn push_struck(out: &mut [u8], at: usize, under: u8, upper: u8) -> usize
    ensures { sink out.new result ≡ emit (sink out.old at) (under ∷ 0x08 ∷ upper ∷ []) }
{
    let a = push_element(out, at, under);
    let b = push_element(out, a, 0x08);
    push_element(out, b, upper)
}

// A byte in a style.
fn push_overstruck(out: &mut [u8], at: usize, byte: u8, style: u8) -> usize
    ensures { sink out.new result ≡ emit (sink out.old at) (overstruck (cell_style style) byte) }
{
    match style {
        0 => push_element(out, at, byte),
        1 => push_struck(out, at, byte, byte),
        2 => push_struck(out, at, 0x5F, byte),
        _ => {
            let a = push_struck(out, at, 0x5F, byte);
            let b = push_element(out, a, 0x08);
            push_element(out, b, byte)
        }
    }
}

// What is written for the cells.
pub(crate) fn push_cells(out: &mut [u8], cells: &[u8]) -> usize
    ensures { sink out.new result ≡ emit (sink out.old 0) (overstruck_cells cells.now) }
{
    let mut at = 0;
    let mut left = cells;
    while let [byte, style, rest @ ..] = left {
        at = push_overstruck(out, at, *byte, *style);
        left = rest;
    }
    at
}
