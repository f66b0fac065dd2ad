// A cell for each scalar: its low byte holds what was read of it (the number of a break class, 16 for a wide one, 32 for
// Extended_Pictographic, 64 times a conjunct value), the bits above stand for the properties of the file that is read.
ghost use Rattle.std.specs.Prelude.{◌≡◌, ◌%◌, ◌<◌, ◌≤◌, map, length};
ghost use Rattle.unicode_io.specs.Cells.{bit_of, is_taken, filled, taken_in, fill, taken, class_of, width_of, kind_of, kept_of, Filled};

use std::num::wrapping_add_u32;

// The bit of a property.
pub(crate) fn bit_of(property: usize) -> u32
    requires { property ≤ 20 }
    ensures { result ≡ bit_of property }
{
    256 << property
}

fn is_taken(bit: u32, c: u32) -> bool
    requires { 0 < bit }
    ensures { result ≡ is_taken bit c }
{
    c / bit % 2 == 1
}

fn filled_cell(bit: u32, weight: u32, c: u32) -> u32
    requires { 0 < bit }
    ensures { result ≡ filled bit weight c }
{
    if is_taken(bit, c) {
        return c;
    }
    wrapping_add_u32(c, weight)
}

// The cells of a range get a property's bit and a value. Was the bit taken in any?
fn fill_all(part: &mut [u32], bit: u32, weight: u32) -> bool
    requires { 0 < bit }
    ensures { Filled (map (filled bit weight) part.old) (taken_in bit part.old) part.new result }
{
    let mut any = false;
    for cell in part {
        any = any | is_taken(bit, *cell);
        *cell = filled_cell(bit, weight, *cell);
    }
    any
}

pub(crate) fn fill_range(cells: &mut [u32], low: usize, high: usize, bit: u32, weight: u32) -> bool
    requires { 0 < bit }
    ensures { Filled (fill bit weight low high cells.old) (taken bit low high cells.old) cells.new result }
{
    if high < low {
        return false;
    }
    if cells.len() <= high {
        return false;
    }
    fill_all(&mut cells[low..high + 1], bit, weight)
}

// The bits of a file's properties are cleared before the next file.
pub fn next_file(cells: &mut [u32])
    ensures { cells.new ≡ map kept_of cells.old }
{
    for cell in cells {
        *cell = *cell % 256;
    }
}

#[tactic(auto, unfolding(crate::specs::Cells::class_of))]
fn class(cell: u32) -> u32
    ensures { result ≡ class_of cell }
{
    match cell % 16 {
        0 if cell / 32 % 2 == 1 => 12,
        0 => 11,
        c @ 1..=11 => c - 1,
        c => c + 1,
    }
}

#[tactic(auto, unfolding(crate::specs::Cells::width_of))]
fn width(cell: u32) -> u32
    ensures { result ≡ width_of cell }
{
    match class(cell) {
        0..=4 | 6 | 7 => 0,
        _ if cell / 16 % 2 == 1 => 2,
        _ => 1,
    }
}

// 64 times the conjunct value, 4 times the class, and the width.
fn kind(cell: u32) -> u32
    ensures { result ≡ kind_of cell }
{
    cell / 64 % 4 * 64 + class(cell) * 4 + width(cell)
}

// Each cell as a kind.
pub fn classify(cells: &mut [u32])
    ensures { cells.new ≡ map kind_of cells.old }
{
    for cell in cells {
        *cell = kind(*cell);
    }
}
