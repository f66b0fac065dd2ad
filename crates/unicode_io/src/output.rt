// The text of the constants.
ghost use Rattle.std.specs.Prelude.{◌≡◌, ◌≤◌};
ghost use Rattle.buffer.specs.Sink.{sink, emit};
ghost use Rattle.unicode_io.specs.Digits.{decimal, hexadecimal};
ghost use Rattle.unicode_io.specs.Output.{number_line, part_size, gap, head, numbers, head_of, foot_of, row_text, refusal};

use super::rows::Row;
use buffer::push_elements;

fn push_decimal(out: &mut [u8], at: usize, n: usize) -> usize
    ensures { sink out.new result ≡ emit (sink out.old at) (decimal n) }
{
    let mut digits = [0u8; 20];
    let k = io::decimal(n as u64, &mut digits);
    push_elements(out, at, &digits[..k])
}

// A number on a line of its own.
fn push_number(out: &mut [u8], at: usize, n: usize) -> usize
    ensures { sink out.new result ≡ emit (sink out.old at) (number_line n) }
{
    let a = push_elements(out, at, b"    0x");
    let b = push_hexadecimal(out, a, n);
    push_elements(out, b, b",\n")
}

fn push_hexadecimal(out: &mut [u8], at: usize, n: usize) -> usize
    ensures { sink out.new result ≡ emit (sink out.old at) (hexadecimal n) }
{
    let mut digits = [0u8; 16];
    let k = io::hex(n as u64, 1, &mut digits);
    push_elements(out, at, &digits[..k])
}

fn push_numbers(out: &mut [u8], at: usize, row: Row) -> usize
    ensures { sink out.new result ≡ emit (sink out.old at) (numbers row) }
{
    let a = push_number(out, at, row.low);
    let b = push_number(out, a, row.end.saturating_sub(1));
    push_number(out, b, row.kind as usize)
}

// A blank line stands between two constants.
fn push_gap(out: &mut [u8], at: usize, part: usize) -> usize
    ensures { sink out.new result ≡ emit (sink out.old at) (gap part) }
{
    if part == 0 {
        return at;
    }
    push_elements(out, at, b"\n")
}

fn push_head(out: &mut [u8], at: usize, part: usize, rows: usize) -> usize
    requires { rows ≤ 1152921504606846976 }
    ensures { sink out.new result ≡ emit (sink out.old at) (head part rows) }
{
    let g = push_gap(out, at, part);
    let a = push_elements(out, g, b"pub(crate) const PART_");
    let b = push_decimal(out, a, part);
    let c = push_elements(out, b, b": [u32; ");
    let d = push_decimal(out, c, rows * 3);
    push_elements(out, d, b"] = [\n")
}

fn part_size(total: usize) -> usize
    ensures { result ≡ part_size total }
{
    total / 64 + 1
}

fn push_head_of(out: &mut [u8], at: usize, total: usize, i: usize) -> usize
    ensures { sink out.new result ≡ emit (sink out.old at) (head_of total i) }
{
    let size = part_size(total);
    if i % size == 0 {
        let n = size.min(total.saturating_sub(i));
        return push_head(out, at, i / size, n);
    }
    at
}

fn push_foot_of(out: &mut [u8], at: usize, total: usize, i: usize) -> usize
    ensures { sink out.new result ≡ emit (sink out.old at) (foot_of total i) }
{
    let size = part_size(total);
    let rest = total.saturating_sub(i);
    if (i % size + 1 == size) | (rest == 1) {
        return push_elements(out, at, b"];\n");
    }
    at
}

// Row i of so many, with what stands before the first and after the last of a part.
pub fn push_row(out: &mut [u8], at: usize, total: usize, i: usize, row: Row) -> usize
    ensures { sink out.new result ≡ emit (sink out.old at) (row_text total i row) }
{
    let a = push_head_of(out, at, total, i);
    let b = push_numbers(out, a, row);
    push_foot_of(out, b, total, i)
}

pub fn push_refusal(out: &mut [u8], at: usize, number: usize) -> usize
    ensures { sink out.new result ≡ emit (sink out.old at) (refusal number) }
{
    let a = push_elements(out, at, b"refused ");
    let b = push_decimal(out, a, number);
    push_elements(out, b, b"\n")
}
