// Lines of one mark, alone and after the letter `a`, drawn in windows: whole change lists. The functions return how many were compared.
ghost use Rattle.std.specs.Prelude.{◌≡◌, ◌≤◌, length};
ghost use Rattle.marks.specs.Composed.{continuation_of};

use super::STDOUT_FILENO;
use super::composed::{push_byte_mark, push_drawing, push_scalar_mark};
use check::same;
use drawing::numbers::draw_window_numbers;
use std::num::wrapping_add_u32;

fn print_line(line: &[u8]) {
    for byte in line {
        io::print_hex(STDOUT_FILENO, *byte as u64, 2);
    }
}

// The line, and the window that its list differs in.
fn print_different(line: &[u8], start: u8, end: u8) {
    io::write_all(STDOUT_FILENO, b"different ");
    print_line(line);
    io::write_all(STDOUT_FILENO, b" ");
    io::print_decimal(STDOUT_FILENO, start as u64);
    io::write_all(STDOUT_FILENO, b" ");
    io::print_decimal(STDOUT_FILENO, end as u64);
    io::write_all(STDOUT_FILENO, b"\n");
}

// One window of a line whose mark stands at a column.
fn compare(line: &[u8], mark: &[u8], column: usize, start: u8, end: u8) {
    let mut conv = [170u8; 64];
    let mut spans = [170usize; 16];
    let mut before = [0u8; 512];
    let mut after = [170u8; 512];
    let matches = [0usize; 1];
    let n = push_drawing(&mut before, mark, column, start, end);
    let a = draw_window_numbers(
        0,
        line,
        &matches[..0],
        usize::MAX,
        start as usize,
        end as usize,
        &mut conv,
        &mut spans,
        &mut after,
    );
    if (a.number == 0) & (a.count == n) {
        if same(&before, &after) {
            return;
        }
    }
    print_different(line, start, end);
}

// Every window that ends there.
fn compare_starts(line: &[u8], mark: &[u8], column: usize, end: u8) -> u32 {
    compare(line, mark, column, 0, end);
    let mut n = 1;
    for start in 1..end {
        compare(line, mark, column, start, end);
        n = wrapping_add_u32(n, 1);
    }
    n
}

// Every window up to 12 columns, past the longest mark.
fn compare_line(line: &[u8], mark: &[u8], column: usize) -> u32 {
    let mut n = 0;
    for end in 0..=12 {
        n = wrapping_add_u32(n, compare_starts(line, mark, column, end));
    }
    n
}

// A line that begins with the letter, without it and with it; only without where what follows would join it, or erase it.
fn compare_both(line: &[u8], mark: &[u8], joins: bool) -> u32
    requires { 1 ≤ length line.now }
{
    let n = compare_line(&line[1..], mark, 0);
    if joins {
        return n;
    }
    wrapping_add_u32(n, compare_line(line, mark, 1))
}

fn compare_byte(byte: u8) -> u32 {
    let line = [0x61u8, byte];
    let mut mark = [0u8; 10];
    let n = push_byte_mark(&mut mark, byte);
    compare_both(&line, &mark[..n], byte == 8)
}

fn compare_byte_range(first: u8, last: u8) -> u32 {
    let mut n = 0;
    for byte in first..=last {
        n = wrapping_add_u32(n, compare_byte(byte));
    }
    n
}

// Every byte that has a mark; 08 converts to itself alone.
pub(crate) fn compare_bytes() -> u32 {
    let a = compare_byte_range(0x00, 0x08);
    let b = wrapping_add_u32(a, compare_byte_range(0x0B, 0x1F));
    let c = wrapping_add_u32(b, compare_byte_range(0x7F, 0x7F));
    wrapping_add_u32(c, compare_byte_range(0x80, 0xFF))
}

// A scalar by the line of its bytes after the letter.
fn compare_scalar(line: &[u8], code: u32, joins: bool) -> u32
    requires { 1 ≤ length line.now }
{
    let mut mark = [0u8; 10];
    let n = push_scalar_mark(&mut mark, code);
    compare_both(line, &mark[..n], joins)
}

// Byte k of a sequence's continuation bytes, from the right.
fn continuation(code: u32, k: u32) -> u8
    ensures { result ≡ continuation_of code k }
{
    if k == 0 {
        return (0x80 + code % 64) as u8;
    }
    if k == 1 {
        return (0x80 + code / 64 % 64) as u8;
    }
    (0x80 + code / 4096 % 64) as u8
}

// A scalar by its bytes, two to four of them.
fn compare_code(code: u32, joins: bool) -> u32 {
    let last = continuation(code, 0);
    if code < 0x800 {
        let line = [0x61u8, (0xC0 + code / 64 % 32) as u8, last];
        return compare_scalar(&line, code, joins);
    }
    let second = continuation(code, 1);
    if code < 0x10000 {
        let line = [0x61u8, (0xE0 + code / 4096 % 16) as u8, second, last];
        return compare_scalar(&line, code, joins);
    }
    let third = continuation(code, 2);
    let line = [
        0x61u8,
        (0xF0 + code / 0x40000 % 8) as u8,
        third,
        second,
        last,
    ];
    compare_scalar(&line, code, joins)
}

fn compare_range(first: u32, last: u32, joins: bool) -> u32
    requires { last ≤ 0x10FFFF }
{
    let mut n = 0;
    for code in first..=last {
        n = wrapping_add_u32(n, compare_code(code, joins));
    }
    n
}

// Controls, and vowels and trailing consonants of Hangul, which no letter joins.
fn compare_apart() -> u32 {
    let a = compare_range(0x80, 0x9F, false);
    let b = wrapping_add_u32(a, compare_range(0x1160, 0x11FF, false));
    let c = wrapping_add_u32(b, compare_range(0x200B, 0x200B, false));
    let d = wrapping_add_u32(c, compare_range(0x200E, 0x200F, false));
    let e = wrapping_add_u32(d, compare_range(0x2028, 0x202E, false));
    let f = wrapping_add_u32(e, compare_range(0x2060, 0x206F, false));
    let g = wrapping_add_u32(f, compare_range(0xD7B0, 0xD7C6, false));
    let h = wrapping_add_u32(g, compare_range(0xD7CB, 0xD7FB, false));
    wrapping_add_u32(h, compare_range(0xFEFF, 0xFEFF, false))
}

// Extending marks and the joiner, which have marks alone; the last are of five digits.
fn compare_joining() -> u32 {
    let a = compare_range(0x0300, 0x036F, true);
    let b = wrapping_add_u32(a, compare_range(0x0483, 0x0489, true));
    let c = wrapping_add_u32(b, compare_range(0x1DC0, 0x1DFF, true));
    let d = wrapping_add_u32(c, compare_range(0x200C, 0x200D, true));
    let e = wrapping_add_u32(d, compare_range(0x20D0, 0x20F0, true));
    let f = wrapping_add_u32(e, compare_range(0xFE00, 0xFE0F, true));
    let g = wrapping_add_u32(f, compare_range(0xFE20, 0xFE2F, true));
    wrapping_add_u32(g, compare_range(0xE0100, 0xE01EF, true))
}

// Every Unprintable scalar; none has six digits.
pub(crate) fn compare_scalars() -> u32 {
    let n = compare_apart();
    wrapping_add_u32(n, compare_joining())
}
