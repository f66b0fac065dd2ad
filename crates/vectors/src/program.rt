// The rows program: an input, handed over in parts, and what is printed for it. The input is some bytes, one byte repeated, and more
// bytes.
ghost use Rattle.std.specs.Prelude.{◌≡◌, ◌-◌};
ghost use Rattle.vectors.specs.Fields.{Filled};
ghost use Rattle.vectors.specs.Program.{input_at, input_len, part_of};

use super::fields;
use super::fields::{field, number};
use super::output::{print, print_hex, print_number};
use buffer::{byte_at, push_element};
use rows_io::input::{Input, begin, with_part};

// The byte at a place of the input.
fn input_byte(prefix: &[u8], byte: u8, times: usize, suffix: &[u8], at: usize) -> u8
    ensures { result ≡ input_at prefix.now byte times suffix.now at }
{
    if at < prefix.len() {
        return prefix[at];
    }
    let behind = at - prefix.len();
    if behind < times {
        return byte;
    }
    byte_at(suffix, behind - times)
}

// How many bytes the input has, as far as a case may have them.
fn input_len(prefix: usize, times: usize, suffix: usize) -> usize
    ensures { result ≡ input_len prefix times suffix }
{
    prefix.min(64) + times.min(10000000) + suffix.min(64)
}

// The bytes from `at` to `end`, as many as `part` holds; how many.
fn fill(
    prefix: &[u8],
    byte: u8,
    times: usize,
    suffix: &[u8],
    at: usize,
    end: usize,
    part: &mut [u8],
) -> usize
    ensures { Filled part.old part.new (part_of (input_at prefix.now byte times suffix.now) at (end - at)) result }
{
    let mut n = 0;
    for i in at..end {
        n = push_element(part, n, input_byte(prefix, byte, times, suffix, i));
    }
    n.min(part.len())
}

// How many bytes the program prints for what it has read, and the last 64 of them at most.
fn print_text(line: &[u8], state: Input) {
    let mut out = [0u8; 65536];
    let n = rows_io::output::print(&mut out, line, state);
    print(b" = ");
    print_number(n);
    print(b" ");
    if n <= 64 {
        return print_hex(&out, 0, n);
    }
    print_hex(&out, n - 64, n);
}

// The same for an input, handed over in a first part of `first` bytes and later parts of `later`. The last is the first that is shorter,
// of no bytes where the others have them all. An input has at most 10,000,128 bytes.
fn print_rows(prefix: &[u8], byte: u8, times: usize, suffix: &[u8], first: usize, later: usize) {
    let mut line = [170u8; 4097];
    let mut part = io::buffer();
    let total = input_len(prefix.len(), times, suffix.len());
    let mut at = fill(prefix, byte, times, suffix, 0, first.min(total), &mut part);
    let mut state = with_part(&mut line, begin(), &part[..at]);
    while at <= total {
        if !state.more {
            return print_text(&line, state);
        }
        let end = at + later.min(total - at);
        let n = fill(prefix, byte, times, suffix, at, end, &mut part);
        state = with_part(&mut line, state, &part[..n]);
        if n < later {
            return print_text(&line, state);
        }
        if n == 0 {
            return;
        }
        at += n;
    }
}

pub(crate) fn answer(s: &[u8]) {
    let mut prefix = [0u8; 64];
    let mut byte = [0u8; 1];
    let mut suffix = [0u8; 64];
    let n = fields::bytes(field(s, 1), &mut prefix);
    fields::bytes(field(s, 2), &mut byte);
    let times = number(s, 3);
    let m = fields::bytes(field(s, 4), &mut suffix);
    let first = number(s, 5);
    let later = number(s, 6);
    print_rows(&prefix[..n], byte[0], times, &suffix[..m], first, later);
}
