// Calls on one line, one after the other, with wraps kept from none: each is answered, and the heads that are kept at the end are printed.
ghost use Rattle.std.specs.Prelude.{◌≡◌};
ghost use Rattle.vectors.specs.Cached.{after_rows, after_height, after_call};

use super::fields;
use super::fields::{field, number};
use super::output::{print, print_heads, print_number, print_numbers};
use cache::numbers::{cached_height_numbers, cached_rows_numbers};
use check::same;
use text::Answer;

fn print_call(a: Answer) {
    print(b" ");
    print_number(a.number);
    print(b" ");
    print_number(a.count);
}

fn rows(line: &[u8], width: usize, mode: usize, wraps: &mut [usize; 8212])
    ensures { wraps.new ≡ after_rows wraps.old line.now width mode }
{
    let mut conv = [170u8; 32776];
    let mut spans = [170usize; 4096];
    let mut pairs = [170usize; 4096];
    let a = cached_rows_numbers(line, width, mode, wraps, &mut conv, &mut spans, &mut pairs);
    print_call(a);
    print_numbers(&pairs, 4096);
}

fn height(line: &[u8], width: usize, mode: usize, wraps: &mut [usize; 8212])
    ensures { wraps.new ≡ after_height wraps.old line.now width mode }
{
    let mut conv = [170u8; 32776];
    let mut spans = [170usize; 4096];
    let a = cached_height_numbers(line, width, mode, wraps, &mut conv, &mut spans);
    print_call(a);
}

// A call of this name; of another, nothing.
fn call(name: &[u8], width: usize, mode: usize, line: &[u8], wraps: &mut [usize; 8212])
    ensures { wraps.new ≡ after_call name.now wraps.old line.now width mode }
{
    if same(name, b"rows") {
        return rows(line, width, mode, wraps);
    }
    if same(name, b"height") {
        height(line, width, mode, wraps);
    }
}

// Each call stands in three fields: name, width and mode.
pub(crate) fn answer(s: &[u8]) {
    let mut line = [0u8; 5000];
    let mut wraps = [0usize; 8212];
    let len = fields::bytes(field(s, 1), &mut line);
    print(b" =");
    let mut n = 2;
    while n < 128 {
        let name = field(s, n);
        let width = number(s, n + 1);
        let mode = number(s, n + 2);
        call(name, width, mode, &line[..len], &mut wraps);
        n += 3;
    }
    print_heads(&wraps);
}
