// Calls with recorded answers of the Rust source: each is answered, and every lent buffer printed.
// `view_window` and `view_row` are drawings whose last field is their reader; the others are for the bench.
ghost use Rattle.std.specs.Prelude.{◌*◌};
ghost use Rattle.vectors.specs.Fields.{field_of, decimal};
ghost use Rattle.vectors.specs.Recorded.{Lent};

use super::fields;
use super::fields::{field, number};
use super::output::{print, print_answer, print_bytes, print_numbers};
use check::same;
use drawing::numbers::{draw_row_numbers, draw_window_numbers};
use rows::numbers::{height_numbers, rows_numbers};
use spans::numbers::read_numbers;

// How much of a buffer is lent: as many bytes as the n-th field says. Where there are fewer, `too large` is printed, and all are lent.
pub(crate) fn lent_bytes(s: &[u8], n: usize, buf: &[u8]) -> usize
    ensures { Lent (decimal 0 (field_of s.now n)) buf.now result }
{
    let size = number(s, n);
    if size <= buf.len() {
        return size;
    }
    print(b" too large");
    buf.len()
}

// The same for numbers.
fn lent_numbers(s: &[u8], n: usize, buf: &[usize]) -> usize
    ensures { Lent (decimal 0 (field_of s.now n)) buf.now result }
{
    let size = number(s, n);
    if size <= buf.len() {
        return size;
    }
    print(b" too large");
    buf.len()
}

// The same for spans, of four numbers each.
pub(crate) fn lent_spans(s: &[u8], n: usize, buf: &[usize]) -> usize
    ensures { Lent (4 * decimal 0 (field_of s.now n)) buf.now result }
{
    let count = number(s, n);
    if count <= buf.len() / 4 {
        return 4 * count;
    }
    print(b" too large");
    buf.len()
}

fn convert(s: &[u8], line: &[u8]) {
    let mut conv = [170u8; 32776];
    let c = lent_bytes(s, 2, &conv);
    let a = text::convert(line, &mut conv[..c]);
    print_answer(a, &conv, c);
}

fn read(s: &[u8], line: &[u8], matches: &[usize]) {
    let mut conv = [170u8; 32776];
    let mut spans = [170usize; 4096];
    let c = lent_bytes(s, 3, &conv);
    let p = lent_spans(s, 4, &spans);
    let a = read_numbers(line, matches, &mut conv[..c], &mut spans[..p]);
    print_answer(a, &conv, c);
    print_numbers(&spans, p);
}

fn rows(s: &[u8], line: &[u8]) {
    let mut conv = [170u8; 32776];
    let mut spans = [170usize; 4096];
    let mut pairs = [170usize; 4096];
    let width = number(s, 2);
    let mode = number(s, 3);
    let c = lent_bytes(s, 4, &conv);
    let p = lent_spans(s, 5, &spans);
    let r = lent_numbers(s, 6, &pairs);
    let a = rows_numbers(
        line,
        width,
        mode,
        &mut conv[..c],
        &mut spans[..p],
        &mut pairs[..r],
    );
    print_answer(a, &conv, c);
    print_numbers(&spans, p);
    print_numbers(&pairs, r);
}

fn height(s: &[u8], line: &[u8]) {
    let mut conv = [170u8; 32776];
    let mut spans = [170usize; 4096];
    let width = number(s, 2);
    let mode = number(s, 3);
    let c = lent_bytes(s, 4, &conv);
    let p = lent_spans(s, 5, &spans);
    let a = height_numbers(line, width, mode, &mut conv[..c], &mut spans[..p]);
    print_answer(a, &conv, c);
    print_numbers(&spans, p);
}

fn draw_window(s: &[u8], line: &[u8], matches: &[usize]) {
    let mut conv = [170u8; 32776];
    let mut spans = [170usize; 4096];
    let mut list = [170u8; 32776];
    let current = number(s, 3);
    let start = number(s, 4);
    let end = number(s, 5);
    let c = lent_bytes(s, 6, &conv);
    let p = lent_spans(s, 7, &spans);
    let b = lent_bytes(s, 8, &list);
    let reader = number(s, 9);
    let a = draw_window_numbers(
        reader,
        line,
        matches,
        current,
        start,
        end,
        &mut conv[..c],
        &mut spans[..p],
        &mut list[..b],
    );
    print_answer(a, &conv, c);
    print_numbers(&spans, p);
    print_bytes(&list, b);
}

fn draw_row(s: &[u8], line: &[u8], matches: &[usize]) {
    let mut conv = [170u8; 32776];
    let mut spans = [170usize; 4096];
    let mut list = [170u8; 32776];
    let current = number(s, 3);
    let first = number(s, 4);
    let count = number(s, 5);
    let width = number(s, 6);
    let mode = number(s, 7);
    let c = lent_bytes(s, 8, &conv);
    let p = lent_spans(s, 9, &spans);
    let b = lent_bytes(s, 10, &list);
    let reader = number(s, 11);
    let a = draw_row_numbers(
        reader,
        line,
        matches,
        current,
        first,
        count,
        width,
        mode,
        &mut conv[..c],
        &mut spans[..p],
        &mut list[..b],
    );
    print_answer(a, &conv, c);
    print_numbers(&spans, p);
    print_bytes(&list, b);
}

// The answer to a drawing of this name; to another call, nothing.
fn draw(name: &[u8], s: &[u8], line: &[u8], matches: &[usize]) {
    if same(name, b"draw_window") | same(name, b"view_window") {
        draw_window(s, line, matches);
    } else if same(name, b"draw_row") | same(name, b"view_row") {
        draw_row(s, line, matches);
    }
}

// The answer to a call of this name; of another, nothing.
pub(crate) fn answer(name: &[u8], s: &[u8]) {
    let mut line = [0u8; 5000];
    let mut matches = [0usize; 64];
    let n = fields::bytes(field(s, 1), &mut line);
    let m = fields::numbers(field(s, 2), &mut matches);
    if same(name, b"convert") {
        convert(s, &line[..n]);
    } else if same(name, b"read") {
        read(s, &line[..n], &matches[..m]);
    } else if same(name, b"rows") {
        rows(s, &line[..n]);
    } else if same(name, b"height") {
        height(s, &line[..n]);
    } else {
        draw(name, s, &line[..n], &matches[..m]);
    }
}
