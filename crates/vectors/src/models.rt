// Calls that the Rust source has not, with recorded answers of their models: each is answered, and every lent buffer printed.
use super::fields;
use super::fields::{field, number};
use super::output::{print, print_answer, print_number, print_numbers};
use super::recorded::{lent_bytes, lent_spans};
use check::same;
use rows::numbers::narrowest_numbers;
use text::Answer;

fn screen_row(s: &[u8], list: &[u8]) {
    let mut out = [170u8; 32776];
    let width = number(s, 2);
    let c = lent_bytes(s, 3, &out);
    let a = screen::screen_row(list, width, &mut out[..c]);
    print_answer(a, &out, c);
}

fn store(s: &[u8], list: &[u8]) {
    let mut out = [170u8; 32776];
    let c = lent_bytes(s, 2, &out);
    let a = screen::store(list, &mut out[..c]);
    print_answer(a, &out, c);
}

fn restore(s: &[u8], stored: &[u8]) {
    let mut out = [170u8; 32776];
    let c = lent_bytes(s, 2, &out);
    let a = screen::restore(stored, &mut out[..c]);
    print_answer(a, &out, c);
}

fn write_cells(s: &[u8], cells: &[u8]) {
    let mut out = [170u8; 32776];
    let c = lent_bytes(s, 2, &out);
    let a = text::write_cells(cells, &mut out[..c]);
    print_answer(a, &out, c);
}

fn narrowest(s: &[u8], line: &[u8]) {
    let mut conv = [170u8; 32776];
    let mut spans = [170usize; 4096];
    let mode = number(s, 2);
    let wanted = number(s, 3);
    let greatest = number(s, 4);
    let c = lent_bytes(s, 5, &conv);
    let p = lent_spans(s, 6, &spans);
    let a = narrowest_numbers(
        line,
        mode,
        wanted,
        greatest,
        &mut conv[..c],
        &mut spans[..p],
    );
    let answer = Answer {
        number: a.number,
        count: a.count,
    };
    print_answer(answer, &conv, c);
    print_numbers(&spans, p);
    print(b" ");
    print_number(a.tried);
}

// The answer to a call of this name; of another, nothing.
pub(crate) fn answer(name: &[u8], s: &[u8]) {
    let mut bytes = [0u8; 5000];
    let n = fields::bytes(field(s, 1), &mut bytes);
    if same(name, b"screen_row") {
        screen_row(s, &bytes[..n]);
    } else if same(name, b"store") {
        store(s, &bytes[..n]);
    } else if same(name, b"restore") {
        restore(s, &bytes[..n]);
    } else if same(name, b"write_cells") {
        write_cells(s, &bytes[..n]);
    } else if same(name, b"narrowest") {
        narrowest(s, &bytes[..n]);
    }
}
