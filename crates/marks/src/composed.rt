// A mark composed in memory, a part of it as a change, and the change list of a drawing around it.
ghost use Rattle.std.specs.Prelude.{◌≡◌, ◌+◌, ◌-◌, ◌/◌, ◌%◌, [], ◌∷◌, ◌++◌, length};
ghost use Rattle.buffer.specs.Sink.{sink, emit};
ghost use Rattle.buffer.specs.Numbers.{hex_digit};
ghost use Rattle.text.specs.Utf8.{bytes_of};
ghost use Rattle.drawing.specs.Marks.{byte_mark, upper_digits, scalar_mark};
ghost use Rattle.marks.specs.Composed.{change, clipped_change, plain_change, arrow_changes, left_edge, letter_change, seen_changes, right_edge, shown_from, composed_list};

use buffer::{hex_digit, push_element, push_elements, push_le2, push_le4};

// A digit of a scalar's number.
fn push_digit(out: &mut [u8], at: usize, digit: u32) -> usize
    ensures { sink out.new result ≡ emit (sink out.old at) (hex_digit (digit % 16) ∷ []) }
{
    push_element(out, at, hex_digit((digit % 16) as u8))
}

// The digits above the lowest four.
fn push_upper_digits(out: &mut [u8], at: usize, code: u32) -> usize
    ensures { sink out.new result ≡ emit (sink out.old at) (bytes_of (upper_digits code)) }
{
    if code < 0x10000 {
        return at;
    }
    if code < 0x100000 {
        return push_digit(out, at, code / 0x10000);
    }
    let a = push_digit(out, at, code / 0x100000);
    push_digit(out, a, code / 0x10000)
}

// The lowest four.
fn push_lower_digits(out: &mut [u8], at: usize, code: u32) -> usize
    ensures { sink out.new result ≡ emit (sink out.old at) (hex_digit (code / 0x1000 % 16) ∷ hex_digit (code / 0x100 % 16) ∷ hex_digit (code / 0x10 % 16) ∷ hex_digit (code % 16) ∷ []) }
{
    let a = push_digit(out, at, code / 0x1000);
    let b = push_digit(out, a, code / 0x100);
    let c = push_digit(out, b, code / 0x10);
    push_digit(out, c, code)
}

// The mark of a scalar.
pub(crate) fn push_scalar_mark(out: &mut [u8], code: u32) -> usize
    ensures { sink out.new result ≡ emit (sink out.old 0) (bytes_of (scalar_mark code)) }
{
    let a = push_elements(out, 0, b"<U+");
    let b = push_upper_digits(out, a, code);
    let c = push_lower_digits(out, b, code);
    push_element(out, c, b'>')
}

// The mark of a byte.
pub(crate) fn push_byte_mark(out: &mut [u8], byte: u8) -> usize
    ensures { sink out.new result ≡ emit (sink out.old 0) (bytes_of (byte_mark byte)) }
{
    let a = push_element(out, 0, b'<');
    let b = push_element(out, a, hex_digit(byte / 16));
    let c = push_element(out, b, hex_digit(byte % 16));
    push_element(out, c, b'>')
}

// How far a is right of b.
fn beyond(a: usize, b: usize) -> usize
    ensures { result ≡ a - b }
{
    if b <= a {
        return a - b;
    }
    0
}

// A change: the length of its body, its kind, its body.
fn push_change(list: &mut [u8], at: usize, kind: usize, body: &[u8]) -> usize
    ensures { sink list.new result ≡ emit (sink list.old at) (change kind body.now) }
{
    let a = push_le4(list, at, body.len());
    let b = push_le2(list, a, kind);
    push_elements(list, b, body)
}

// The columns of a mark from one to another, as a text.
pub(crate) fn push_clipped(list: &mut [u8], at: usize, mark: &[u8], from: usize, to: usize) -> usize
    ensures { sink list.new result ≡ emit (sink list.old at) (clipped_change mark.now from to) }
{
    let f = from.min(mark.len());
    let t = f + beyond(to.min(mark.len()), f);
    push_change(list, at, 1, &mark[f..t])
}

// Default attributes.
fn push_plain(list: &mut [u8], at: usize) -> usize
    ensures { sink list.new result ≡ emit (sink list.old at) plain_change }
{
    let body = [0u8; 25];
    push_change(list, at, 2, &body)
}

// An arrow, bold and navy.
fn push_arrow(list: &mut [u8], at: usize, arrow: u8) -> usize
    ensures { sink list.new result ≡ emit (sink list.old at) (arrow_changes arrow) }
{
    let mut body = [0u8; 25];
    body[0] = 1;
    body[4] = 1;
    body[5] = 4;
    let text = [arrow];
    let a = push_change(list, at, 2, &body);
    push_change(list, a, 1, &text)
}

// The window's left edge: an arrow where it starts past column 0.
fn push_left(list: &mut [u8], start: usize) -> usize
    ensures { sink list.new result ≡ emit (sink list.old 0) (left_edge start) }
{
    if start == 0 {
        return 0;
    }
    let a = push_arrow(list, 0, b'<');
    push_plain(list, a)
}

// The letter `a` in column 0, where the line has it before the mark and the window shows it.
fn push_letter(list: &mut [u8], at: usize, column: usize, start: usize, end: usize) -> usize
    ensures { sink list.new result ≡ emit (sink list.old at) (letter_change column start end) }
{
    if (column == 1) & ((start == 0) & (0 < end)) {
        return push_change(list, at, 1, b"a");
    }
    at
}

// A mark that the window meets: reversed, its columns from one to another.
fn push_seen(list: &mut [u8], at: usize, mark: &[u8], from: usize, to: usize) -> usize
    ensures { sink list.new result ≡ emit (sink list.old at) (seen_changes mark.now from to) }
{
    if (from < mark.len()) & (0 < to) {
        let mut body = [0u8; 25];
        body[3] = 2;
        let a = push_change(list, at, 2, &body);
        return push_clipped(list, a, mark, from, to);
    }
    at
}

// The window's right edge, `to` columns from where a mark of so many begins: an arrow where the mark passes it, a clearing where it ends before.
fn push_edge(list: &mut [u8], at: usize, columns: usize, to: usize) -> usize
    ensures { sink list.new result ≡ emit (sink list.old at) (right_edge columns to) }
{
    if to < columns {
        let back = [8u8];
        let a = push_change(list, at, 1, &back);
        let b = push_change(list, a, 4, b"");
        return push_arrow(list, b, b'>');
    }
    if columns < to {
        let color = [0u8; 4];
        return push_change(list, at, 3, &color);
    }
    at
}

// The first column that a window shows of a line.
fn shown_from(start: u8) -> usize
    ensures { result ≡ shown_from start }
{
    if start == 0 {
        return 0;
    }
    start as usize + 1
}

// What stands before the mark.
fn push_front(list: &mut [u8], column: usize, start: usize, from: usize, end: usize) -> usize
    ensures { sink list.new result ≡ emit (sink list.old 0) (left_edge start ++ letter_change column from end) }
{
    let a = push_left(list, start);
    push_letter(list, a, column, from, end)
}

// The mark's columns from one to another, and what stands after it.
fn push_rest(list: &mut [u8], at: usize, mark: &[u8], from: usize, to: usize) -> usize
    ensures { sink list.new result ≡ emit (sink list.old at) (seen_changes mark.now from to ++ (right_edge (length mark.now) to ++ plain_change)) }
{
    let a = push_seen(list, at, mark, from, to);
    let b = push_edge(list, a, mark.len(), to);
    push_plain(list, b)
}

// The change list of a line with a mark at a column, 0 or, after the letter `a`, 1, in a window.
pub(crate) fn push_drawing(list: &mut [u8], mark: &[u8], column: usize, start: u8, end: u8) -> usize
    ensures { sink list.new result ≡ emit (sink list.old 0) (composed_list mark.now column start end) }
{
    let from = shown_from(start);
    let last = end as usize;
    let a = push_front(list, column, start as usize, from, last);
    push_rest(list, a, mark, beyond(from, column), beyond(last, column))
}
