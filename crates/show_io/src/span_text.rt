// The spans of a line as text: for each the line's number, the kind in words, place and length in the converted line, and its bytes.
ghost use Rattle.std.specs.Prelude.{◌≡◌, take, drop};
ghost use Rattle.buffer.specs.Sink.{sink, emit};
ghost use Rattle.show_io.specs.SpanText.{sequence_word, kind_word, visible_byte, visible, shown, head_text, place_text, span_text};
ghost use Rattle.show_io.specs.SpanText.Contracts.{numbers_text};

use buffer::{push_element, push_elements};
use drawing::mark::push_byte_mark;
use rows_io::output::push_decimal;

// The kinds of sequences; 13 is the last one.
fn push_sequence_word(out: &mut [u8], at: usize, kind: usize) -> usize
    ensures { sink out.new result ≡ emit (sink out.old at) (sequence_word kind) }
{
    if kind == 6 {
        return push_elements(out, at, b"style-order");
    }
    if kind == 7 {
        return push_elements(out, at, b"hyperlink");
    }
    if kind == 8 {
        return push_elements(out, at, b"line-drawing");
    }
    if kind == 9 {
        return push_elements(out, at, b"ignored-sequence");
    }
    push_elements(out, at, b"erase-to-end")
}

// The kind in words.
fn push_kind_word(out: &mut [u8], at: usize, kind: usize) -> usize
    ensures { sink out.new result ≡ emit (sink out.old at) (kind_word kind) }
{
    if kind == 1 {
        return push_elements(out, at, b"text");
    }
    if kind == 2 {
        return push_elements(out, at, b"match");
    }
    if kind == 3 {
        return push_elements(out, at, b"control");
    }
    if kind == 4 {
        return push_elements(out, at, b"invalid");
    }
    if kind == 5 {
        return push_elements(out, at, b"unprintable");
    }
    if kind == 10 {
        return push_elements(out, at, b"tab");
    }
    if kind == 11 {
        return push_elements(out, at, b"cr-lf");
    }
    if kind == 12 {
        return push_elements(out, at, b"lf");
    }
    push_sequence_word(out, at, kind)
}

fn push_visible_byte(out: &mut [u8], at: usize, b: u8) -> usize
    ensures { sink out.new result ≡ emit (sink out.old at) (visible_byte b) }
{
    if (0x20 <= b) & (b <= 0x7E) {
        return push_element(out, at, b);
    }
    push_byte_mark(out, at, b)
}

fn push_visible(out: &mut [u8], at: usize, s: &[u8]) -> usize
    ensures { sink out.new result ≡ emit (sink out.old at) (visible s.now) }
{
    let mut a = at;
    for b in s {
        a = push_visible_byte(out, a, *b);
    }
    a
}

// The bytes of a span of a kind.
fn push_shown(out: &mut [u8], at: usize, kind: usize, s: &[u8]) -> usize
    ensures { sink out.new result ≡ emit (sink out.old at) (shown kind s.now) }
{
    if kind == 1 {
        return push_elements(out, at, s);
    }
    push_visible(out, at, s)
}

// So many bytes of the converted line from a place on.
fn push_part(out: &mut [u8], at: usize, conv: &[u8], kind: usize, place: usize, len: usize) -> usize
    ensures { sink out.new result ≡ emit (sink out.old at) (shown kind (take len (drop place conv.now))) }
{
    let from = place.min(conv.len());
    let n = len.min(conv.len() - from);
    push_shown(out, at, kind, &conv[from..from + n])
}

// `3: text `.
fn push_head(out: &mut [u8], at: usize, number: usize, kind: usize) -> usize
    ensures { sink out.new result ≡ emit (sink out.old at) (head_text number kind) }
{
    let a = push_decimal(out, at, number);
    let b = push_elements(out, a, b": ");
    let c = push_kind_word(out, b, kind);
    push_element(out, c, 0x20)
}

// `0 8 `.
fn push_place(out: &mut [u8], at: usize, place: usize, len: usize) -> usize
    ensures { sink out.new result ≡ emit (sink out.old at) (place_text place len) }
{
    let a = push_decimal(out, at, place);
    let b = push_element(out, a, 0x20);
    let c = push_decimal(out, b, len);
    push_element(out, c, 0x20)
}

fn push_span(
    out: &mut [u8],
    at: usize,
    number: usize,
    conv: &[u8],
    kind: usize,
    place: usize,
    len: usize,
) -> usize
    ensures { sink out.new result ≡ emit (sink out.old at) (span_text number conv.now kind place len) }
{
    let a = push_head(out, at, number, kind);
    let b = push_place(out, a, place, len);
    let c = push_part(out, b, conv, kind, place, len);
    push_element(out, c, 0x0A)
}

// Kind, place, length and match number of each span.
pub(crate) fn push_numbers(
    out: &mut [u8],
    at: usize,
    number: usize,
    conv: &[u8],
    numbers: &[usize],
) -> usize
    ensures { sink out.new result ≡ emit (sink out.old at) (numbers_text number conv.now numbers.now) }
{
    let mut a = at;
    for i in 0..numbers.len() / 4 {
        a = push_span(
            out,
            a,
            number,
            conv,
            numbers[4 * i],
            numbers[4 * i + 1],
            numbers[4 * i + 2],
        );
    }
    a
}
