// A screen row as ANSI text: style orders (ECMA-48, SGR), hyperlinks (OSC 8) and clusters.
ghost use Rattle.std.specs.Prelude.{◌≡◌, cond, [], ◌∷◌, ◌+◌, ◌≤◌, ◌<◌, length, take, drop};
ghost use Rattle.buffer.specs.Sink.{sink, emit};
ghost use Rattle.screen.specs.Records.{little_endian};
ghost use Rattle.show_io.specs.Ansi.{cells, valued, colored, font_of, flags_of, colors_of, further, style_order, uri, link_order, alike, change, row_text};
ghost use Rattle.show_io.specs.Ansi.Contracts.{style_change, link_change, same_body, places_at, InRow, cell_text};

use buffer::{byte_at, push_element, push_elements, push_part};
use rows_io::output::push_decimal;
use screen::BODY_SIZE;
use screen::records::read_length;

// A cell's places in a row: where its cluster and its body begin, and where it ends.
#[derive(Clone, Copy)]
struct Places {
    cluster: usize,
    body: usize,
    end: usize,
}

// One parameter more: `;` and its digits.
fn push_parameter(out: &mut [u8], at: usize, p: u8) -> usize
    ensures { sink out.new result ≡ emit (sink out.old at) (further (p ∷ [])) }
{
    let a = push_element(out, at, 0x3B);
    push_decimal(out, a, p as usize)
}

// p for the value 1, q for 2.
fn push_value(out: &mut [u8], at: usize, v: u8, p: u8, q: u8) -> usize
    ensures { sink out.new result ≡ emit (sink out.old at) (further (valued p q v)) }
{
    if v == 1 {
        return push_parameter(out, at, p);
    }
    if v == 2 {
        return push_parameter(out, at, q);
    }
    at
}

// p for a flag that is on.
fn push_flag(out: &mut [u8], at: usize, on: bool, p: u8) -> usize
    ensures { sink out.new result ≡ emit (sink out.old at) (further (cond on (p ∷ []) [])) }
{
    if on {
        return push_parameter(out, at, p);
    }
    at
}

// The colour at a place of a body, behind p.
fn push_color(out: &mut [u8], at: usize, body: &[u8], place: usize, p: u8) -> usize
    requires { place ≤ 12 }
    ensures { sink out.new result ≡ emit (sink out.old at) (further (colored p body.now place)) }
{
    let kind = byte_at(body, place);
    if kind == 1 {
        let a = push_parameter(out, at, p);
        let b = push_parameter(out, a, 5);
        return push_parameter(out, b, byte_at(body, place + 1));
    }
    if kind == 2 {
        let a = push_parameter(out, at, p);
        let b = push_parameter(out, a, 2);
        let c = push_parameter(out, b, byte_at(body, place + 1));
        let d = push_parameter(out, c, byte_at(body, place + 2));
        return push_parameter(out, d, byte_at(body, place + 3));
    }
    at
}

// Intensity, underline, blink.
fn push_font(out: &mut [u8], at: usize, body: &[u8]) -> usize
    ensures { sink out.new result ≡ emit (sink out.old at) (further (font_of body.now)) }
{
    let a = push_value(out, at, byte_at(body, 0), 1, 2);
    let b = push_value(out, a, byte_at(body, 1), 4, 21);
    push_value(out, b, byte_at(body, 2), 5, 6)
}

// Italic, reverse, invisible, strike, overline.
fn push_flags(out: &mut [u8], at: usize, flags: u8) -> usize
    ensures { sink out.new result ≡ emit (sink out.old at) (further (flags_of flags)) }
{
    let a = push_flag(out, at, flags / 1 % 2 == 1, 3);
    let b = push_flag(out, a, flags / 2 % 2 == 1, 7);
    let c = push_flag(out, b, flags / 4 % 2 == 1, 8);
    let d = push_flag(out, c, flags / 8 % 2 == 1, 9);
    push_flag(out, d, flags / 16 % 2 == 1, 53)
}

// Foreground, background, underline colour.
fn push_colors(out: &mut [u8], at: usize, body: &[u8]) -> usize
    ensures { sink out.new result ≡ emit (sink out.old at) (further (colors_of body.now)) }
{
    let a = push_color(out, at, body, 4, 38);
    let b = push_color(out, a, body, 8, 48);
    push_color(out, b, body, 12, 58)
}

// `ESC [ 0`, what a body has on, `m`.
fn push_style(out: &mut [u8], at: usize, body: &[u8]) -> usize
    ensures { sink out.new result ≡ emit (sink out.old at) (style_order body.now) }
{
    let a = push_elements(out, at, b"\x1b[0");
    let b = push_font(out, a, body);
    let c = push_flags(out, b, byte_at(body, 3));
    let d = push_colors(out, c, body);
    let e = push_value(out, d, byte_at(body, 24), 73, 74);
    push_element(out, e, 0x6D)
}

// The number in 4 bytes at a place; past the end they are 0.
fn number_at(s: &[u8], at: usize) -> usize
    ensures value { result ≡ little_endian (take 4 (drop at s.now)) }
    ensures upper_bound { result < 4294967296 }
{
    if at < s.len() {
        return read_length(s, at, 4);
    }
    0
}

// A body's URI in the converted line.
fn push_uri(out: &mut [u8], at: usize, line: &[u8], body: &[u8]) -> usize
    ensures { sink out.new result ≡ emit (sink out.old at) (uri line.now body.now) }
{
    push_part(out, at, line, number_at(body, 16), number_at(body, 20))
}

// `ESC ] 8 ; ;`, the URI, `ESC \`.
fn push_link(out: &mut [u8], at: usize, line: &[u8], body: &[u8]) -> usize
    ensures { sink out.new result ≡ emit (sink out.old at) (link_order (uri line.now body.now)) }
{
    let a = push_elements(out, at, b"\x1b]8;;");
    let b = push_uri(out, a, line, body);
    push_elements(out, b, b"\x1b\\")
}

// Are n bytes alike in two bodies, from a place on?
fn are_alike(n: usize, from: usize, a: &[u8], b: &[u8]) -> bool
    requires { from + n ≤ 25 }
    ensures { result ≡ alike n from a.now b.now }
{
    for i in 0..n {
        if byte_at(a, from + i) != byte_at(b, from + i) {
            return false;
        }
    }
    true
}

// The style order from one body to another, where they differ.
fn push_style_change(out: &mut [u8], at: usize, was: &[u8], body: &[u8]) -> usize
    ensures { sink out.new result ≡ emit (sink out.old at) (style_change was.now body.now) }
{
    if are_alike(16, 0, was, body) & are_alike(1, 24, was, body) {
        return at;
    }
    push_style(out, at, body)
}

// The hyperlink.
fn push_link_change(out: &mut [u8], at: usize, line: &[u8], was: &[u8], body: &[u8]) -> usize
    ensures { sink out.new result ≡ emit (sink out.old at) (link_change line.now was.now body.now) }
{
    if are_alike(8, 16, was, body) {
        return at;
    }
    push_link(out, at, line, body)
}

// Are two whole bodies the same? All bytes are looked at, so that the compiler may take many at once.
fn are_same(a: &[u8], b: &[u8]) -> bool
    ensures { result ≡ same_body a.now b.now }
{
    if (a.len() == BODY_SIZE) & (b.len() == BODY_SIZE) {
        let mut same = true;
        for i in 0..BODY_SIZE {
            same = same & (a[i] == b[i]);
        }
        return same;
    }
    false
}

// From the attributes of one body to those of another.
fn push_change(out: &mut [u8], at: usize, line: &[u8], was: &[u8], body: &[u8]) -> usize
    ensures { sink out.new result ≡ emit (sink out.old at) (change line.now was.now body.now) }
{
    let a = push_style_change(out, at, was, body);
    push_link_change(out, a, line, was, body)
}

// The places of the cell that begins at one.
fn places_at(row: &[u8], at: usize) -> Places
    requires { at < length row.now }
    ensures { result ≡ places_at row.now at }
{
    let len = number_at(row, at);
    Places {
        cluster: (at + 4).min(row.len()),
        body: (at + 4 + len).min(row.len()),
        end: (at + 4 + len + BODY_SIZE).min(row.len()),
    }
}

// A cell behind another: what changes, mostly nothing, and its cluster.
fn push_cell(out: &mut [u8], at: usize, line: &[u8], row: &[u8], was: Places, cell: Places) -> usize
    requires in_row { InRow row.now was }
    requires in_row_2 { InRow row.now cell }
    ensures { sink out.new result ≡ emit (sink out.old at) (cell_text line.now row.now was cell) }
{
    let from = was.body;
    let to = was.end;
    let start = cell.cluster;
    let body = cell.body;
    let end = cell.end;
    if are_same(&row[from..to], &row[body..end]) {
        return push_elements(out, at, &row[start..body]);
    }
    let a = push_change(out, at, line, &row[from..to], &row[body..end]);
    push_elements(out, a, &row[start..body])
}

// The text of a screen row, whose URIs stand in the converted line.
pub(crate) fn push_row(out: &mut [u8], at: usize, line: &[u8], row: &[u8]) -> usize
    ensures { sink out.new result ≡ emit (sink out.old at) (row_text line.now (cells row.now)) }
{
    let mut a = at;
    let mut p = 0;
    let mut was = Places {
        cluster: row.len(),
        body: row.len(),
        end: row.len(),
    };
    while p < row.len() {
        let cell = places_at(row, p);
        a = push_cell(out, a, line, row, was, cell);
        p = cell.end;
        was = cell;
    }
    let from = was.body;
    let to = was.end;
    push_change(out, a, line, &row[from..to], &row[..0])
}
