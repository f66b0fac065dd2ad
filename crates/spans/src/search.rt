// Reading with matches: src/search.rs, ESCAPE_SEQUENCE and trim_trailing_newline; src/line.rs, convert_offset.
ghost use Rattle.std.specs.Prelude.{◌≡◌, ◌+◌, ◌≤◌, ◌<◌, length, take, drop};
ghost use Rattle.std.specs.List.{prefix_len};
ghost use Rattle.spans.specs.Search.{sequence_byte, trimmed, searched_length, in_order};
ghost use Rattle.spans.specs.Search.Contracts.{EscapeMatched, NextEscape, EscapesLength, pair_in_order, FirstOffsets, OffsetReady, OffsetAt};

use super::sgr::bytes_from;
use buffer::byte_at;

// A match of ESCAPE_SEQUENCE.
#[derive(Clone, Copy, PartialEq, Eq, Debug)]
pub struct Escape {
    pub from: usize,
    pub upto: usize,
}

// convert_offset between two matches: original_offset, how much of the text searched lies before it, and the next ESCAPE_SEQUENCE match.
#[derive(Clone, Copy)]
pub struct Offsets {
    pub origin: usize,
    pub passed: usize,
    pub next: Option<Escape>,
}

// An offset into the line, and the conversion after it.
#[derive(Clone, Copy)]
pub struct Offset {
    pub value: usize,
    pub offsets: Offsets,
}

#[tactic(auto, unfolding(crate::specs::Search::sequence_byte))]
fn is_sequence_byte(b: u8) -> bool
    ensures { result ≡ sequence_byte b }
{
    matches!(
        b,
        b' '..=b'#' | b'%' | b'\''..=b'+' | b'0'..=b';' | b'?' | b'['
    )
}

// How many bytes in front ESCAPE_SEQUENCE takes between `ESC [` and `m`.
fn sequence_len(s: &[u8]) -> usize
    ensures bytes { result ≡ prefix_len sequence_byte s.now }
    ensures inside { result ≤ length s.now }
{
    s.iter().take_while(|b| is_sequence_byte(**b)).count()
}

// The length of the ESCAPE_SEQUENCE match at a place. It is called: drawn into the look for the next ESC it slows each byte of the line.
#[inline(never)]
fn escape_match(s: &[u8], at: usize) -> Option<usize>
    ensures { EscapeMatched (drop at s.now) result }
{
    let rest = bytes_from(s, at).strip_prefix(b"\x1B[")?;
    let n = sequence_len(rest);
    if (n <= 32) & (byte_at(rest, n) == b'm') {
        return Some(3 + n);
    }
    None
}

// The first ESCAPE_SEQUENCE match from a place on.
fn next_escape(s: &[u8], at: usize) -> Option<Escape>
    ensures { NextEscape s.now at result }
{
    for from in at..s.len() {
        if s[from] == 0x1B {
            if let Some(n) = escape_match(s, from) {
                return Some(Escape {
                    from,
                    upto: from + n,
                });
            }
        }
    }
    None
}

// trim_trailing_newline
pub(crate) fn without_newline(s: &[u8]) -> &[u8]
    ensures { result.now ≡ take (trimmed s.now) s.now }
{
    match s.strip_suffix(b"\n") {
        Some(line) => line.strip_suffix(b"\r").unwrap_or(line),
        None => s,
    }
}

// The bytes of all ESCAPE_SEQUENCE matches.
fn escapes_len(s: &[u8]) -> usize
    ensures { EscapesLength s.now result }
{
    let mut at = 0;
    let mut sum = 0;
    while let Some(e) = next_escape(s, at) {
        sum += e.upto - e.from;
        at = e.upto;
    }
    sum
}

// The length of the text searched.
pub(crate) fn searched_len(line: &[u8]) -> usize
    ensures { result ≡ searched_length line.now }
{
    let text = without_newline(line);
    text.len() - escapes_len(text)
}

// A match from a to b, after one that ends at e, in a text of `most` bytes.
fn pair_in_order(e: usize, a: usize, b: usize, most: usize) -> bool
    ensures { result ≡ pair_in_order e a b most }
{
    (e <= a) & ((a <= b) & (b <= most))
}

// Question 3: whole pairs, each start at most its end and at least the end before, all inside the text searched.
pub(crate) fn in_order(matches: &[usize], most: usize) -> bool
    ensures { result ≡ in_order most 0 matches.now }
{
    let mut rest = matches;
    let mut end = 0;
    while let [from, upto, more @ ..] = rest {
        if !pair_in_order(end, *from, *upto, most) {
            return false;
        }
        end = *upto;
        rest = more;
    }
    rest.is_empty()
}

impl Offsets {
    // convert_offset's beginning.
    pub(crate) fn begin(s: &[u8]) -> Offsets
        ensures { FirstOffsets s.now result }
    {
        Offsets {
            origin: 0,
            passed: 0,
            next: next_escape(s, 0),
        }
    }

    // convert_offset for an offset that is not before the last one.
    pub(crate) fn convert(self, s: &[u8], x: usize) -> Offset
        requires { OffsetReady s.now self x }
        ensures { OffsetAt s.now self x result }
    {
        let mut o = self;
        while let Some(e) = o.next {
            if o.origin + (x - o.passed) < e.from {
                return Offset {
                    value: o.origin + (x - o.passed),
                    offsets: o,
                };
            }
            o = Offsets {
                origin: e.upto,
                passed: o.passed + (e.from - o.origin),
                next: next_escape(s, e.upto),
            };
        }
        Offset {
            value: o.origin + (x - o.passed),
            offsets: o,
        }
    }
}
