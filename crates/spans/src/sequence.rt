// The sequences that begin with ESC, as document 01 lists them.
ghost use Rattle.std.specs.Prelude.{◌≡◌, ◌+◌, ◌≤◌, length, [], ◌∷◌};
ghost use Rattle.std.specs.List.{prefix_len};
ghost use Rattle.std.proofs.Math.Seq.{slice};
ghost use Rattle.spans.specs.Sgr.{parameters, orders};
ghost use Rattle.spans.specs.Sequence.{final, if_known, erase, charset, closed, csi, osc, parse};
ghost use Rattle.spans.specs.Sequence.Contracts.{uri_byte_but, sequence_of, Skipped, UriReady, SequenceReady, Within, uri_at};

use super::sgr::{Orders, bytes_from, scan_parameters};
use buffer::byte_at;

// What stands at an ESC, and the sequence's length, the ESC counted; of a hyperlink also its URI's place from the ESC, and the URI's
// length.
#[derive(Clone, Copy, PartialEq, Eq, Debug)]
pub enum Sequence {
    Sgr {
        len: usize,
    },
    EraseToEnd {
        len: usize,
    },
    Ignored {
        len: usize,
    },
    Hyperlink {
        uri: usize,
        uri_len: usize,
        len: usize,
    },
    LineDrawing {
        on: bool,
        len: usize,
    },
}

// One of @ABCDEFGHJLMPSTXZdf.
fn is_final(b: u8) -> bool
    ensures { result ≡ final b }
{
    matches!(
        b,
        b'@'..=b'H' | b'J' | b'L' | b'M' | b'P' | b'S' | b'T' | b'X' | b'Z' | b'd' | b'f'
    )
}

fn is_uri(b: u8, stop: u8) -> bool
    ensures { result ≡ uri_byte_but stop b }
{
    (0x20 <= b) & (b != 0x7F) & (b != stop)
}

// How many bytes in front are of a URI, or of what stands before it, up to `stop`.
fn uri_len(s: &[u8], stop: u8) -> usize
    ensures uri { result ≡ prefix_len (uri_byte_but stop) s.now }
    ensures inside { result ≤ length s.now }
{
    s.iter().take_while(|b| is_uri(**b, stop)).count()
}

// Past these, from a place on.
fn skip_uri(s: &[u8], at: usize, stop: u8) -> usize
    ensures { Skipped (uri_byte_but stop) s.now at result }
{
    at + uri_len(bytes_from(s, at), stop)
}

// `K` after n parameter bytes, of which a is the first.
#[tactic(auto, unfolding(crate::specs::Sequence::erase, crate::specs::Sequence::Contracts::sequence_of))]
fn erase(n: usize, a: u8) -> Option<Sequence>
    requires { n ≤ 65536 }
    ensures { result ≡ sequence_of (erase n a) }
{
    match (n, a) {
        (0, _) | (1, b'0') => Some(Sequence::EraseToEnd { len: 3 + n }),
        (1, b'1' | b'2') => Some(Sequence::Ignored { len: 3 + n }),
        _ => None,
    }
}

// After `ESC [`.
fn csi(s: &[u8]) -> Option<Sequence>
    requires { length s.now ≤ 65536 }
    ensures { result ≡ sequence_of (csi s.now) }
{
    let scan = scan_parameters(s);
    let n = scan.len;
    let last = byte_at(s, n);
    match last {
        b'm' => if scan.fine { style(s, n) } else { None },
        b'K' => erase(n, byte_at(s, 0)),
        _ => if is_final(last) {
            Some(Sequence::Ignored { len: 3 + n })
        } else {
            None
        },
    }
}

// `m` after n parameter bytes: recognised if the first parameter is known.
fn style(s: &[u8], n: usize) -> Option<Sequence>
    requires { n ≤ 65536 }
    ensures { result ≡ sequence_of (if_known (orders (parameters 0 s.now)) n) }
{
    Orders::at(s, 0).next()?;
    Some(Sequence::Sgr { len: 3 + n })
}

// After `ESC (`, the byte there.
#[tactic(auto, unfolding(crate::specs::Sequence::charset, crate::specs::Sequence::Contracts::sequence_of))]
fn charset(b: u8) -> Option<Sequence>
    ensures { result ≡ sequence_of (charset (b ∷ [])) }
{
    match b {
        b'0' => Some(Sequence::LineDrawing { on: true, len: 3 }),
        b'B' => Some(Sequence::LineDrawing { on: false, len: 3 }),
        _ => None,
    }
}

// A URI from m to e, which the bytes b and c follow.
#[tactic(auto, unfolding(crate::specs::Sequence::closed, crate::specs::Sequence::Contracts::sequence_of))]
fn closed(m: usize, e: usize, b: u8, c: u8) -> Option<Sequence>
    requires { Within m e }
    ensures { result ≡ sequence_of (closed m e b c) }
{
    let (uri, uri_len) = (2 + m, e - m);
    match (b, c) {
        (0x07, _) => Some(Sequence::Hyperlink {
            uri,
            uri_len,
            len: 3 + e,
        }),
        (0x1B, b'\\') => Some(Sequence::Hyperlink {
            uri,
            uri_len,
            len: 4 + e,
        }),
        _ => None,
    }
}

// After `ESC ]`: a URI at m.
#[tactic(auto, using(crate::proofs::Sequences::uri_is))]
fn uri_at(s: &[u8], m: usize) -> Option<Sequence>
    requires { UriReady s.now m }
    ensures { result ≡ sequence_of (uri_at s.now m) }
{
    let e = skip_uri(s, m, 0x7F);
    closed(m, e, byte_at(s, e), byte_at(s, e + 1))
}

// After `ESC ]`.
fn osc(s: &[u8]) -> Option<Sequence>
    requires { length s.now ≤ 65536 }
    ensures { result ≡ sequence_of (osc s.now) }
{
    let i = skip_uri(s, 2, b';');
    match (byte_at(s, 0), byte_at(s, 1), byte_at(s, i)) {
        (b'8', b';', b';') => uri_at(s, i + 1),
        _ => None,
    }
}

// After ESC.
#[tactic(auto, unfolding(crate::specs::Sequence::parse, crate::specs::Sequence::Contracts::sequence_of))]
fn parse(s: &[u8]) -> Option<Sequence>
    requires { length s.now ≤ 65536 }
    ensures { result ≡ sequence_of (parse s.now) }
{
    match s {
        [b'[', rest @ ..] => csi(rest),
        [b'(', rest @ ..] => charset(byte_at(rest, 0)),
        [b']', rest @ ..] => osc(rest),
        _ => None,
    }
}

// The sequence of the ESC at a place, in a run that ends at `end`.
pub fn sequence_at(s: &[u8], at: usize, end: usize) -> Option<Sequence>
    requires { SequenceReady s.now at end }
    ensures { result ≡ sequence_of (parse (slice (at + 1) end s.now)) }
{
    parse(&s[at + 1..end])
}
