// UTF-8 decoding.
ghost use Rattle.std.specs.Prelude.{◌≡◌, ◌+◌, ◌<◌, ◌≤◌, length, get_or, drop};
ghost use Rattle.text.specs.Utf8.{decode};
ghost use Rattle.text.specs.Utf8.Code.{ascii_four, ascii_length, first_sequence, four_bytes, is_tail, run_of, sequence_for, size, three_bytes, two_bytes};

// A well-formed sequence: its scalar and the number of its bytes.
#[derive(Clone, Copy)]
pub struct Sequence {
    pub code: u32,
    pub len: usize,
}

// The byte at a place, or 0 past the end.
pub fn byte_at(s: &[u8], at: usize) -> u32
    ensures { result ≡ get_or s.now at 0 }
{
    buffer::byte_at(s, at) as u32
}

// Is it a continuation byte?
pub(crate) fn is_tail(b: u32) -> bool
    ensures { result ≡ is_tail b }
{
    (0x80 <= b) & (b <= 0xBF)
}

// The scalar of two bytes, the first of which is below E0 and the second continues a sequence: Unicode, Table 3-6.
pub(crate) fn two_bytes(a: u32, b: u32) -> Option<u32>
    ensures { result ≡ two_bytes a b }
{
    if 0xC2 <= a {
        return Some(a % 32 * 64 + b % 64);
    }
    None
}

// The scalar of three bytes, the first of which is E0 to EF and the others continue a sequence.
pub(crate) fn three_bytes(a: u32, b: u32, c: u32) -> Option<u32>
    ensures { result ≡ three_bytes a b c }
{
    let x = (a % 16 * 64 + b % 64) * 64 + c % 64;
    if (0x800 <= x) & ((x < 0xD800) | (0xDFFF < x)) {
        return Some(x);
    }
    None
}

// The scalar of four bytes, the first of which is F0 or above and the next two continue a sequence.
pub(crate) fn four_bytes(a: u32, b: u32, c: u32, d: u32) -> Option<u32>
    ensures { result ≡ four_bytes a b c d }
{
    let x = ((a % 8 * 64 + b % 64) * 64 + c % 64) * 64 + d % 64;
    if ((a <= 0xF4) & is_tail(d)) & ((0x10000 <= x) & (x <= 0x10FFFF)) {
        return Some(x);
    }
    None
}

// The sequence of so many bytes for a scalar.
#[tactic(auto, unfolding(crate::specs::Utf8::Code::sequence_for))]
fn sequence_of(code: Option<u32>, len: usize) -> Option<Sequence>
    ensures { result ≡ sequence_for code len }
{
    Some(Sequence { code: code?, len })
}

// The sequence at a byte above 7F.
fn decode_long(s: &[u8], at: usize) -> Option<Sequence>
    requires { (at < length s.now) × (0x7F < get_or s.now at 0) }
    ensures { result ≡ first_sequence (decode (drop at s.now)) }
{
    let a = s[at] as u32;
    let b = byte_at(s, at + 1);
    if !is_tail(b) {
        return None;
    }
    if a <= 0xDF {
        return sequence_of(two_bytes(a, b), 2);
    }
    let c = byte_at(s, at + 2);
    if !is_tail(c) {
        return None;
    }
    if a <= 0xEF {
        return sequence_of(three_bytes(a, b, c), 3);
    }
    sequence_of(four_bytes(a, b, c, byte_at(s, at + 3)), 4)
}

// The sequence at a place, where the bytes there are one.
pub fn decode(s: &[u8], at: usize) -> Option<Sequence>
    requires { at < length s.now }
    ensures { result ≡ first_sequence (decode (drop at s.now)) }
{
    let a = s[at] as u32;
    if a <= 0x7F {
        return Some(Sequence { code: a, len: 1 });
    }
    decode_long(s, at)
}

// The sequence that the bytes begin with.
pub fn first_sequence(s: &[u8]) -> Option<Sequence>
    ensures { result ≡ first_sequence (decode s.now) }
{
    if s.is_empty() {
        return None;
    }
    decode(s, 0)
}

// Do four bytes below 80 stand at a place?
fn is_ascii4(s: &[u8], at: usize) -> bool
    requires { at ≤ length s.now }
    ensures { result ≡ ascii_four s.now at }
{
    if s.len() - at < 4 {
        return false;
    }
    (s[at] < 0x80) & ((s[at + 1] < 0x80) & ((s[at + 2] < 0x80) & (s[at + 3] < 0x80)))
}

// Past the bytes below 80, four at a time.
fn ascii_end(s: &[u8], at: usize) -> usize
    requires { at ≤ length s.now }
    ensures { result ≡ at + ascii_length (drop at s.now) }
{
    let mut p = at;
    while p < s.len() {
        if is_ascii4(s, p) {
            p += 4;
        } else {
            if 0x80 <= s[p] {
                return p;
            }
            p += 1;
        }
    }
    p
}

// The end of the run of valid text that begins at a place.
#[inline]
pub fn run_end(s: &[u8], at: usize) -> usize
    requires { at ≤ length s.now }
    ensures { result ≡ at + size (run_of (decode (drop at s.now))) }
{
    let mut p = at;
    while p < s.len() {
        if s[p] < 0x80 {
            p = ascii_end(s, p);
        } else {
            let Some(u) = decode_long(s, p) else {
                return p;
            };
            p += u.len;
        }
    }
    p
}
