// The fields of a case, parted by single spaces: words, decimal numbers, lists of them parted by commas, and hexadecimal bytes. `-` is
// an empty list, no bytes, or the largest number.
ghost use Rattle.std.specs.Prelude.{◌≡◌, ◌+◌, drop};
ghost use Rattle.vectors.specs.Fields.{start_of, field_of, digit_of, index_of, with_digit, decimal, listed, hex_byte, hex_bytes, Filled};

use buffer::{byte_at, push_element};

// Where the n-th field begins, or the end where there are fewer.
fn field_start(s: &[u8], n: usize) -> usize
    ensures { result ≡ start_of s.now n }
{
    let mut i = 0;
    let mut left = n;
    while i < s.len() {
        if left == 0 {
            return i;
        }
        if s[i] == b' ' {
            left -= 1;
        }
        i += 1;
    }
    i
}

// The first place from `at` on with this byte, or the end where there is none.
fn find(s: &[u8], at: usize, byte: u8) -> usize
    ensures { result ≡ at + index_of byte (drop at s.now) }
{
    let mut i = at;
    while i < s.len() {
        if s[i] == byte {
            return i;
        }
        i += 1;
    }
    i
}

// The n-th field, counted from 0.
pub(crate) fn field<'a>(s: &'a [u8], n: usize) -> &'a [u8]
    ensures { result.now ≡ field_of s.now n }
{
    let at = field_start(s, n);
    let end = find(s, at, b' ');
    &s[at..end]
}

// The value of a decimal or hexadecimal digit, 16 for any other byte.
fn digit(b: u8) -> usize
    ensures { result ≡ digit_of b }
{
    if (0x30 <= b) & (b <= 0x39) {
        return (b - 0x30) as usize;
    }
    if (0x61 <= b) & (b <= 0x66) {
        return (b - 0x57) as usize;
    }
    16
}

// A decimal digit more; where there is no such digit or no such number, the largest number.
fn with_digit(n: usize, b: u8) -> usize
    ensures { result ≡ with_digit n b }
{
    let d = digit(b);
    if 9 < d {
        return usize::MAX;
    }
    if n <= (usize::MAX - d) / 10 {
        return n * 10 + d;
    }
    usize::MAX
}

// The number that is the n-th field.
pub(crate) fn number(s: &[u8], n: usize) -> usize
    ensures { result ≡ decimal 0 (field_of s.now n) }
{
    let digits = field(s, n);
    let mut v = 0;
    for b in digits {
        v = with_digit(v, *b);
    }
    v
}

// The numbers of a list, as many as `out` holds; how many.
pub(crate) fn numbers(text: &[u8], out: &mut [usize]) -> usize
    ensures { Filled out.old out.new (listed text.now) result }
{
    if byte_at(text, 0) == b'-' {
        return 0;
    }
    let mut at = 0;
    let mut n = 0;
    for b in text {
        if *b == b',' {
            at = push_element(out, at, n);
            n = 0;
            continue;
        }
        n = with_digit(n, *b);
    }
    push_element(out, at, n).min(out.len())
}

fn hex_byte(high: u8, low: u8) -> u8
    ensures { result ≡ hex_byte high low }
{
    ((digit(high) * 16 + digit(low)) % 256) as u8
}

// The bytes of a hexadecimal text, as many as `out` holds; how many.
pub(crate) fn bytes(text: &[u8], out: &mut [u8]) -> usize
    ensures { Filled out.old out.new (hex_bytes text.now) result }
{
    let mut at = 0;
    for i in 0..text.len() / 2 {
        at = push_element(out, at, hex_byte(text[2 * i], text[2 * i + 1]));
    }
    at.min(out.len())
}
