// Lent memory. A buffer is written from its front with a count that saturates one past the buffer's length.
#![tactic(auto)]

ghost use Rattle.std.specs.Prelude.{◌≡◌, ◌+◌, ◌%◌, ◌^◌, ◌<◌, ◌≤◌, length, take, drop, get_or};
ghost use Rattle.buffer.specs.Sink.{sink, put, emit, Copied, cleared};
ghost use Rattle.buffer.specs.Numbers.{le2, le4, hex_digit};

pub use any::{push, push_all};

mod any;
#[cfg(test)]
mod tests;

// The byte at a place, or 0 past the end.
pub fn byte_at(s: &[u8], at: usize) -> u8
    ensures { result ≡ get_or s.now at 0 }
{
    s.get(at).copied().unwrap_or(0)
}

// What push_element writes: any count of such elements is a usize.
pub trait Element: Copy {
    // The count past the end.
    fn past(out: &[Self]) -> usize
        ensures { result ≡ length out.now + 1 };
}

impl Element for u8 {
    fn past(out: &[u8]) -> usize {
        out.len() + 1
    }
}

impl Element for usize {
    fn past(out: &[usize]) -> usize {
        out.len() + 1
    }
}

// Writes one more element at the count `at`, and returns the next count.
pub fn push_element<T: Element>(out: &mut [T], at: usize, x: T) -> usize
    ensures { sink out.new result ≡ put (sink out.old at) x }
{
    if at < out.len() {
        out[at] = x;
        at + 1
    } else {
        T::past(out)
    }
}

// Copies src to the place `at`, where there is room for it.
pub fn copy<T: Copy>(out: &mut [T], at: usize, src: &[T]) -> usize
    requires { at + length src.now ≤ length out.old }
    ensures { Copied out.old out.new at src.now result }
{
    for j in 0..src.len() {
        out[at + j] = src[j];
    }
    at + src.len()
}

// The elements one by one, where they may not fit.
fn push_each<T: Element>(out: &mut [T], at: usize, src: &[T]) -> usize
    ensures { sink out.new result ≡ emit (sink out.old at) src.now }
{
    let mut end = at;
    for x in src {
        end = push_element(out, end, *x);
    }
    end
}

// Writes the elements of src in order.
pub fn push_elements<T: Element>(out: &mut [T], at: usize, src: &[T]) -> usize
    ensures { sink out.new result ≡ emit (sink out.old at) src.now }
{
    if at <= out.len() {
        if src.len() <= out.len() - at {
            return copy(out, at, src);
        }
    }
    push_each(out, at, src)
}

// So many bytes of src from a place on, as far as it has them.
pub fn push_part(out: &mut [u8], at: usize, src: &[u8], place: usize, len: usize) -> usize
    ensures { sink out.new result ≡ emit (sink out.old at) (take len (drop place src.now)) }
{
    let from = place.min(src.len());
    let n = len.min(src.len() - from);
    push_elements(out, at, &src[from..from + n])
}

// A number in two bytes, little-endian.
pub fn push_le2(out: &mut [u8], at: usize, n: usize) -> usize
    ensures { sink out.new result ≡ emit (sink out.old at) (le2 n) }
{
    push_elements(out, at, &[(n % 256) as u8, (n / 256 % 256) as u8])
}

// A number in four bytes, little-endian.
pub fn push_le4(out: &mut [u8], at: usize, n: usize) -> usize
    ensures { sink out.new result ≡ emit (sink out.old at) (le4 n) }
{
    let bytes = [
        (n % 256) as u8,
        (n / 256 % 256) as u8,
        (n / 65536 % 256) as u8,
        (n / 16777216 % 256) as u8,
    ];
    push_elements(out, at, &bytes)
}

// The lowest hexadecimal digit of n, in capitals.
pub fn hex_digit(n: u8) -> u8
    ensures { result ≡ hex_digit (n % 16) }
{
    let digit = n % 16;
    if digit < 10 {
        b'0' + digit
    } else {
        b'A' + (digit - 10)
    }
}

// Blanks from the place `from` on; nothing where that lies past the end.
pub fn clear<T: Copy>(out: &mut [T], from: usize, blank: T)
    ensures { out.new ≡ cleared blank from out.old }
{
    if from < out.len() {
        for place in &mut out[from..] {
            *place = blank;
        }
    }
}
