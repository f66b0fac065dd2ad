// The parts of an answer as text.
ghost use Rattle.std.specs.Prelude.{◌≡◌, get_or};

use super::STDOUT_FILENO;
use buffer::byte_at;
use text::Answer;

pub(crate) fn print(text: &[u8]) {
    io::write_all(STDOUT_FILENO, text);
}

pub(crate) fn print_number(n: usize) {
    io::print_decimal(STDOUT_FILENO, n as u64);
}

// A comma, but before the first of a list.
pub(crate) fn print_comma(i: usize) {
    if 0 < i {
        print(b",");
    }
}

// The bytes from one place to another, in hexadecimal.
pub(crate) fn print_hex(bytes: &[u8], from: usize, end: usize) {
    for i in from..end {
        io::print_hex(STDOUT_FILENO, byte_at(bytes, i) as u64, 2);
    }
}

// The first n bytes, without the zeros at their end.
pub(crate) fn print_bytes(bytes: &[u8; 32776], n: usize) {
    print(b" ");
    let mut end = n;
    while 0 < end {
        if byte_at(bytes, end - 1) != 0 {
            return print_hex(bytes, 0, end);
        }
        end -= 1;
    }
    print(b"-");
}

// The number at a place, or 0 past the end.
fn number_at(numbers: &[usize], at: usize) -> usize
    ensures { result ≡ get_or numbers.now at 0 }
{
    numbers.get(at).copied().unwrap_or(0)
}

// The first n numbers, parted by commas.
fn print_list(numbers: &[usize], n: usize) {
    for i in 0..n {
        print_comma(i);
        print_number(number_at(numbers, i));
    }
}

// The same without the zeros at their end.
fn print_trimmed(numbers: &[usize], n: usize) {
    print(b" ");
    let mut end = n;
    while 0 < end {
        if number_at(numbers, end - 1) != 0 {
            return print_list(numbers, end);
        }
        end -= 1;
    }
    print(b"-");
}

pub(crate) fn print_numbers(numbers: &[usize; 4096], n: usize) {
    print_trimmed(numbers, n);
}

// The heads of kept wraps.
pub(crate) fn print_heads(wraps: &[usize; 8212]) {
    print_trimmed(wraps, 20);
}

// Number, count, and the converted bytes in the first n of `conv`.
pub(crate) fn print_answer(a: Answer, conv: &[u8; 32776], n: usize) {
    print(b" = ");
    print_number(a.number);
    print(b" ");
    print_number(a.count);
    print_bytes(conv, n);
}
