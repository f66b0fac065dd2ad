// The span list as plain numbers, for programs: kind, byte place, length and match number of each record in turn. A function that gives
// its records so owns a list of 2,048 places and lends the call as many of them as the numbers have room for.
ghost use Rattle.std.specs.Prelude.{◌≡◌, ◌≤◌, ◌*◌, length, replicate};
ghost use Rattle.buffer.specs.Sink.{written_or_zero};
ghost use Rattle.text.specs.Width.{profile01};
ghost use Rattle.spans.specs.Calls.{no_record, read_call};
ghost use Rattle.spans.specs.Numbers.{numbers_of_all, places_in, ReadNumbers};

use super::{Span, read};
use buffer::{clear, push_elements};
use text::Answer;

// How many places of the list are lent where so many numbers are to hold the records.
pub fn places_in(numbers: usize) -> usize
    ensures { result ≡ places_in numbers }
{
    (numbers / 4).min(2048)
}

// The list, with no record in it.
pub fn no_spans() -> [Span; 2048]
    ensures { result ≡ replicate 2048 no_record }
{
    [Span::NONE; 2048]
}

// All records of the list, and zeros after them.
pub fn write_numbers(spans: &[Span], numbers: &mut [usize])
    requires { 4 * length spans.now ≤ length numbers.old }
    ensures { numbers.new ≡ written_or_zero (length numbers.old) (numbers_of_all spans.now) }
{
    let mut at = 0;
    for span in spans {
        at = push_elements(
            numbers,
            at,
            &[span.kind, span.place.0, span.len, span.matched],
        );
    }
    clear(numbers, at, 0);
}

// The call `read`, and its records as numbers.
pub fn read_numbers(
    line: &[u8],
    matches: &[usize],
    conv: &mut [u8],
    numbers: &mut [usize],
) -> Answer
    ensures { ReadNumbers (read_call profile01 (length conv.old) (places_in (length numbers.old)) matches.now line.now) (length numbers.old) result conv.new numbers.new }
{
    let mut spans = no_spans();
    let n = places_in(numbers.len());
    let a = read(line, matches, conv, &mut spans[..n]);
    write_numbers(&spans[..n], numbers);
    a
}
