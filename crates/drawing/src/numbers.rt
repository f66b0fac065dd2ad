// `draw_window` and `draw_row` for programs: with a span list of their own, and the records as numbers (spans::numbers).
ghost use Rattle.std.specs.Prelude.{length};
ghost use Rattle.text.specs.Width.{profile01};
ghost use Rattle.spans.specs.Numbers.{places_in};
ghost use Rattle.drawing.specs.Calls.{window_call, row_call};
ghost use Rattle.drawing.specs.Rendering.{current_of};
ghost use Rattle.drawing.specs.Numbers.{DrawnNumbers};

use spans::numbers::{no_spans, places_in, write_numbers};
use text::Answer;

pub fn draw_window_numbers(
    reader: usize,
    line: &[u8],
    matches: &[usize],
    current: usize,
    start: usize,
    end: usize,
    conv: &mut [u8],
    numbers: &mut [usize],
    list: &mut [u8],
) -> Answer
    ensures { DrawnNumbers (window_call profile01 reader (length conv.old) (places_in (length numbers.old)) (length list.old) start end (current_of current) matches.now line.now) (length numbers.old) result conv.new numbers.new list.new }
{
    let mut places = no_spans();
    let spans = &mut places[..places_in(numbers.len())];
    let answer = super::draw_window(
        reader, line, matches, current, start, end, conv, spans, list,
    );
    write_numbers(spans, numbers);
    answer
}

pub fn draw_row_numbers(
    reader: usize,
    line: &[u8],
    matches: &[usize],
    current: usize,
    first: usize,
    count: usize,
    width: usize,
    mode: usize,
    conv: &mut [u8],
    numbers: &mut [usize],
    list: &mut [u8],
) -> Answer
    ensures { DrawnNumbers (row_call profile01 reader (length conv.old) (places_in (length numbers.old)) (length list.old) first count width mode (current_of current) matches.now line.now) (length numbers.old) result conv.new numbers.new list.new }
{
    let mut places = no_spans();
    let spans = &mut places[..places_in(numbers.len())];
    let answer = super::draw_row(
        reader, line, matches, current, first, count, width, mode, conv, spans, list,
    );
    write_numbers(spans, numbers);
    answer
}
