// `rows`, `height` and `narrowest` for programs: with a span list of their own, and the records as numbers (spans::numbers).
ghost use Rattle.std.specs.Prelude.{length};
ghost use Rattle.text.specs.Width.{profile01};
ghost use Rattle.spans.specs.Numbers.{places_in, ReadNumbers};
ghost use Rattle.rows.specs.Calls.{rows_call, height_call};
ghost use Rattle.rows.specs.Narrowest.{narrowest_call};
ghost use Rattle.rows.specs.Numbers.{RowsNumbers, NarrowestNumbers};

use super::WidthAnswer;
use spans::numbers::{no_spans, places_in, write_numbers};
use text::Answer;

pub fn rows_numbers(
    line: &[u8],
    width: usize,
    mode: usize,
    conv: &mut [u8],
    numbers: &mut [usize],
    rows: &mut [usize],
) -> Answer
    ensures { RowsNumbers (rows_call profile01 (length conv.old) (places_in (length numbers.old)) (length rows.old) width mode line.now) (length numbers.old) result conv.new numbers.new rows.new }
{
    let mut list = no_spans();
    let spans = &mut list[..places_in(numbers.len())];
    let answer = super::rows(line, width, mode, conv, spans, rows);
    write_numbers(spans, numbers);
    answer
}

pub fn height_numbers(
    line: &[u8],
    width: usize,
    mode: usize,
    conv: &mut [u8],
    numbers: &mut [usize],
) -> Answer
    ensures { ReadNumbers (height_call profile01 (length conv.old) (places_in (length numbers.old)) width mode line.now) (length numbers.old) result conv.new numbers.new }
{
    let mut list = no_spans();
    let spans = &mut list[..places_in(numbers.len())];
    let answer = super::height(line, width, mode, conv, spans);
    write_numbers(spans, numbers);
    answer
}

pub fn narrowest_numbers(
    line: &[u8],
    mode: usize,
    wanted: usize,
    greatest: usize,
    conv: &mut [u8],
    numbers: &mut [usize],
) -> WidthAnswer
    ensures { NarrowestNumbers (narrowest_call profile01 (length conv.old) (places_in (length numbers.old)) mode wanted greatest line.now) (length numbers.old) result conv.new numbers.new }
{
    let mut list = no_spans();
    let spans = &mut list[..places_in(numbers.len())];
    let answer = super::narrowest(line, mode, wanted, greatest, conv, spans);
    write_numbers(spans, numbers);
    answer
}
