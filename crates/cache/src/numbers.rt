// `cached_rows` and `cached_height` for programs: with a span list of their own, and the records as numbers (spans::numbers).
ghost use Rattle.std.specs.Prelude.{length};
ghost use Rattle.text.specs.Width.{profile01};
ghost use Rattle.spans.specs.Numbers.{places_in};
ghost use Rattle.cache.specs.Calls.{cached_rows_call, cached_height_call};
ghost use Rattle.cache.specs.Numbers.{CachedRowsNumbers, CachedHeightNumbers};

use spans::numbers::{no_spans, places_in, write_numbers};
use text::Answer;

pub fn cached_rows_numbers(
    line: &[u8],
    width: usize,
    mode: usize,
    wraps: &mut [usize; 8212],
    conv: &mut [u8],
    numbers: &mut [usize],
    rows: &mut [usize],
) -> Answer
    ensures { CachedRowsNumbers (cached_rows_call profile01 wraps.old (length conv.old) (places_in (length numbers.old)) (length rows.old) width mode line.now) (length numbers.old) result conv.new numbers.new rows.new wraps.new }
{
    let mut list = no_spans();
    let spans = &mut list[..places_in(numbers.len())];
    let answer = super::cached_rows(line, width, mode, wraps, conv, spans, rows);
    write_numbers(spans, numbers);
    answer
}

pub fn cached_height_numbers(
    line: &[u8],
    width: usize,
    mode: usize,
    wraps: &mut [usize; 8212],
    conv: &mut [u8],
    numbers: &mut [usize],
) -> Answer
    ensures { CachedHeightNumbers (cached_height_call profile01 wraps.old (length conv.old) (places_in (length numbers.old)) width mode line.now) (length numbers.old) result conv.new numbers.new wraps.new }
{
    let mut list = no_spans();
    let spans = &mut list[..places_in(numbers.len())];
    let answer = super::cached_height(line, width, mode, wraps, conv, spans);
    write_numbers(spans, numbers);
    answer
}
