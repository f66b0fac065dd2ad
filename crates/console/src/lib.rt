// The static library: the calls under C names, declared in include/console_lines.h.
#![tactic(auto)]

ghost use Rattle.std.specs.Prelude.{◌≡◌, length};
ghost use Rattle.text.specs.Width.{profile01};
ghost use Rattle.text.specs.Calls.{convert_call, write_cells_call};
ghost use Rattle.text.specs.Calls.Code.{converted, written};
ghost use Rattle.spans.specs.Calls.{read_call};
ghost use Rattle.spans.specs.Calls.Contracts.{read_as};
ghost use Rattle.rows.specs.Calls.{rows_call, height_call};
ghost use Rattle.rows.specs.Calls.Contracts.{wrapped_as};
ghost use Rattle.rows.specs.Narrowest.{narrowest_call};
ghost use Rattle.rows.specs.Widths.{narrowed_as};
ghost use Rattle.cache.specs.Calls.{cached_rows_call, cached_height_call};
ghost use Rattle.cache.specs.Calls.Contracts.{cached_rows_as, cached_height_as};
ghost use Rattle.screen.specs.Calls.{screen_call};
ghost use Rattle.screen.specs.Stored.{store_call, restore_call};
ghost use Rattle.drawing.specs.Calls.{window_call, row_call};
ghost use Rattle.drawing.specs.Rendering.{current_of};
ghost use Rattle.drawing.specs.Requests.{drawn_as};

use rows::WidthAnswer;
use spans::Span;
use text::Answer;

#[unsafe(no_mangle)]
pub extern "C" fn console_convert(line: &[u8], conv: &mut [u8]) -> Answer
    ensures { converted result conv.new ≡ convert_call profile01 (length conv.old) line.now }
{
    text::convert(line, conv)
}

#[unsafe(no_mangle)]
pub extern "C" fn console_read(
    line: &[u8],
    matches: &[usize],
    conv: &mut [u8],
    spans: &mut [Span],
) -> Answer
    ensures { read_as result conv.new spans.new ≡ read_call profile01 (length conv.old) (length spans.old) matches.now line.now }
{
    spans::read(line, matches, conv, spans)
}

#[unsafe(no_mangle)]
pub extern "C" fn console_rows(
    line: &[u8],
    width: usize,
    mode: usize,
    conv: &mut [u8],
    spans: &mut [Span],
    rows: &mut [usize],
) -> Answer
    ensures { wrapped_as result conv.new spans.new rows.new ≡ rows_call profile01 (length conv.old) (length spans.old) (length rows.old) width mode line.now }
{
    rows::rows(line, width, mode, conv, spans, rows)
}

#[unsafe(no_mangle)]
pub extern "C" fn console_height(
    line: &[u8],
    width: usize,
    mode: usize,
    conv: &mut [u8],
    spans: &mut [Span],
) -> Answer
    ensures { read_as result conv.new spans.new ≡ height_call profile01 (length conv.old) (length spans.old) width mode line.now }
{
    rows::height(line, width, mode, conv, spans)
}

#[unsafe(no_mangle)]
pub extern "C" fn console_narrowest(
    line: &[u8],
    mode: usize,
    wanted: usize,
    greatest: usize,
    conv: &mut [u8],
    spans: &mut [Span],
) -> WidthAnswer
    ensures { narrowed_as result conv.new spans.new ≡ narrowest_call profile01 (length conv.old) (length spans.old) mode wanted greatest line.now }
{
    rows::narrowest(line, mode, wanted, greatest, conv, spans)
}

#[unsafe(no_mangle)]
pub extern "C" fn console_cached_rows(
    line: &[u8],
    width: usize,
    mode: usize,
    wraps: &mut [usize; 8212],
    conv: &mut [u8],
    spans: &mut [Span],
    rows: &mut [usize],
) -> Answer
    ensures { cached_rows_as result conv.new spans.new rows.new wraps.new ≡ cached_rows_call profile01 wraps.old (length conv.old) (length spans.old) (length rows.old) width mode line.now }
{
    cache::cached_rows(line, width, mode, wraps, conv, spans, rows)
}

#[unsafe(no_mangle)]
pub extern "C" fn console_cached_height(
    line: &[u8],
    width: usize,
    mode: usize,
    wraps: &mut [usize; 8212],
    conv: &mut [u8],
    spans: &mut [Span],
) -> Answer
    ensures { cached_height_as result conv.new spans.new wraps.new ≡ cached_height_call profile01 wraps.old (length conv.old) (length spans.old) width mode line.now }
{
    cache::cached_height(line, width, mode, wraps, conv, spans)
}

#[unsafe(no_mangle)]
pub extern "C" fn console_draw_window(
    reader: usize,
    line: &[u8],
    matches: &[usize],
    current: usize,
    start: usize,
    end: usize,
    conv: &mut [u8],
    spans: &mut [Span],
    list: &mut [u8],
) -> Answer
    ensures { drawn_as result conv.new spans.new list.new ≡ window_call profile01 reader (length conv.old) (length spans.old) (length list.old) start end (current_of current) matches.now line.now }
{
    drawing::draw_window(
        reader, line, matches, current, start, end, conv, spans, list,
    )
}

#[unsafe(no_mangle)]
pub extern "C" fn console_draw_row(
    reader: usize,
    line: &[u8],
    matches: &[usize],
    current: usize,
    first: usize,
    count: usize,
    width: usize,
    mode: usize,
    conv: &mut [u8],
    spans: &mut [Span],
    list: &mut [u8],
) -> Answer
    ensures { drawn_as result conv.new spans.new list.new ≡ row_call profile01 reader (length conv.old) (length spans.old) (length list.old) first count width mode (current_of current) matches.now line.now }
{
    drawing::draw_row(
        reader, line, matches, current, first, count, width, mode, conv, spans, list,
    )
}

#[unsafe(no_mangle)]
pub extern "C" fn console_screen_row(list: &[u8], width: usize, out: &mut [u8]) -> Answer
    ensures { written result out.new ≡ screen_call profile01 width (length out.old) list.now }
{
    screen::screen_row(list, width, out)
}

#[unsafe(no_mangle)]
pub extern "C" fn console_store(list: &[u8], out: &mut [u8]) -> Answer
    ensures { written result out.new ≡ store_call (length out.old) list.now }
{
    screen::store(list, out)
}

#[unsafe(no_mangle)]
pub extern "C" fn console_restore(stored: &[u8], out: &mut [u8]) -> Answer
    ensures { written result out.new ≡ restore_call (length out.old) stored.now }
{
    screen::restore(stored, out)
}

#[unsafe(no_mangle)]
pub extern "C" fn console_write_cells(cells: &[u8], out: &mut [u8]) -> Answer
    ensures { written result out.new ≡ write_cells_call (length out.old) cells.now }
{
    text::write_cells(cells, out)
}
