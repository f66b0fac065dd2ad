// Lines: all rows of a line in turn, or a refusal in its place.
ghost use Rattle.std.specs.Prelude.{◌≡◌, ◌*◌, length, take};
ghost use Rattle.text.specs.Width.{profile01};
ghost use Rattle.buffer.specs.Sink.{sink, emit};
ghost use Rattle.buffer.specs.Numbers.{smaller_of};
ghost use Rattle.spans.specs.Numbers.{places_in};
ghost use Rattle.rows.specs.Calls.{height_call};
ghost use Rattle.drawing.specs.Numbers.{DrawnNumbers};
ghost use Rattle.show_io.specs.Lines.{window_end, drawn_row, unless, list_text, row_of, columns_in, columns_of, small_row, large_row, line_row, words, refused_text, refusal_text, height_of, rows_from, spans_text, line_text};
ghost use Rattle.show_io.specs.FewSpans.{DrawnTo};
ghost use Rattle.show_io.specs.Lines.Contracts.{PrintedTo, AnswerOf, answer_text};

use super::ansi::push_row;
use super::few_spans;
use super::span_text::push_numbers;
use buffer::{push_element, push_elements};
use drawing::numbers::{draw_row_numbers, draw_window_numbers};
use rows::numbers::{height_numbers, rows_numbers};
use rows_io::output::push_decimal;
use screen::screen_row;
use spans::numbers::read_numbers;
use text::Answer;

// What is drawn of a line: in mode 0 the window of `width` columns from column `start` on, in modes 1 to 4 its rows at that width; in mode 5
// its spans, without regard to start and width.
#[derive(Clone, Copy)]
pub struct View {
    pub mode: usize,
    pub start: usize,
    pub width: usize,
}

// The reader, who sees the links.
const BENCH: usize = 0;

// The column behind a window; the largest number where the sum has more than 8 bytes.
fn window_end(view: View) -> usize
    ensures { result ≡ window_end view }
{
    view.start.saturating_add(view.width)
}

// A change list in a screen row: the count after what was printed, or a refusal's number.
fn print_list(
    list: &[u8],
    columns: usize,
    line: &[u8],
    cells: &mut [u8],
    out: &mut [u8],
    at: usize,
) -> Result<usize, usize>
    ensures { PrintedTo (list_text (length cells.old) columns line.now list.now) out.old at out.new result }
{
    let t = screen_row(list, columns, cells);
    if t.number != 0 {
        return Err(t.number);
    }
    let n = t.count.min(cells.len());
    let a = push_row(out, at, line, &cells[..n]);
    Ok(push_element(out, a, 0x0A))
}

// The same of a drawing, by its answer.
fn print_drawn(
    drawn: Answer,
    conv: &[u8],
    list: &[u8],
    columns: usize,
    cells: &mut [u8],
    out: &mut [u8],
    at: usize,
) -> Result<usize, usize>
    ensures { PrintedTo (unless drawn.number (list_text (length cells.old) columns conv.now (take drawn.count list.now))) out.old at out.new result }
{
    if drawn.number != 0 {
        return Err(drawn.number);
    }
    let n = drawn.count.min(list.len());
    print_list(&list[..n], columns, conv, cells, out, at)
}

// The window in mode 0, or else a row.
fn draw_small(line: &[u8], view: View, first: usize, conv: &mut [u8], list: &mut [u8]) -> Answer
    ensures { DrawnTo (drawn_row (length conv.old) 64 (length list.old) view first line.now) result conv.new list.new }
{
    let none: [usize; 0] = [];
    if view.mode == 0 {
        return few_spans::draw_window(
            BENCH,
            line,
            &none,
            usize::MAX,
            view.start,
            window_end(view),
            conv,
            list,
        );
    }
    few_spans::draw_row(
        BENCH,
        line,
        &none,
        usize::MAX,
        first,
        1,
        view.width,
        view.mode,
        conv,
        list,
    )
}

// A row with little memory, that of its cells lent.
fn print_small(
    line: &[u8],
    view: View,
    first: usize,
    cells: &mut [u8],
    out: &mut [u8],
    at: usize,
) -> Result<usize, usize>
    ensures { PrintedTo (row_of (length cells.old) view.width (drawn_row 2048 64 2048 view first line.now)) out.old at out.new result }
{
    let mut conv = [0u8; 2048];
    let mut list = [0u8; 2048];
    let d = draw_small(line, view, first, &mut conv, &mut list);
    print_drawn(d, &conv, &list, view.width, cells, out, at)
}

fn small_row(
    line: &[u8],
    view: View,
    first: usize,
    out: &mut [u8],
    at: usize,
) -> Result<usize, usize>
    ensures { PrintedTo (small_row view line.now first) out.old at out.new result }
{
    if view.width <= 128 {
        let mut cells = [0u8; 4096];
        return print_small(line, view, first, &mut cells, out, at);
    }
    let mut cells = [0u8; 16384];
    print_small(line, view, first, &mut cells, out, at)
}

// The columns of a row in a list of rows, or the width where that is more.
fn columns_in(rows: &[usize], width: usize, first: usize) -> usize
    ensures { result ≡ columns_in rows.now width first }
{
    if first < rows.len() / 2 {
        let start = rows[2 * first];
        let end = rows[2 * first + 1];
        if start <= end {
            if width < end - start {
                return end - start;
            }
        }
    }
    width
}

fn row_columns(line: &[u8], view: View, first: usize) -> usize
    ensures { result ≡ columns_of view first line.now }
{
    if view.mode == 0 {
        return view.width;
    }
    let mut conv = [0u8; 32768];
    let mut numbers = [0usize; 8192];
    let mut rows = [0usize; 16384];
    rows_numbers(
        line,
        view.width,
        view.mode,
        &mut conv,
        &mut numbers,
        &mut rows,
    );
    columns_in(&rows, view.width, first)
}

fn draw_large(
    line: &[u8],
    view: View,
    first: usize,
    conv: &mut [u8],
    numbers: &mut [usize],
    list: &mut [u8],
) -> Answer
    ensures { DrawnNumbers (drawn_row (length conv.old) (places_in (length numbers.old)) (length list.old) view first line.now) (length numbers.old) result conv.new numbers.new list.new }
{
    let none: [usize; 0] = [];
    if view.mode == 0 {
        return draw_window_numbers(
            BENCH,
            line,
            &none,
            usize::MAX,
            view.start,
            window_end(view),
            conv,
            numbers,
            list,
        );
    }
    draw_row_numbers(
        BENCH,
        line,
        &none,
        usize::MAX,
        first,
        1,
        view.width,
        view.mode,
        conv,
        numbers,
        list,
    )
}

fn large_row(
    line: &[u8],
    view: View,
    first: usize,
    out: &mut [u8],
    at: usize,
) -> Result<usize, usize>
    ensures { PrintedTo (large_row view line.now first) out.old at out.new result }
{
    let columns = row_columns(line, view, first);
    let mut conv = [0u8; 32768];
    let mut numbers = [0usize; 8192];
    let mut list = [0u8; 131072];
    let mut cells = [0u8; 262144];
    let d = draw_large(line, view, first, &mut conv, &mut numbers, &mut list);
    print_drawn(d, &conv, &list, columns, &mut cells, out, at)
}

// A row of a line: with little memory, and where that is refused, as it is for a long line, with more.
fn line_row(
    line: &[u8],
    view: View,
    first: usize,
    out: &mut [u8],
    at: usize,
) -> Result<usize, usize>
    ensures { PrintedTo (line_row view line.now first) out.old at out.new result }
{
    if 256 < line.len() {
        return large_row(line, view, first, out, at);
    }
    if let Ok(end) = small_row(line, view, first, out, at) {
        return Ok(end);
    }
    large_row(line, view, first, out, at)
}

fn small_height(line: &[u8], view: View) -> Answer
    ensures { AnswerOf (height_call profile01 2048 64 view.width view.mode line.now) result }
{
    let mut conv = [0u8; 2048];
    few_spans::height(line, view.width, view.mode, &mut conv)
}

fn large_height(line: &[u8], view: View) -> Answer
    ensures { AnswerOf (height_call profile01 32768 2048 view.width view.mode line.now) result }
{
    let mut conv = [0u8; 32768];
    let mut numbers = [0usize; 8192];
    height_numbers(line, view.width, view.mode, &mut conv, &mut numbers)
}

fn line_height(line: &[u8], view: View) -> Answer
    ensures { AnswerOf (height_of view line.now) result }
{
    if 256 < line.len() {
        return large_height(line, view);
    }
    let a = small_height(line, view);
    if a.number == 0 {
        return a;
    }
    large_height(line, view)
}

// Why a line is refused.
fn push_words(out: &mut [u8], at: usize, number: usize) -> usize
    ensures { sink out.new result ≡ emit (sink out.old at) (words number) }
{
    if number == 1 {
        return push_elements(out, at, b"the line has more than 4,096 bytes");
    }
    if number == 4 {
        return push_elements(out, at, b"more spans than the list has places");
    }
    if number == 5 {
        return push_elements(out, at, b"a number beyond its limit");
    }
    if number == 8 {
        return push_elements(out, at, b"a cluster wider than the window");
    }
    if number == 9 {
        return push_elements(out, at, b"more to print than there is room for");
    }
    push_elements(out, at, b"not drawn")
}

// `refused`, a refusal's number and its words.
fn push_refused(out: &mut [u8], at: usize, number: usize) -> usize
    ensures { sink out.new result ≡ emit (sink out.old at) (refused_text number) }
{
    let a = push_elements(out, at, b": refused ");
    let b = push_decimal(out, a, number);
    let c = push_elements(out, b, b": ");
    let d = push_words(out, c, number);
    push_element(out, d, 0x0A)
}

// `NAME:LINE: refused N: words`.
pub fn push_refusal(out: &mut [u8], at: usize, name: &[u8], line: usize, number: usize) -> usize
    ensures { sink out.new result ≡ emit (sink out.old at) (refusal_text name.now line number) }
{
    let a = push_elements(out, at, name);
    let b = push_element(out, a, 0x3A);
    let c = push_decimal(out, b, line);
    push_refused(out, c, number)
}

// So many rows; a refused one is the last.
fn push_rows(
    out: &mut [u8],
    at: usize,
    name: &[u8],
    number: usize,
    view: View,
    line: &[u8],
    count: usize,
) -> usize
    ensures { sink out.new result ≡ emit (sink out.old at) (rows_from name.now number view line.now 0 count) }
{
    let mut a = at;
    for i in 0..count {
        match line_row(line, view, i, out, a) {
            Ok(end) => a = end,
            Err(refusal) => return push_refusal(out, a, name, number, refusal),
        }
    }
    a
}

// How many of n numbers are the first `count` spans'.
fn numbers_len(n: usize, count: usize) -> usize
    ensures { result ≡ smaller_of (4 * count) n }
{
    if count <= n / 4 {
        return 4 * count;
    }
    n
}

fn push_read(
    out: &mut [u8],
    at: usize,
    name: &[u8],
    number: usize,
    answer: Answer,
    conv: &[u8],
    numbers: &[usize],
) -> usize
    ensures { sink out.new result ≡ emit (sink out.old at) (answer_text name.now number answer.number answer.count conv.now numbers.now) }
{
    if answer.number == 0 {
        let n = numbers_len(numbers.len(), answer.count);
        return push_numbers(out, at, number, conv, &numbers[..n]);
    }
    push_refusal(out, at, name, number, answer.number)
}

// All spans of the line with a number in a file, or its refusal.
fn push_spans(out: &mut [u8], at: usize, name: &[u8], number: usize, line: &[u8]) -> usize
    ensures { sink out.new result ≡ emit (sink out.old at) (spans_text name.now number line.now) }
{
    let none: [usize; 0] = [];
    let mut conv = [0u8; 32768];
    let mut numbers = [0usize; 8192];
    let a = read_numbers(line, &none, &mut conv, &mut numbers);
    push_read(out, at, name, number, a, &conv, &numbers)
}

// What is printed for a line of a file, with its number there.
pub(crate) fn push_line(
    out: &mut [u8],
    at: usize,
    name: &[u8],
    number: usize,
    view: View,
    line: &[u8],
) -> usize
    ensures { sink out.new result ≡ emit (sink out.old at) (line_text name.now number view line.now) }
{
    if view.mode == 0 {
        return push_rows(out, at, name, number, view, line, 1);
    }
    if view.mode == 5 {
        return push_spans(out, at, name, number, line);
    }
    let h = line_height(line, view);
    if h.number == 0 {
        return push_rows(out, at, name, number, view, line, h.count);
    }
    push_refusal(out, at, name, number, h.number)
}
