// What the program prints: each row's index, start and end, or `refused` and the number of the question that refuses.
ghost use Rattle.std.specs.Prelude.{◌≡◌, ◌*◌, take};
ghost use Rattle.buffer.specs.Sink.{sink, emit};
ghost use Rattle.buffer.specs.Numbers.{smaller_of};
ghost use Rattle.rows_io.specs.Output.{decimal, row_line, row_lines, refusal, answer_text, printed};

use super::first_line::width_of;
use super::input::Input;
use buffer::{push_element, push_elements};
use text::Answer;

pub fn push_decimal(out: &mut [u8], at: usize, n: usize) -> usize
    ensures { sink out.new result ≡ emit (sink out.old at) (decimal n) }
{
    let mut digits = [0u8; 20];
    let k = io::decimal(n as u64, &mut digits);
    push_elements(out, at, &digits[..k])
}

fn push_row(out: &mut [u8], at: usize, index: usize, start: usize, end: usize) -> usize
    ensures { sink out.new result ≡ emit (sink out.old at) (row_line index start end) }
{
    let a = push_decimal(out, at, index);
    let b = push_element(out, a, 0x20);
    let c = push_decimal(out, b, start);
    let d = push_element(out, c, 0x20);
    let e = push_decimal(out, d, end);
    push_element(out, e, 0x0A)
}

// A start and an end of `pairs` for each row.
fn push_rows(out: &mut [u8], at: usize, pairs: &[usize]) -> usize
    ensures { sink out.new result ≡ emit (sink out.old at) (row_lines 0 pairs.now) }
{
    let mut a = at;
    for i in 0..pairs.len() / 2 {
        a = push_row(out, a, i, pairs[2 * i], pairs[2 * i + 1]);
    }
    a
}

fn push_refusal(out: &mut [u8], at: usize, number: usize) -> usize
    ensures { sink out.new result ≡ emit (sink out.old at) (refusal number) }
{
    let a = push_elements(out, at, b"refused ");
    let b = push_decimal(out, a, number);
    push_element(out, b, 0x0A)
}

// How many of n numbers are the first `count` pairs.
fn pairs_len(n: usize, count: usize) -> usize
    ensures { result ≡ smaller_of (2 * count) n }
{
    if count <= n / 2 {
        return 2 * count;
    }
    n
}

fn push_answer(out: &mut [u8], at: usize, answer: Answer, rows: &[usize]) -> usize
    ensures { sink out.new result ≡ emit (sink out.old at) (answer_text answer.number answer.count rows.now) }
{
    if answer.number == 0 {
        let n = pairs_len(rows.len(), answer.count);
        return push_rows(out, at, &rows[..n]);
    }
    push_refusal(out, at, answer.number)
}

// What is printed of an input that was read, written to the front of `out`; how many bytes that are.
pub fn print(out: &mut [u8], line: &[u8], state: Input) -> usize
    ensures { sink out.new result ≡ emit (sink out.old 0) (printed state.first (take state.count line.now)) }
{
    let mut conv = [0u8; 32768];
    let mut numbers = [0usize; 8192];
    let mut rows = [0usize; 8192];
    let first = state.first;
    let n = state.count.min(line.len());
    let a = rows::numbers::rows_numbers(
        &line[..n],
        width_of(first),
        first.mode,
        &mut conv,
        &mut numbers,
        &mut rows,
    );
    push_answer(out, 0, a, &rows)
}
