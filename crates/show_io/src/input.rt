// Input in parts: a line is put together in a buffer, of which 4,097 bytes are enough for question 1.
ghost use Rattle.std.specs.Prelude.{◌≡◌, ◌+◌, ◌-◌, length, drop, ltb};
ghost use Rattle.buffer.specs.Sink.{sink};
ghost use Rattle.show_io.specs.Input.{line_length, pieces, is_end, next_number, fitted_of, with_piece, with_pieces};
ghost use Rattle.show_io.specs.Input.Contracts.{Kept, state_of, read_of, last_of};

use super::lines::{View, push_line, push_refusal};
use buffer::push_elements;

// From so many printed bytes on, no further line is begun.
const ENOUGH: usize = 65536;

// What a line may print, whatever was printed before it.
const MOST: usize = 524288;

// How many lines were read, how many bytes of the next one, and how many bytes were printed.
#[derive(Clone, Copy)]
pub struct Reading {
    pub number: usize,
    pub kept: usize,
    pub at: usize,
}

// What was read of a part, and the place that was reached in it.
#[derive(Clone, Copy)]
pub struct Progress {
    pub reading: Reading,
    pub place: usize,
}

// The place behind the line that begins at one.
fn line_end(part: &[u8], at: usize) -> usize
    ensures { result ≡ at + line_length (drop at part.now) }
{
    let mut i = at;
    while i < part.len() {
        if part[i] == 0x0A {
            return i + 1;
        }
        i += 1;
    }
    i
}

fn is_end(piece: &[u8]) -> bool
    ensures { result ≡ is_end piece.now }
{
    if piece.len() == 0 {
        return false;
    }
    piece[piece.len() - 1] == 0x0A
}

fn next_number(n: usize) -> usize
    ensures { result ≡ next_number n }
{
    if n < usize::MAX {
        return n + 1;
    }
    n
}

// A piece of a line more, as far as there is room; how many bytes the line then has.
fn keep(line: &mut [u8], kept: usize, piece: &[u8]) -> usize
    ensures { Kept line.old kept piece.now line.new result }
{
    let from = kept.min(line.len());
    let n = piece.len().min(line.len() - from);
    push_elements(line, from, &piece[..n])
}

// Did a line print more than it may?
fn is_long(before: usize, at: usize) -> bool
    ensures { result ≡ ltb 524288 (at - before) }
{
    if before < at {
        return MOST < at - before;
    }
    false
}

// The count behind what a line printed, or behind a refusal where that is too much or did not fit.
fn fitted(out: &mut [u8], at: usize, name: &[u8], number: usize, before: usize) -> usize
    ensures { sink out.new result ≡ fitted_of name.now number before (sink out.old at) }
{
    if (out.len() < at) | is_long(before, at) {
        return push_refusal(out, before, name, number, 9);
    }
    at
}

// A piece of a line more: the line is printed where the piece ends it.
fn with_piece(
    name: &[u8],
    view: View,
    state: Reading,
    piece: &[u8],
    line: &mut [u8],
    out: &mut [u8],
) -> Reading
    ensures { state_of result line.new out.new ≡ with_piece name.now view (length line.old) (state_of state line.old out.old) piece.now }
{
    let kept = keep(line, state.kept, piece);
    if is_end(piece) {
        let number = next_number(state.number);
        let at = push_line(out, state.at, name, number, view, &line[..kept]);
        return Reading {
            number,
            kept: 0,
            at: fitted(out, at, name, number, state.at),
        };
    }
    Reading {
        number: state.number,
        kept,
        at: state.at,
    }
}

// The lines of a part from a place on, and the beginning of the one that goes on behind it, until enough is printed.
pub fn with_part(
    name: &[u8],
    view: View,
    state: Reading,
    part: &[u8],
    from: usize,
    line: &mut [u8],
    out: &mut [u8],
) -> Progress
    ensures { read_of result part.now line.new out.new ≡ with_pieces name.now view (length line.old) 65536 (state_of state line.old out.old) (pieces (drop from part.now)) }
{
    let mut reading = state;
    let mut p = from;
    while p < part.len() {
        if ENOUGH <= reading.at {
            return Progress { reading, place: p };
        }
        let e = line_end(part, p);
        reading = with_piece(name, view, reading, &part[p..e], line, out);
        p = e;
    }
    Progress { reading, place: p }
}

// The last line, where no newline ends it.
pub fn with_last(name: &[u8], view: View, state: Reading, line: &[u8], out: &mut [u8]) -> usize
    ensures { sink out.new result ≡ last_of name.now view state line.now out.old }
{
    if state.kept == 0 {
        return state.at;
    }
    let kept = state.kept.min(line.len());
    let number = next_number(state.number);
    let at = push_line(out, state.at, name, number, view, &line[..kept]);
    fitted(out, at, name, number, state.at)
}
