// Layer 1, text: UTF-8, classes, widths, clusters and overstrike conversion.
#![tactic(auto)]

ghost use Rattle.std.specs.Prelude.{◌≡◌, length};
ghost use Rattle.text.specs.Width.{profile01};
ghost use Rattle.text.specs.Calls.{convert_call, write_cells_call};
ghost use Rattle.text.specs.Calls.Code.{answer_of, converted, kept_by, written};

use buffer::clear;
pub use refusal::{Refusal, clear_refused};

mod backward;
mod cells;
pub mod class;
pub mod overstrike;
pub mod printable;
pub mod refusal;
mod rules;
pub mod scalar;
pub mod segmentation;
pub mod utf8;
pub mod width;

// The most bytes that a line has.
pub const LINE_MAX: usize = 4096;

// A place in a line, counted in bytes.
#[repr(C)]
#[derive(Clone, Copy)]
pub struct BytePlace(pub usize);

// A column of the screen, counted in cells.
#[derive(Clone, Copy)]
pub struct Column(pub usize);

// A part of a text from some place on: where it ends, and its width.
#[derive(Clone, Copy)]
pub struct TextPart {
    pub end: BytePlace,
    pub width: Column,
}

// What a call returns: 0 and a count, or the number of the question that refuses it and 0.
#[repr(C)]
#[derive(Clone, Copy)]
pub struct Answer {
    pub number: usize,
    pub count: usize,
}

// The call `convert`: the converted line in conv and zeros after it.
pub fn convert(line: &[u8], conv: &mut [u8]) -> Answer
    ensures { converted result conv.new ≡ convert_call profile01 (length conv.old) line.now }
{
    let outcome = try_convert(line, conv);
    clear_refused(outcome, conv, 0);
    Answer::from(outcome)
}

// The same, but that nothing is said of what stands in conv where the call is refused.
pub fn try_convert(line: &[u8], conv: &mut [u8]) -> Result<usize, Refusal>
    ensures { converted (answer_of result) (kept_by result 0 conv.new) ≡ convert_call profile01 (length conv.old) line.now }
{
    if LINE_MAX < line.len() {
        return Err(Refusal::LineTooLong);
    }
    if conv.len() < 8 * line.len() {
        return Err(Refusal::ConvTooShort);
    }
    let count = overstrike::convert_overstrike(class::Profile { version: 0 }, line, conv);
    clear(conv, count, 0);
    Ok(count)
}

// The call `write_cells`: what is written for the cells in out and zeros after it.
pub fn write_cells(cells: &[u8], out: &mut [u8]) -> Answer
    ensures { written result out.new ≡ write_cells_call (length out.old) cells.now }
{
    let outcome = try_write_cells(cells, out);
    clear_refused(outcome, out, 0);
    Answer::from(outcome)
}

fn try_write_cells(cells: &[u8], out: &mut [u8]) -> Result<usize, Refusal>
    ensures { written (answer_of result) (kept_by result 0 out.new) ≡ write_cells_call (length out.old) cells.now }
{
    if !cells::are_cells(cells) {
        return Err(Refusal::CellsMalformed);
    }
    let len = cells::written_len(cells);
    if LINE_MAX < len {
        return Err(Refusal::LineTooLong);
    }
    if out.len() < len {
        return Err(Refusal::ReportTooShort);
    }
    let count = cells::push_cells(out, cells);
    clear(out, count, 0);
    Ok(count)
}
