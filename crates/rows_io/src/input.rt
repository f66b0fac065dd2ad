// The program's input: the first line, and the line behind it as far as question 1 looks.
ghost use Rattle.std.specs.Prelude.{◌≡◌};
ghost use Rattle.rows_io.specs.Input.{start, state_of, with_part};

use super::first_line::{FirstLine, nothing, read_part};

// The first line, how many bytes of the line were read, and whether more are wanted.
#[derive(Clone, Copy)]
pub struct Input {
    pub(crate) first: FirstLine,
    pub(crate) count: usize,
    pub more: bool,
}

// Nothing read yet.
pub fn begin() -> Input
    ensures { result ≡ start }
{
    Input {
        first: nothing(),
        count: 0,
        more: true,
    }
}

// One more part of the input: the bytes of the first line, then those of the line as far as it has room. A line that fills its room is
// one that question 1 refuses.
pub fn with_part(line: &mut [u8], state: Input, part: &[u8]) -> Input
    ensures { state_of result line.new ≡ with_part (state_of state line.old) part.now }
{
    let p = read_part(state.first, part);
    let first = p.first;
    let at = p.at;
    let end = buffer::push_elements(line, state.count, &part[at..]);
    Input {
        first,
        count: end.min(line.len()),
        more: end < line.len(),
    }
}
