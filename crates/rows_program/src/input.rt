// Standard input, in the parts that the system hands over.
ghost use Rattle.io.specs.Counts.{IsPrefixLen};
ghost use Rattle.rows_program.specs.Parts.{PartRead, PartsRead};

use rows_io::input::{Input, begin, with_part};
use std::io::Read;

// What was read, and whether the input has ended.
#[derive(Clone, Copy)]
struct Reading {
    input: Input,
    ended: bool,
}

// Reads until buf is full, the input ends or a read fails; how many bytes that are.
fn read_full<R: Read>(from: &mut R, buf: &mut [u8]) -> usize
    ensures { IsPrefixLen result buf.new }
{
    let mut done = 0;
    while done < buf.len() {
        match from.read(&mut buf[done..]) {
            Ok(n) if 0 < n => done += n,
            _ => return done,
        }
    }
    done
}

// One part more: 4,096 bytes, or fewer where the input ends.
fn more<R: Read>(from: &mut R, line: &mut [u8], state: Input) -> Reading
    ensures { PartRead line.old state line.new result }
{
    let mut buf = [0u8; 4096];
    let n = read_full(from, &mut buf);
    let input = with_part(line, state, &buf[..n]);
    Reading {
        input,
        ended: n < 4096,
    }
}

// All of the input that matters. A proved loop has to end, so it counts its turns down, from a number that no run uses up.
pub(crate) fn all<R: Read>(from: &mut R, line: &mut [u8]) -> Input
    ensures { PartsRead line.old line.new result }
{
    let mut state = Reading {
        input: begin(),
        ended: false,
    };
    let mut turns: usize = usize::MAX;
    while 0 < turns {
        let input = state.input;
        if state.ended | !input.more {
            return input;
        }
        state = more(from, line, input);
        turns -= 1;
    }
    let last = state.input;
    last
}
