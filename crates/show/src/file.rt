// A file, in the parts that the system hands over; what is printed is written in large parts.
ghost use Rattle.std.specs.Prelude.{◌≡◌, take};
ghost use Rattle.show.specs.Parts.Contracts.{Taken, Written, InTurns, PartShown, MoreShown, AllShown};

use show_io::input::{Reading, with_last, with_part};
use show_io::lines::View;
use std::io::Read;
use system::{PART_SIZE, fail};

// What was read, and whether to go on: the input has not ended, and what is printed can be written.
#[derive(Clone, Copy)]
struct Reach {
    reading: Reading,
    on: bool,
}

// What was printed.
fn printed(out: &[u8], at: usize) -> &[u8]
    ensures { result.now ≡ take at out.now }
{
    if at < out.len() {
        return &out[..at];
    }
    out
}

// Writes what was printed, and says so where the system does not take it.
fn flush(rt: &HostRuntime, out: &[u8], at: usize) -> bool
    ensures { Taken result }
{
    match rt.write_all(printed(out, at)) {
        Ok(()) => true,
        Err(error) => {
            fail(rt, b"standard output", error);
            false
        }
    }
}

// What was printed is written.
fn written(rt: &HostRuntime, reading: Reading, out: &[u8]) -> Reach
    ensures { Written reading result }
{
    Reach {
        reading: Reading {
            number: reading.number,
            kept: reading.kept,
            at: 0,
        },
        on: flush(rt, out, reading.at),
    }
}

// A part, written as often as enough is printed. Each turn reads one piece of a line or more, so there are no more turns than bytes.
fn in_turns(
    rt: &HostRuntime,
    name: &[u8],
    view: View,
    before: Reading,
    part: &[u8],
    line: &mut [u8],
    out: &mut [u8],
) -> Reach
    ensures { InTurns name.now view line.old out.old line.new out.new before part.now result }
{
    let mut state = Reach {
        reading: before,
        on: true,
    };
    let mut p = 0;
    let mut turns = part.len();
    while 0 < turns {
        if state.on & (p < part.len()) {
            let r = with_part(name, view, state.reading, part, p, line, out);
            state = written(rt, r.reading, out);
            p = r.place;
            turns -= 1;
        } else {
            return state;
        }
    }
    state
}

// A part that the system handed over; the input has ended where it is empty.
#[tactic(auto, using(crate::proofs::Parts::part_none, crate::proofs::Parts::part_some))]
fn show_part(
    rt: &HostRuntime,
    name: &[u8],
    view: View,
    before: Reading,
    part: &[u8],
    line: &mut [u8],
    out: &mut [u8],
) -> Reach
    ensures { PartShown name.now view line.old out.old line.new out.new before part.now result }
{
    if part.len() == 0 {
        return Reach {
            reading: before,
            on: false,
        };
    }
    in_turns(rt, name, view, before, part, line, out)
}

// One part more.
fn more<R: Read>(
    rt: &HostRuntime,
    from: &mut R,
    name: &[u8],
    view: View,
    before: Reading,
    line: &mut [u8],
    out: &mut [u8],
) -> Reach
    ensures { MoreShown name.now view line.old out.old line.new out.new before result }
{
    let mut buf = [0u8; PART_SIZE];
    let n = match from.read(&mut buf) {
        Ok(n) => n,
        Err(error) => {
            fail(rt, name, error);
            0
        }
    };
    show_part(rt, name, view, before, &buf[..n], line, out)
}

// All of the file. A proved loop has to end, so it counts its turns down, from a number that no run uses up.
fn show_all<R: Read>(
    rt: &HostRuntime,
    from: &mut R,
    name: &[u8],
    view: View,
    line: &mut [u8],
    out: &mut [u8],
) -> Reading
    ensures { AllShown name.now view line.old out.old line.new out.new result }
{
    let mut state = Reach {
        reading: Reading {
            number: 0,
            kept: 0,
            at: 0,
        },
        on: true,
    };
    let mut turns: usize = usize::MAX;
    while 0 < turns {
        if state.on {
            state = more(rt, from, name, view, state.reading, line, out);
            turns -= 1;
        } else {
            return state.reading;
        }
    }
    let last = state.reading;
    last
}

// A file that is open, under its name.
pub(crate) fn show<R: Read>(rt: &HostRuntime, from: &mut R, name: &[u8], view: View) {
    let mut line = [0u8; 4097];
    let mut out = [0u8; 589824];
    let state = show_all(rt, from, name, view, &mut line, &mut out);
    let n = with_last(name, view, state, &line, &mut out);
    flush(rt, &out, n);
}
