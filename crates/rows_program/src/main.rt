// The rows program of document 01: width, space, mode and newline on standard input, then the line; each row's index, start and end on
// standard output, or `refused` and the number of the question that refuses.
#![tactic(auto)]

mod input;

use rows_io::output::print;
use system::fail;

fn main(rt: HostRuntime) {
    let mut line = [0u8; 4097];
    let mut out = [0u8; 258048];
    let state = input::all(&mut rt.stdin(), &mut line);
    let n = print(&mut out, &line, state);
    if let Err(error) = rt.write_all(&out[..n]) {
        fail(&rt, b"standard output", error);
    }
}
