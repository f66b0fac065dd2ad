// Answers recorded cases, one a line of standard input, and prints each with its answer: oracle/README.md has the form of a line. What
// is printed is compared with the recorded answers of the Rust source and of the models of calls that it has not, published vectors and the rows
// program's stated answers.
#![tactic(auto)]

mod cached;
mod fields;
mod models;
mod output;
mod program;
mod published;
mod recorded;

ghost use Rattle.std.specs.Prelude.{IfSome};
ghost use Rattle.io.specs.Counts.{IsPrefixLen};

use check::same;
use fields::field;

// The descriptors of standard input and output.
const STDIN_FILENO: i32 = 0;

const STDOUT_FILENO: i32 = 1;

// The length of the next line of standard input, without its newline; none where the input ends before that.
fn read_line(line: &mut [u8]) -> Option<usize>
    ensures { IfSome result (λ n. IsPrefixLen n line.new) }
{
    let mut byte = [0u8; 1];
    let mut n = 0;
    while n < line.len() {
        if io::read_full(STDIN_FILENO, &mut byte) == 0 {
            return None;
        }
        if byte[0] == b'\n' {
            return Some(n);
        }
        line[n] = byte[0];
        n += 1;
    }
    Some(n)
}

// The case and its answer; a line that is no case alone.
fn answer(s: &[u8]) {
    io::write_all(STDOUT_FILENO, s);
    let name = field(s, 0);
    if same(name, b"program") {
        program::answer(s);
    } else if same(name, b"scalars") | same(name, b"clusters") {
        published::answer(name, s);
    } else if same(name, b"cached") {
        cached::answer(s);
    } else {
        recorded::answer(name, s);
        models::answer(name, s);
    }
    io::write_all(STDOUT_FILENO, b"\n");
}

// A proved loop has to end, so it counts its turns down, from a number that no run uses up.
fn main() {
    let mut buf = [0u8; 16384];
    let mut turns = usize::MAX;
    while 0 < turns {
        let Some(n) = read_line(&mut buf) else {
            return;
        };
        answer(&buf[..n]);
        turns -= 1;
    }
}
