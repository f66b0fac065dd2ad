// What programs ask of the system beside what they read and print: arguments, files by name, and lines on standard error.
#![tactic(auto)]

use arrayvec::ArrayString;
use std::env::FillError;
use std::fmt::Write as _;
use std::fs::File;
use std::io::{Error, Write as _};
use std::rt::Env;

// The longest name of a file, as Linux has it.
pub const PATH_MAX: usize = 4096;

// How many bytes of a file are asked for at a time.
pub const PART_SIZE: usize = 65536;

// Room for the system's words for an error.
const WORDS_MAX: usize = 128;

// A line on standard error: what failed, and why.
fn say(rt: &HostRuntime, what: &[u8], why: &str) {
    let mut to = rt.stderr();
    let _ = to.write_all(what);
    let _ = to.write_all(b": ");
    let _ = to.write_all(why.as_bytes());
    let _ = to.write_all(b"\n");
}

// Says that something failed in the system's words for the error, without the number that std puts after them.
pub fn fail(rt: &HostRuntime, what: &[u8], error: Error) {
    let mut text = ArrayString::<WORDS_MAX>::new();
    let _ = write!(text, "{error}");
    let words = text.as_str();
    match words.split_once(" (os error ") {
        Some((why, _)) => say(rt, what, why),
        None => say(rt, what, words),
    }
}

// How many arguments the program was started with, its own name among them.
pub fn argument_count(rt: &impl Env) -> usize {
    for i in 0..usize::MAX {
        if let Err(FillError::NotPresent) = rt.arg(i, &mut [0u8; 1]) {
            return i;
        }
    }
    usize::MAX
}

// The file that a name names; where it cannot be opened that is said.
fn open(rt: &HostRuntime, name: &[u8]) -> Option<File> {
    let Ok(path) = str::from_utf8(name) else {
        say(rt, name, "the name is not UTF-8");
        return None;
    };
    match File::open(rt, path) {
        Ok(file) => Some(file),
        Err(error) => {
            fail(rt, name, error);
            None
        }
    }
}

// The file that an argument names, and its name, which stands in `path`; where it cannot be opened that is said, an argument that is none
// under the program's name.
pub fn open_argument<'a>(
    rt: &HostRuntime,
    program: &[u8],
    i: usize,
    path: &'a mut [u8; PATH_MAX],
) -> Option<(File, &'a [u8])> {
    match rt.arg(i, path) {
        Ok(n) => {
            let name = &path[..n];
            let file = open(rt, name)?;
            Some((file, name))
        }
        Err(FillError::TooLong) => {
            say(rt, program, "File name too long");
            None
        }
        Err(FillError::NotPresent) => {
            say(rt, program, "Invalid argument");
            None
        }
    }
}
