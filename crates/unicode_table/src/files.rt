// The files that the arguments name, in the parts that the system hands over.
ghost use Rattle.std.specs.Prelude.{◌<◌, ◌≤◌, IfOk, length};
ghost use Rattle.unicode_table.specs.Files.{PartRead, PartsRead, Whole, Files};

use std::fs::File;
use std::io::Read;
use system::{PART_SIZE, PATH_MAX, fail, open_argument};
use unicode_io::reading::Reading;

// A file could not be opened or read, which was said on standard error.
#[derive(Clone, Copy, PartialEq, Eq, Debug)]
pub(crate) struct Unread;

// How many bytes the system handed over.
fn take_part(
    rt: &HostRuntime,
    file: &mut File,
    path: &[u8],
    buf: &mut [u8],
) -> Result<usize, Unread>
    ensures { IfOk result (λ n. n ≤ length buf.new) }
{
    match file.read(buf) {
        Ok(n) => Ok(n),
        Err(error) => {
            fail(rt, path, error);
            Err(Unread)
        }
    }
}

// One part more; none where it is empty, which says that the file has ended.
fn more(
    rt: &HostRuntime,
    cells: &mut [u32],
    opened: &mut File,
    path: &[u8],
    file: usize,
    before: Reading,
) -> Result<Option<Reading>, Unread>
    ensures { IfOk result (λ r. PartRead file before cells.old cells.new r) }
{
    let mut buf = [0u8; PART_SIZE];
    let n = take_part(rt, opened, path, &mut buf)?;
    if n == 0 {
        return Ok(None);
    }
    Ok(Some(before.read_part(cells, file, &buf[..n])))
}

// A file that is open. A proved loop has to end, so it counts its turns, up to a number that no run reaches.
#[tactic(auto, using(crate::specs::Files::Laws::asking_begins, crate::specs::Files::Laws::asking_turn, crate::specs::Files::Laws::asking_stops, crate::specs::Files::Laws::asking_ends))]
fn read_open(
    rt: &HostRuntime,
    cells: &mut [u32],
    opened: &mut File,
    path: &[u8],
    file: usize,
    before: Reading,
) -> Result<Reading, Unread>
    ensures { IfOk result (λ r. PartsRead file before cells.old cells.new r) }
{
    let mut reading = before;
    for _ in 0..usize::MAX {
        let Some(next) = more(rt, cells, opened, path, file, reading)? else {
            return Ok(reading);
        };
        reading = next;
    }
    Ok(reading)
}

// The file that argument `file + 1` names.
#[tactic(auto, using(crate::specs::Files::Laws::whole_read))]
fn read_file(
    rt: &HostRuntime,
    cells: &mut [u32],
    file: usize,
    before: Reading,
) -> Result<Reading, Unread>
    requires { file < 4 }
    ensures { IfOk result (λ r. Whole file before cells.old cells.new r) }
{
    let mut path = [0u8; PATH_MAX];
    match open_argument(rt, b"unicode_table", file + 1, &mut path) {
        Some((mut opened, name)) => {
            let reading = read_open(rt, cells, &mut opened, name, file, before)?;
            Ok(reading.end_file(cells, file))
        }
        None => Err(Unread),
    }
}

// All files, as many as there are arguments after the program's name.
#[tactic(auto, using(crate::specs::Files::Laws::files_begin, crate::specs::Files::Laws::files_more))]
pub(crate) fn read_all(rt: &HostRuntime, cells: &mut [u32], count: usize) -> Result<Reading, Unread>
    requires { count ≤ 4 }
    ensures { IfOk result (λ r. Files count cells.old cells.new r) }
{
    let mut reading = Reading::begin();
    for file in 0..count {
        reading = read_file(rt, cells, file, reading)?;
    }
    Ok(reading)
}
