// The program `show`: received lines as the console draws them, as ANSI text.
//
// show WIDTH MODE START [FILE ..]: each line of the files, or of standard input, wrapped at WIDTH columns (1 to 4,096) in MODE 1 to 4, all
// its rows in turn; in MODE 0 the window of WIDTH columns from START (0 to 65,535); in MODE 5 its spans. A refused line prints its file,
// number and refusal in its place.
#![tactic(auto)]

mod arguments;
mod file;

use show_io::lines::View;
use system::{PATH_MAX, open_argument};

// The file that an argument names.
fn show_argument(rt: &HostRuntime, i: usize, view: View) {
    let mut path = [0u8; PATH_MAX];
    if let Some((mut from, name)) = open_argument(rt, b"show", i, &mut path) {
        file::show(rt, &mut from, name, view);
    }
}

fn show_arguments(rt: &HostRuntime, count: usize, view: View) {
    let mut i: usize = 4;
    while i < count {
        show_argument(rt, i, view);
        i += 1;
    }
}

fn main(rt: HostRuntime) {
    let given = arguments::read(&rt);
    if given.ok {
        if given.count <= 4 {
            file::show(&rt, &mut rt.stdin(), b"-", given.view);
            return;
        }
        show_arguments(&rt, given.count, given.view);
        return;
    }
    let _ = rt.eprint(
        "usage: show WIDTH MODE START [FILE ..]\nWIDTH 1 to 4096 columns, MODE 0 window from column START (0 to 65535), 1 or 3 by cluster, 2 or 4 by word, 5 spans\n",
    );
}
