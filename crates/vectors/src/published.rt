// Published vectors: what bytes are decoded as, and where clusters end.
use super::fields;
use super::fields::field;
use super::output::{print, print_comma, print_number};
use check::same;
use text::class::Profile;
use text::segmentation::next_boundary;
use text::utf8::first_sequence;

// The scalars, `-` for a byte that begins no well-formed sequence.
fn print_scalars(line: &[u8]) {
    let mut i = 0;
    while i < line.len() {
        print_comma(i);
        match first_sequence(&line[i..]) {
            Some(unit) => {
                if line.len() - i < unit.len {
                    return;
                }
                print_number(unit.code as usize);
                i += unit.len;
            }
            None => {
                print(b"-");
                i += 1;
            }
        }
    }
}

// The lengths of the clusters.
fn print_clusters(line: &[u8]) {
    let mut i = 0;
    while i < line.len() {
        print_comma(i);
        let end = next_boundary(Profile { version: 0 }, line, i);
        if end <= i {
            return;
        }
        print_number(end - i);
        i = end;
    }
}

pub(crate) fn answer(name: &[u8], s: &[u8]) {
    let mut line = [0u8; 256];
    let n = fields::bytes(field(s, 1), &mut line);
    print(b" = ");
    if same(name, b"scalars") {
        return print_scalars(&line[..n]);
    }
    print_clusters(&line[..n]);
}
