// Marks by themselves, whole and clipped at each column.
use super::STDOUT_FILENO;
use super::composed::{push_byte_mark, push_clipped, push_scalar_mark};
use check::same;
use drawing::mark::push_mark;
use drawing::write::Window;
use text::Column;
use text::class::Profile;

// The columns from offset on, so many.
fn compare(code: u32, mark: &[u8], offset: u8, width: u8) {
    let start = offset as usize;
    let end = start + width as usize;
    let mut before = [170u8; 32];
    let mut after = [170u8; 32];
    let n = push_clipped(&mut before, 0, mark, start, end);
    let window = Window {
        profile: Profile { version: 0 },
        start: Column(start),
        end: Column(end),
    };
    let m = push_mark(&mut after, 0, code, Column(mark.len()), window, Column(0));
    if n == m {
        if same(&before, &after) {
            return;
        }
    }
    io::write_all(STDOUT_FILENO, b"different ");
    io::print_hex(STDOUT_FILENO, code as u64, 2);
    io::write_all(STDOUT_FILENO, b"\n");
}

fn compare_widths(code: u32, mark: &[u8], offset: u8) {
    for width in 0..=10 {
        compare(code, mark, offset, width);
    }
}

// Every offset with every width.
fn compare_mark(code: u32, mark: &[u8]) {
    for offset in 0..=10 {
        compare_widths(code, mark, offset);
    }
}

fn compare_byte(byte: u8) {
    let mut mark = [0u8; 10];
    let n = push_byte_mark(&mut mark, byte);
    compare_mark(byte as u32, &mark[..n]);
}

fn compare_scalar(code: u32) {
    let mut mark = [0u8; 10];
    let n = push_scalar_mark(&mut mark, code);
    compare_mark(code, &mark[..n]);
}

pub(crate) fn compare_bytes() {
    for byte in 0..=0xFF {
        compare_byte(byte);
    }
}

// Scalars of four, five and six digits.
pub(crate) fn compare_scalars() {
    for code in (0..0x110000).step_by(255) {
        compare_scalar(code);
    }
}

// The first and last of five and of six.
pub(crate) fn compare_limits() {
    compare_scalar(0x10000);
    compare_scalar(0xFFFFF);
    compare_scalar(0x100000);
    compare_scalar(0x10FFFF);
}
