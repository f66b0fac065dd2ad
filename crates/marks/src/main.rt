// Marks before and after: composed in memory and clipped there, and written straight into a change list. What differs is printed, and how
// many were compared.
#![tactic(auto)]

mod alone;
mod composed;
mod drawn;

// The descriptor of standard output.
const STDOUT_FILENO: i32 = 1;

fn print_count(n: u32, what: &[u8]) {
    io::print_decimal(STDOUT_FILENO, n as u64);
    io::write_all(STDOUT_FILENO, what);
}

fn main() {
    alone::compare_bytes();
    alone::compare_scalars();
    alone::compare_limits();
    io::write_all(
        STDOUT_FILENO,
        b"marks of 256 bytes and 4374 scalars compared, clipped at each column\n",
    );
    let n = drawn::compare_bytes();
    print_count(n, b" drawings of bytes with marks compared\n");
    let m = drawn::compare_scalars();
    print_count(m, b" drawings of scalars with marks compared\n");
}
