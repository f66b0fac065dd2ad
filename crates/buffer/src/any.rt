// Writers of elements of any type. A slice of elements of no size may have 2^64 - 1, so the caller says that the count past the end is a usize.
ghost use Rattle.std.specs.Prelude.{◌≡◌, ◌+◌, ◌^◌, ◌<◌, length};
ghost use Rattle.buffer.specs.Sink.{sink, put, emit};

use super::copy;

// Writes one more element, as push_element does.
pub fn push<T: Copy>(out: &mut [T], at: usize, x: T) -> usize
    requires { length out.old + 1 < 2 ^ 64 }
    ensures { sink out.new result ≡ put (sink out.old at) x }
{
    if at < out.len() {
        out[at] = x;
        at + 1
    } else {
        out.len() + 1
    }
}

// The elements one by one, where they may not fit.
fn push_each<T: Copy>(out: &mut [T], at: usize, src: &[T]) -> usize
    requires { length out.old + 1 < 2 ^ 64 }
    ensures { sink out.new result ≡ emit (sink out.old at) src.now }
{
    let mut end = at;
    for x in src {
        end = push(out, end, *x);
    }
    end
}

// Writes the elements of src in order, as push_elements does.
pub fn push_all<T: Copy>(out: &mut [T], at: usize, src: &[T]) -> usize
    requires { length out.old + 1 < 2 ^ 64 }
    ensures { sink out.new result ≡ emit (sink out.old at) src.now }
{
    if at <= out.len() {
        if src.len() <= out.len() - at {
            return copy(out, at, src);
        }
    }
    push_each(out, at, src)
}
