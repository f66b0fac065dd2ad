// The arguments: WIDTH, MODE and START, and how many there are.
ghost use Rattle.std.specs.Prelude.{◌≡◌};
ghost use Rattle.show.specs.Arguments.{in_range, ArgumentRead, ArgumentsRead};

use rows_io::first_line::{FirstLine, in_form, nothing, read_part};
use show_io::lines::View;
use std::rt::Env;
use system::argument_count;

#[derive(Clone, Copy)]
pub(crate) struct Arguments {
    pub(crate) ok: bool,
    pub(crate) view: View,
    pub(crate) count: usize,
}

// A number's argument, and what ends it, read behind what was read before.
fn with_argument(rt: &impl Env, first: FirstLine, i: usize, end: &[u8]) -> FirstLine
    ensures { ArgumentRead first end.now result }
{
    let mut text = [0u8; 32];
    let n = rt.arg(i, &mut text).unwrap_or(0);
    let a = read_part(first, &text[..n]);
    let b = read_part(a.first, end);
    b.first
}

fn in_range(v: View) -> bool
    ensures { result ≡ in_range v }
{
    (1 <= v.width) & ((v.width <= 4096) & ((v.mode <= 5) & (v.start <= 65535)))
}

pub(crate) fn read(rt: &impl Env) -> Arguments
    ensures { ArgumentsRead result }
{
    let a = with_argument(rt, nothing(), 1, b" ");
    let b = with_argument(rt, a, 2, b"\n");
    let c = with_argument(rt, nothing(), 3, b" 0\n");
    let view = View {
        mode: b.mode,
        start: c.width,
        width: b.width,
    };
    Arguments {
        ok: in_form(b) & (in_form(c) & in_range(view)),
        view,
        count: argument_count(rt),
    }
}
