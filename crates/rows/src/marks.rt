// The columns of marks.
ghost use Rattle.std.specs.Prelude.{◌≡◌, ◌*◌, ◌<◌, ◌^◌, length};
ghost use Rattle.rows.specs.Marks.{mark_columns, DrawnColumns};

use text::Column;
use text::utf8::decode;

// Of a scalar's mark: `<U+`, four digits or more, `>`.
#[tactic(auto, unfolding(crate::specs::Marks::mark_columns))]
pub fn mark_columns(code: u32) -> Column
    ensures { result.0 ≡ mark_columns code }
{
    match code {
        0..0x1_0000 => Column(8),
        0x1_0000..0x10_0000 => Column(9),
        _ => Column(10),
    }
}

// Of an Unprintable span: a mark for each scalar of its text.
pub(crate) fn drawn_columns(text: &[u8]) -> Column
    requires { 10 * length text.now < 2 ^ 64 }
    ensures { DrawnColumns text.now result.0 }
{
    let mut columns = Column(0);
    let mut p = 0;
    while p < text.len() {
        let Some(scalar) = decode(text, p) else {
            return columns;
        };
        columns = Column(columns.0 + mark_columns(scalar.code).0);
        p += scalar.len;
    }
    columns
}
