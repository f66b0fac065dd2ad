// Texts of printable bytes, each of one column: there alone a place and a column are one number. The crossings from one to the other.
ghost use Rattle.std.specs.Prelude.{◌≡◌, true};
ghost use Rattle.text.specs.Printable.{all_printable, BytesOf, ColumnsOf, PlaceOf};

use super::{BytePlace, Column};

// The bytes of so many columns.
pub fn bytes_of(columns: Column) -> usize
    ensures { BytesOf columns.0 result }
{
    columns.0
}

// The columns of a text.
pub fn columns_of(text: &[u8]) -> Column
    requires { all_printable text.now ≡ true }
    ensures { ColumnsOf text.now result }
{
    Column(text.len())
}

// The place of a column in a text; the text's end where it has no such column.
pub fn place_of(text: &[u8], column: Column) -> BytePlace
    requires { all_printable text.now ≡ true }
    ensures { PlaceOf text.now column.0 result }
{
    BytePlace(bytes_of(column).min(text.len()))
}
