// An entity's row. What stands where in a row is said here, and by `Row::write` of `holding`, which writes it (specs/Row.antt,
// docs/LAYOUT.md).
ghost use Rattle.std.specs.Prelude.{◌≡◌, ◌+◌, ◌*◌, ◌≤◌, length};
ghost use Rattle.sight.specs.Row.{kind_in, place_in, text_at_in, text_len_in, data_len_in, count_in, text_by};

use holding::rows::Row;

// Numbers in a row.
const ROW: usize = 6;

// The row of an entity of a list, counted from 0.
pub fn of(list: &[u32], i: usize) -> Row
    requires { i * 6 + 6 ≤ length list.now }
    ensures { result ≡ record {
      kind = kind_in list.now i;
      place = place_in list.now i;
      text_at = text_at_in list.now i;
      text_len = text_len_in list.now i;
      data_len = data_len_in list.now i;
      count = count_in list.now i;
    } }
{
    let at = i * ROW;
    Row {
        kind: list[at],
        place: list[at + 1],
        text_at: list[at + 2],
        text_len: list[at + 3],
        data_len: list[at + 4],
        count: list[at + 5],
    }
}

// An entity's text.
pub fn text_of(row: Row, text: &[u8]) -> &[u8]
    requires { row.text_at + row.text_len ≤ length text.now }
    ensures { result.now ≡ text_by row text.now }
{
    let at = row.text_at as usize;
    &text[at..at + row.text_len as usize]
}
