// The rows of the mapping, in 01's order, and the look-up.
ghost use Rattle.std.specs.Prelude.{◌≡◌};
ghost use Rattle.modbus.specs.Mapping.{mapping_rows, offset_by, fits_of, first_of};

use modbus::Form::{Never, OffsetOne, OffsetValue, Value, ValueOfInvalid, Whole, Zero};
use modbus::QuestionType::{InvalidData, ReadData, WriteData};
use modbus::rows::Asks::{Alone, Always, ByMessage};
use modbus::rows::Page::{Any, At};
use modbus::rows::{Page, Row};
use modbus::shape::Fields;

// A row as 01's table has it: function, registers read and written, offset page, question on the line, normal reply.
macro_rules! row {
    ($function:literal, $reads:literal, $writes:literal, $page:expr, $asks:expr, $form:expr) => {
        Row {
            function: $function,
            reads: $reads,
            writes: $writes,
            page: $page,
            asks: $asks,
            form: $form,
        }
    };
}

// A constant table: a binding form (docs/DECISIONS.md, 'Forms').
const ROWS: [Row; 11] = [
    row!(0x03, 1, 0, Any, Alone, Value),
    row!(0x04, 1, 0, Any, Alone, Value),
    row!(0x06, 0, 1, Any, Always(WriteData), OffsetValue),
    row!(0x10, 0, 1, Any, Always(WriteData), OffsetOne),
    row!(0x17, 1, 0, Any, Alone, Value),
    row!(0x17, 0, 1, At(0x00), Always(WriteData), Zero),
    row!(0x17, 0, 1, At(0x02), Always(InvalidData), Never),
    row!(0x17, 1, 1, At(0x00), Always(ReadData), Value),
    row!(0x17, 1, 1, At(0x01), Always(WriteData), Value),
    row!(0x17, 1, 1, At(0x02), Always(InvalidData), ValueOfInvalid),
    row!(0x41, 0, 1, At(0x00), ByMessage, Whole),
];

// The offset that a row looks at: one that reads has the read's, one that only writes the write's.
pub(crate) fn offset(row: Row, a: Fields) -> u16
    ensures { result ≡ offset_by row a }
{
    if row.reads == 0 { a.to } else { a.from }
}

#[tactic(auto, unfolding(modbus::specs::Mapping::fits_of))]
fn fits(row: Row, a: Fields) -> bool
    ensures { result ≡ fits_of row a }
{
    row.function == a.function
        && u16::from(row.reads) == a.reads
        && u16::from(row.writes) == a.writes
        && match row.page {
            Page::Any => true,
            Page::At(high) => u16::from(high) == offset(row, a) / 256,
        }
}

fn first_of(rows: &[Row], a: Fields) -> Option<Row>
    ensures { result ≡ first_of rows.now a }
{
    rows.iter().copied().find(|row| fits(*row, a))
}

pub(crate) fn find(a: Fields) -> Option<Row>
    ensures { result ≡ first_of mapping_rows a }
{
    first_of(&ROWS, a)
}
