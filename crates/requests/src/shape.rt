// The form of a request: the exact length, byte count and counts, and where each field stands.
// A body is what stands between wrapping and checksum: unit, function, data.
ghost use Rattle.std.specs.Prelude.{◌≡◌};
ghost use Rattle.modbus.specs.Shape.{read_formed, many_formed, both_formed, formed_of, both_fields, read_fields, write_fields, request_fields};

use modbus::shape::Fields;
use places::{byte_at, pair_at};

#[tactic(auto, unfolding(modbus::specs::Shape::read_formed))]
fn read_formed(b: &[u8]) -> bool
    ensures { result ≡ read_formed b.now }
{
    b.len() == 6 && pair_at(b, 4) == 1
}

#[tactic(auto, unfolding(modbus::specs::Shape::many_formed))]
fn many_formed(b: &[u8]) -> bool
    ensures { result ≡ many_formed b.now }
{
    b.len() == 9 && byte_at(b, 6) == 2 && pair_at(b, 4) == 1
}

#[tactic(auto, unfolding(modbus::specs::Shape::both_formed))]
fn both_formed(b: &[u8]) -> bool
    ensures { result ≡ both_formed b.now }
{
    let count = usize::from(byte_at(b, 10));
    let reads = pair_at(b, 4);
    let writes = pair_at(b, 8);
    b.len() == 11 + count
        && count == usize::from(writes) * 2
        && reads <= 1
        && writes <= 1
        && 1 <= reads + writes
}

// Exact length and byte count, then counts.
#[tactic(auto, unfolding(modbus::specs::Shape::formed_of))]
pub(crate) fn formed(function: u8, b: &[u8]) -> bool
    ensures { result ≡ formed_of function b.now }
{
    match function {
        0x06 => b.len() == 6,
        0x10 => many_formed(b),
        0x17 => both_formed(b),
        0x41 => b.len() == 8,
        _ => read_formed(b),
    }
}

fn both_fields(b: &[u8]) -> Fields
    ensures { result ≡ both_fields b.now }
{
    Fields {
        function: 0x17,
        reads: pair_at(b, 4),
        writes: pair_at(b, 8),
        from: pair_at(b, 2),
        to: pair_at(b, 6),
        value: pair_at(b, 11),
        message: 0,
    }
}

fn read_fields(function: u8, from: u16) -> Fields
    ensures { result ≡ read_fields function from }
{
    Fields {
        function,
        reads: 1,
        writes: 0,
        from,
        to: 0,
        value: 0,
        message: 0,
    }
}

fn write_fields(function: u8, to: u16, value: u16, message: u16) -> Fields
    ensures { result ≡ write_fields function to value message }
{
    Fields {
        function,
        reads: 0,
        writes: 1,
        from: 0,
        to,
        value,
        message,
    }
}

// What a body of the right form says.
#[tactic(auto, unfolding(modbus::specs::Shape::request_fields))]
pub(crate) fn says(function: u8, b: &[u8]) -> Fields
    ensures { result ≡ request_fields function b.now }
{
    match function {
        0x06 => write_fields(function, pair_at(b, 2), pair_at(b, 4), 0),
        0x10 => write_fields(function, pair_at(b, 2), pair_at(b, 7), 0),
        0x17 => both_fields(b),
        0x41 => write_fields(function, pair_at(b, 2), pair_at(b, 4), pair_at(b, 6)),
        _ => read_fields(function, pair_at(b, 2)),
    }
}
