// Modbus requests: from the body of a message (unit, function, data), in any wrapping, to what becomes of it: silence, a reply at once or an order for a
// line, by 01's checks in 01's order.
#![tactic(auto)]

mod functions;
mod map;
mod rows;
mod shape;

ghost use Rattle.std.specs.Prelude.{◌≡◌};
ghost use Rattle.modbus.specs.Mapping.{body_read};

use crate::functions::served;
use crate::map::{at_once, mapped, own};
use crate::shape::{formed, says};
use modbus::Reading;
use places::byte_at;
use refusals::Refusal;

#[tactic(auto, unfolding(modbus::specs::Mapping::body_read))]
pub fn read(body: &[u8]) -> Reading
    ensures { result ≡ body_read body.now }
{
    let unit = byte_at(body, 0);
    let function = byte_at(body, 1);
    if !(1..=5).contains(&unit) {
        return Reading::Silent(Refusal::NoSuchUnit);
    }
    if 0x80 <= function {
        return Reading::Silent(Refusal::NoSuchFunction);
    }
    if !served(unit, function) {
        return at_once(unit, function, 0x01);
    }
    if !formed(function, body) {
        return at_once(unit, function, 0x03);
    }
    let fields = says(function, body);
    if unit == 5 {
        own(fields)
    } else {
        mapped(unit, fields)
    }
}
