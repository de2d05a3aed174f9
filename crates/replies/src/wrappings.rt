// A reply in each of the two wrappings, in front of a room that is large enough. It is a slice: with `first_chunk_mut::<16>()` its type would say so, but each
// proof would have to put the rest of the lent room back behind it.
ghost use Rattle.std.specs.Prelude.{◌≡◌, ◌≤◌, length};
ghost use Rattle.crc.specs.Crc.{sealed};
ghost use Rattle.modbus.specs.Wire.{body_of, placed, least_room};
ghost use Rattle.modbus.specs.Wrapping.{headed};

use crate::body::{place, put};
use modbus::Reply;

// The body, and its checksum behind it, low byte first.
#[tactic(auto, using(modbus::proofs::Replies::short_body))]
pub(crate) fn serial(reply: Reply, room: &mut [u8]) -> usize
    requires { least_room ≤ length room.old }
    ensures { (result ≡ length (sealed (body_of reply))) × (room.new ≡ placed (sealed (body_of reply)) room.old) }
{
    let n = put(reply, room);
    let checksum = crc::checksum(&room[..n]);
    n + place(checksum.to_le_bytes(), &mut room[n..])
}

// The body behind six bytes, and these: the transaction, protocol 0, and how many bytes the body has.
#[tactic(auto, using(modbus::proofs::Replies::short_body))]
pub(crate) fn tcp(transaction: u16, reply: Reply, room: &mut [u8]) -> usize
    requires { least_room ≤ length room.old }
    ensures { (result ≡ length (headed transaction (body_of reply))) × (room.new ≡ placed (headed transaction (body_of reply)) room.old) }
{
    let n = put(reply, &mut room[6..]);
    let [first, second] = transaction.to_be_bytes();
    let [high, low] = (n as u16).to_be_bytes();
    place([first, second, 0, 0, high, low], room) + n
}
