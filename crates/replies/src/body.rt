// A reply's body in front of a room.
ghost use Rattle.std.specs.Prelude.{◌≡◌, ◌≤◌, length};
ghost use Rattle.modbus.specs.Wire.{body_of, placed};

use modbus::Reply;

// These bytes in front of a room, and how many they are.
pub(crate) fn place<const N: usize>(bytes: [u8; N], room: &mut [u8]) -> usize
    requires { N ≤ length room.old }
    ensures { (result ≡ N) × (room.new ≡ placed bytes.entry room.old) }
{
    room[..N].copy_from_slice(&bytes);
    N
}

// A reply's body, and how many bytes it has.
#[tactic(auto, unfolding(modbus::specs::Wire::body_of))]
pub(crate) fn put(reply: Reply, room: &mut [u8]) -> usize
    requires { 8 ≤ length room.old }
    ensures { (result ≡ length (body_of reply)) × (room.new ≡ placed (body_of reply) room.old) }
{
    match reply {
        Reply::Exception(unit, function, code) => place([unit, function % 0x80 + 0x80, code], room),
        Reply::Value(unit, function, value) => {
            let [high, low] = value.to_be_bytes();
            place([unit, function, 0x02, high, low], room)
        }
        Reply::Offset(unit, function, offset, value) => {
            let [first, second] = offset.to_be_bytes();
            let [high, low] = value.to_be_bytes();
            place([unit, function, first, second, high, low], room)
        }
        Reply::Zero(unit, function) => place([unit, function, 0x00], room),
        Reply::Whole(unit, offset, value, t) => {
            let [first, second] = offset.to_be_bytes();
            let [high, low] = value.to_be_bytes();
            place(
                [unit, 0x41, first, second, high, low, 0x00, t % 16 * 16],
                room,
            )
        }
    }
}
