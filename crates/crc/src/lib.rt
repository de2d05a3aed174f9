// The checksum of a Modbus message: CRC-16 with 0xA001, start 0xFFFF, low byte first, worked out bit by bit, with no table. The compiler knows
// the usual loop over a byte's bits and makes a table of 256 words of it again; the one below it leaves alone (docs/DECISIONS.md, and tests/flash
// looks at what was built).
#![tactic(auto)]

ghost use Rattle.std.specs.Prelude.{◌≡◌, ◌*◌, ◌%◌};
ghost use Rattle.crc.specs.Crc.{crc_byte, crc_of, passes_of};

// What the rest is xored with as the lowest bit goes out: 0xA001 where that was 1.
fn feedback(c: u16) -> u16
    ensures { result ≡ c % 2 * 0xa001 }
{
    if c % 2 == 1 { 0xa001 } else { 0 }
}

// The register after one more byte.
#[tactic(auto, unfolding(crate::specs::Crc::crc_bits))]
fn next(crc: u16, b: u8) -> u16
    ensures { result ≡ crc_byte crc b }
{
    let mut c = crc ^ u16::from(b);
    for _ in 0..u8::BITS {
        c = (c / 2) ^ feedback(c);
    }
    c
}

#[tactic(auto, using(crate::proofs::Folded::from_fold), unfolding(crate::specs::Crc::crc_of))]
pub fn checksum(s: &[u8]) -> u16
    ensures { result ≡ crc_of s.now }
{
    s.iter().copied().fold(0xffff, next)
}

// Whether a message's last two bytes are the checksum of those before them.
#[tactic(auto, unfolding(crate::specs::Crc::passes_of))]
pub fn passes(s: &[u8]) -> bool
    ensures { result ≡ passes_of s.now }
{
    let Some((body, sum)) = s.split_last_chunk() else {
        return false;
    };
    *sum == checksum(body).to_le_bytes()
}
