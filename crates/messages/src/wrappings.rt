// A message out of each of the two wrappings: its body, if it passes the wrapping's own checks. What becomes of the message is then what becomes of the body.
ghost use Rattle.std.specs.Prelude.{◌≡◌, MatchResult};
ghost use Rattle.modbus.specs.declared.Reading.TheVariants.{Silent};
ghost use Rattle.modbus.specs.Mapping.{body_read};
ghost use Rattle.modbus.specs.Wrapping.{serial, tcp, reads};

use places::pair_at;
use refusals::Refusal;

// Length, checksum, and the body before it.
#[tactic(auto, unfolding(modbus::specs::Wrapping::reads))]
pub(crate) fn serial(message: &[u8]) -> Result<&[u8], Refusal>
    ensures { MatchResult result (λ body. reads serial message.now ≡ body_read body.now) (λ refusal. reads serial message.now ≡ Silent refusal) }
{
    if !(4..=256).contains(&message.len()) {
        return Err(Refusal::WrongLength);
    }
    if !crc::passes(message) {
        return Err(Refusal::WrongChecksum);
    }
    Ok(&message[..message.len() - 2])
}

// Length, protocol, the length field, and the body behind them.
#[tactic(auto, unfolding(modbus::specs::Wrapping::reads))]
pub(crate) fn tcp(message: &[u8]) -> Result<&[u8], Refusal>
    ensures { MatchResult result (λ body. reads tcp message.now ≡ body_read body.now) (λ refusal. reads tcp message.now ≡ Silent refusal) }
{
    if !(8..=260).contains(&message.len()) {
        return Err(Refusal::WrongLength);
    }
    if pair_at(message, 2) != 0 {
        return Err(Refusal::WrongProtocol);
    }
    if usize::from(pair_at(message, 4)) != message.len() - 6 {
        return Err(Refusal::WrongCount);
    }
    Ok(&message[6..])
}
