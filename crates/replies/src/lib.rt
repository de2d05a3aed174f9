// Modbus replies: an exception, what an order's outcome becomes, and a reply written into a lent room.
#![tactic(auto)]

mod answers;
mod body;
mod wrappings;

ghost use Rattle.std.specs.Prelude.{◌≡◌};
ghost use Rattle.modbus.specs.Outcomes.{exception_of, answer_of};
ghost use Rattle.modbus.specs.Wrapping.{wrapping_of, reply_written, reply_room};

use crate::answers::normal;
use crate::wrappings::{serial, tcp};
use modbus::{MessageForm, Order, Outcome, Reply};
use refusals::Refusal;

// An exception to an order: at once, or as its outcome. The code is a number: what is written of it is said of each one (modbus, `Reply`).
pub fn exception(o: Order, code: u8) -> Reply
    ensures { result ≡ exception_of o code }
{
    Reply::Exception(o.line, o.function, code)
}

// The reply to an order, from what it came to.
#[tactic(auto, unfolding(modbus::specs::Outcomes::answer_of))]
pub fn answer(o: Order, w: Outcome) -> Reply
    ensures { result ≡ answer_of o w }
{
    match w {
        Outcome::Answer(t, value) => normal(o.form, o, t, value),
        Outcome::NoAnswer => exception(o, 0x0b),
    }
}

// A reply in its form, with the transaction of the message that it answers, in front of a room. (The serial form has none.) The form is the box's, the
// transaction the order's: they come from two places, and stay two parameters.
#[tactic(auto, unfolding(modbus::specs::Wrapping::reply_written, modbus::specs::Wrapping::reply_room, modbus::specs::Wrapping::writes))]
pub fn write(
    form: MessageForm,
    transaction: u16,
    reply: Reply,
    room: &mut [u8],
) -> Result<usize, Refusal>
    ensures { (result ≡ reply_written (wrapping_of form) transaction reply room.old) × (room.new ≡ reply_room (wrapping_of form) transaction reply room.old) }
{
    if room.len() < 16 {
        return Err(Refusal::ShortRoom);
    }
    Ok(match form {
        MessageForm::Serial => serial(reply, room),
        MessageForm::Tcp => tcp(transaction, reply, room),
    })
}
