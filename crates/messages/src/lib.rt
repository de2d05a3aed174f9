// Modbus messages in either form: what becomes of one, silence, a reply at once or an order for a line; and what its reply brings back.
#![tactic(auto)]

mod wrappings;

ghost use Rattle.std.specs.Prelude.{◌≡◌};
ghost use Rattle.modbus.specs.Wrapping.{wrapping_of, reads};

use crate::wrappings::{serial, tcp};
use modbus::{MessageForm, Reading};
use places::pair_at;
use requests::read;

// A `match` on the form, here and below: a box holds its form as a value (02, Ask 4), so no type parameter can name its wrapping.
pub fn request(form: MessageForm, message: &[u8]) -> Reading
    ensures { result ≡ reads (wrapping_of form) message.now }
{
    let unwrapped = match form {
        MessageForm::Serial => serial(message),
        MessageForm::Tcp => tcp(message),
    };
    match unwrapped {
        Ok(body) => read(body),
        Err(refusal) => Reading::Silent(refusal),
    }
}

// A serial message has none: 0, as `wrapping_of` says.
pub fn transaction(form: MessageForm, message: &[u8]) -> u16
    ensures { result ≡ (wrapping_of form).transaction message.now }
{
    match form {
        MessageForm::Serial => 0,
        MessageForm::Tcp => pair_at(message, 0),
    }
}
