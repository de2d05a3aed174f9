// The reply to an order, by its form and what the boiler's frame says.
ghost use Rattle.std.specs.Prelude.{◌≡◌};
ghost use Rattle.modbus.specs.Outcomes.{exception_of, code_of, normal_of};

use crate::exception;
use modbus::{Form, Order, Reply};

// The exception of an UNKNOWN-DATAID, else of a DATA-INVALID.
#[tactic(auto, unfolding(modbus::specs::Outcomes::code_of))]
fn refused(order: Order, t: u8) -> Reply
    ensures { result ≡ exception_of order (code_of t) }
{
    exception(order, if t == 7 { 0x02 } else { 0x04 })
}

#[tactic(auto, unfolding(modbus::specs::Outcomes::normal_of, modbus::specs::Outcomes::ordinary_of, modbus::specs::Outcomes::of_invalid))]
pub(crate) fn normal(form: Form, order: Order, t: u8, value: u16) -> Reply
    ensures { result ≡ normal_of form order t value }
{
    match (form, t) {
        // 41 gives each type as it is; the row that always ends in an exception gives none.
        (Form::Whole, _) => Reply::Whole(order.line, order.offset, value, t),
        (Form::Never, _) | (_, 7) => refused(order, t),
        // A DATA-INVALID is a normal reply in the last 17 row alone.
        (Form::ValueOfInvalid, _) => Reply::Value(order.line, order.function, value),
        (_, 6) => refused(order, t),
        (Form::Value, _) => Reply::Value(order.line, order.function, value),
        (Form::OffsetValue, _) => Reply::Offset(order.line, order.function, order.offset, value),
        (Form::OffsetOne, _) => Reply::Offset(order.line, order.function, order.offset, 0x0001),
        (Form::Zero, _) => Reply::Zero(order.line, order.function),
    }
}
