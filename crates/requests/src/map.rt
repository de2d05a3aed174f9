// From the fields of a request to its answer: unit 5's, or what the rows say.
ghost use Rattle.std.specs.Prelude.{◌≡◌, MatchResult};
ghost use Rattle.modbus.specs.declared.Reading.TheVariants.{Accepted};
ghost use Rattle.modbus.specs.Mapping.{type_from, at_once, own_of, mapped_of};

use crate::rows::{find, offset};
use modbus::rows::Asks;
use modbus::shape::Fields;
use modbus::{Order, Question, QuestionType, Reading, Reply};

fn type_from(asks: Asks, message: u16) -> Option<QuestionType>
    ensures { result ≡ type_from asks message }
{
    match (asks, message) {
        (Asks::Alone, _) => Some(QuestionType::ReadData),
        (Asks::Always(t), _) => Some(t),
        (Asks::ByMessage, 0x0000) => Some(QuestionType::ReadData),
        (Asks::ByMessage, 0x0010) => Some(QuestionType::WriteData),
        (Asks::ByMessage, 0x0020) => Some(QuestionType::InvalidData),
        (Asks::ByMessage, _) => None,
    }
}

// What the rows make of a request: an order, or the code of an exception, a number since `Reply` takes each one.
#[tactic(auto, unfolding(modbus::specs::Mapping::mapped_of, modbus::specs::Mapping::unlike_of, modbus::specs::Mapping::ask_of))]
fn order(unit: u8, a: Fields) -> Result<Order, u8>
    ensures { MatchResult result (λ o. mapped_of unit a ≡ Accepted o) (λ code. mapped_of unit a ≡ at_once unit a.function code) }
{
    if a.reads != 0 && a.writes != 0 && a.from != a.to {
        return Err(0x02);
    }
    let row = find(a).ok_or(0x02)?;
    let t = type_from(row.asks, a.message).ok_or(0x03)?;
    let offset = offset(row, a);
    Ok(Order {
        line: unit,
        question: Question {
            t,
            id: (offset % 256) as u8,
            value: a.value,
            alone: matches!(row.asks, Asks::Alone),
        },
        function: a.function,
        offset,
        form: row.form,
    })
}

pub(crate) fn at_once(unit: u8, function: u8, code: u8) -> Reading
    ensures { result ≡ at_once unit function code }
{
    Reading::AtOnce(Reply::Exception(unit, function, code))
}

pub(crate) fn mapped(unit: u8, a: Fields) -> Reading
    ensures { result ≡ mapped_of unit a }
{
    match order(unit, a) {
        Ok(o) => Reading::Accepted(o),
        Err(code) => at_once(unit, a.function, code),
    }
}

// Unit 5 has one register to read, the version, and none to write.
#[tactic(auto, unfolding(modbus::specs::Mapping::own_of))]
pub(crate) fn own(a: Fields) -> Reading
    ensures { result ≡ own_of a }
{
    if a.reads != 1 || a.from != 0x0076 {
        return at_once(5, a.function, 0x02);
    }
    Reading::AtOnce(Reply::Value(5, a.function, 0x0100))
}
