// The word of an order's question, as it goes out on the line.
#![tactic(auto)]

ghost use Rattle.std.specs.Prelude.{◌≡◌};
ghost use Rattle.modbus.specs.Mapping.{type_number, word_of};

use modbus::{Question, QuestionType};

fn number(t: QuestionType) -> u8
    ensures { result ≡ type_number t }
{
    t as u8
}

// No type of a question is refused, so a word is always built.
#[tactic(auto, using(modbus::proofs::Questions::built))]
pub fn word_of(q: Question) -> u32
    ensures { result ≡ word_of q }
{
    word::build(number(q.t), q.id, q.value).unwrap()
}
