// The words of 01, 'Modbus': what becomes of a message, what an order asks and comes to, what is replied and written. The rules over
// them, and what follows from them, are in specs/ and proofs/; there is no code here.
#![tactic(auto)]

pub mod rows;
pub mod shape;

use refusals::Refusal;

// How messages and replies are wrapped. A box has either form (02, Ask 4).
#[derive(Clone, Copy)]
pub enum MessageForm {
    // The body, and its checksum behind it.
    Serial,
    // Transaction, protocol and length in front of the body.
    Tcp,
}

// The type of a question, as it goes out on the line.
#[derive(Clone, Copy)]
pub enum QuestionType {
    ReadData = 0,
    WriteData = 1,
    InvalidData = 2,
}

// What an order asks of its line's boiler; and whether it is a read alone, which takes the master's own status with it for ids 0 and 70 (02,
// Ask 2).
#[derive(Clone, Copy)]
pub struct Question {
    pub t: QuestionType,
    pub id: u8,
    pub value: u16,
    pub alone: bool,
}

// How the normal reply goes on after unit and function.
#[derive(Clone, Copy)]
pub enum Form {
    // 02, value.
    Value,
    // Offset, value from the boiler.
    OffsetValue,
    // Offset, 0001.
    OffsetOne,
    // 00.
    Zero,
    // None: always an exception.
    Never,
    // 02, value, for a DATA-INVALID too.
    ValueOfInvalid,
    // Offset, value, 00, type times 16.
    Whole,
}

// A question for a line, and what its reply will need.
#[derive(Clone, Copy)]
pub struct Order {
    pub line: u8,
    pub question: Question,
    pub function: u8,
    pub offset: u16,
    pub form: Form,
}

// What an order came to: the boiler's type and value, or no answer. No Option: 'no answer' is 01's word for an outcome, and the promises use it. The type
// is a number, since the reply's bytes are said of every type that an answer could name (`normal_of`, specs/Outcomes.antt).
#[derive(Clone, Copy)]
pub enum Outcome {
    Answer(u8, u16),
    NoAnswer,
}

// A code or a type is a number: the bytes of an exception and of 41's reply are said of each one, not of 01's alone (`body_of`, specs/Wire.antt).
#[derive(Clone, Copy)]
pub enum Reply {
    // Unit, function, code.
    Exception(u8, u8, u8),
    // Unit, function, value: 02, value.
    Value(u8, u8, u16),
    // Unit, function, offset, value: offset, value.
    Offset(u8, u8, u16, u16),
    // Unit, function: 00.
    Zero(u8, u8),
    // Unit, offset, value, type: offset, value, 00, type times 16.
    Whole(u8, u16, u16, u8),
}

// What becomes of a message.
#[derive(Clone, Copy)]
pub enum Reading {
    // Refusal 11 to 14, 17 or 18: no reply at all.
    Silent(Refusal),
    // An exception, or unit 5's reply.
    AtOnce(Reply),
    // Whether there is a status to send, and whether another order already waits, is for the box to say: `lacking_of` and `busy_of`
    // (specs/Outcomes.antt) are the replies then.
    Accepted(Order),
}
