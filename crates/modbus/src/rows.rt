// The words of the mapping's rows.
use crate::{Form, QuestionType};

// The offset's high byte. No Option: None would read as no page, where Any is every page.
#[derive(Clone, Copy)]
pub enum Page {
    Any,
    At(u8),
}

// The question on the line.
#[derive(Clone, Copy)]
pub enum Asks {
    // READ-DATA, value 0: a read alone. For ids 0 and 70 with the master's own status (02, Ask 2).
    Alone,
    // This type, with the request's value.
    Always(QuestionType),
    // The type that the message field names, with the request's value.
    ByMessage,
}

// Eight bytes.
#[derive(Clone, Copy)]
pub struct Row {
    pub function: u8,
    // Registers read and written: 0 or 1.
    pub reads: u8,
    pub writes: u8,
    pub page: Page,
    pub asks: Asks,
    pub form: Form,
}
