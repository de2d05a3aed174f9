// The refusals of 01, 'Numbered answers', and of 02: an error by its name, with the number that is told of it.
#![tactic(auto)]

ghost use Rattle.std.specs.Prelude.{◌≡◌};
ghost use Rattle.refusals.specs.Numbers.{number_of};

#[derive(Clone, Copy, PartialEq, Eq)]
pub enum Refusal {
    // Samples: an edge too early, none up to the latest, the last bit isn't the stop bit, a sample that is no level.
    EarlyEdge = 1,
    NoEdge = 2,
    NoStopBit = 3,
    NoLevel = 4,
    // Frames, and words that are written.
    OddParity = 5,
    WrongType = 6,
    OutOfTime = 7,
    NoMatch = 8,
    NoSuchLine = 9,
    // A real that no raw number gives.
    NoRawNumber = 10,
    // Modbus messages: these stay without a reply.
    WrongLength = 11,
    WrongChecksum = 12,
    NoSuchUnit = 13,
    NoSuchFunction = 14,
    // The lent room is too short.
    ShortRoom = 15,
    SpareBits = 16,
    WrongProtocol = 17,
    WrongCount = 18,
    // A log that breaks its layout, or has bytes over.
    BrokenLog = 19,
}

impl Refusal {
    pub fn number(self) -> u8
        ensures { result ≡ number_of self }
    {
        self as u8
    }
}
