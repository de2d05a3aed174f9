// The words of 01, 'Samples': how far a frame is read, and what a sample is answered. The
// rules over them, and what they promise, are in specs/ and proofs/; there is no code here.
#![tactic(auto)]

use refusals::Refusal;
use word::Frame;

// Past a middle edge: how many there were, the frame as far as they tell it, how far the last sample is from the last of them, that
// sample's level, and whether the one other edge was there.
#[derive(Clone, Copy)]
pub struct Middle {
    pub edges: u8,
    pub frame: Frame,
    pub distance: u8,
    pub active: bool,
    pub other: bool,
}

#[derive(Clone, Copy)]
pub enum Phase {
    // So many idle samples in a row, 24 at most.
    Waiting(u8),
    // In the start bit's first half: the last sample was active, so far from the first edge.
    Start(u8),
    Bits(Middle),
}

// In 01's words: a refusal as `Some(Err(..))` of an Option of a Result would be no plainer.
#[derive(Clone, Copy)]
pub enum Answer {
    Nothing,
    Frame(Frame),
    Refused(Refusal),
}
