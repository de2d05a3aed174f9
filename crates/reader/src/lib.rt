// Manchester samples to frames: one sample a byte, 0 idle or 1 active, every 50 µs.
#![tactic(auto)]

ghost use Rattle.std.specs.Prelude.{◌≡◌, ◌+◌};
ghost use Rattle.reader.specs.Reads.{reader_of, step_is};
ghost use Rattle.samples.specs.declared.Phase.TheVariants.{Bits};
ghost use Rattle.samples.specs.declared.Answer.TheVariants.{Refused};
ghost use Rattle.samples.specs.Reading.{fresh_of, goes_on, gives, waited_of, start_of, past_edge, measured as measured_of, with_bit, middle_of, next_of, step_of};

use refusals::Refusal;
pub use samples::{Answer, Middle, Phase};
use word::Frame;

#[derive(Clone, Copy)]
pub struct Reader {
    pub phase: Phase,
}

#[derive(Clone, Copy)]
pub struct Step {
    pub reader: Reader,
    pub answer: Answer,
}

impl Reader {
    // So many idle samples before a frame.
    pub const IDLE: u8 = 24;

    // The start bit's middle edge, from the first edge.
    pub const START_FROM: u8 = 8;

    pub const START_TO: u8 = 14;

    // The next middle edge, from the middle edge before.
    pub const MIDDLE_FROM: u8 = 18;

    pub const MIDDLE_TO: u8 = 23;

    // The one other edge between them.
    pub const OTHER_FROM: u8 = 8;

    pub const OTHER_TO: u8 = 14;

    // The middle edges of a frame: start bit, 32 bits, stop bit.
    pub const EDGES: u8 = 34;

    pub fn fresh() -> Self
        ensures { reader_of result ≡ fresh_of }
    {
        Reader {
            phase: Phase::Waiting(0),
        }
    }

    #[tactic(auto, unfolding(samples::specs::Reading::step_of))]
    pub fn step(self, sample: u8) -> Step
        ensures { step_is result ≡ step_of (reader_of self) sample }
    {
        if sample > 1 {
            return refused(Refusal::NoLevel);
        }
        let active = sample == 1;
        match self.phase {
            Phase::Waiting(n) => still(waited(n, active)),
            Phase::Start(d) => started(d, active),
            Phase::Bits(m) => between(m, active),
        }
    }
}

// No answer yet.
fn still(phase: Phase) -> Step
    ensures { step_is result ≡ goes_on phase }
{
    Step {
        reader: Reader { phase },
        answer: Answer::Nothing,
    }
}

// After an answer the reader is a fresh one.
fn answered(answer: Answer) -> Step
    ensures { step_is result ≡ gives answer }
{
    Step {
        reader: Reader::fresh(),
        answer,
    }
}

fn refused(refusal: Refusal) -> Step
    ensures { step_is result ≡ gives (Refused refusal) }
{
    answered(Answer::Refused(refusal))
}

#[tactic(auto, unfolding(samples::specs::Reading::waited_of))]
fn waited(n: u8, active: bool) -> Phase
    ensures { result ≡ waited_of n active }
{
    if !active {
        Phase::Waiting(n.min(Reader::IDLE - 1) + 1)
    } else if n < Reader::IDLE {
        Phase::Waiting(0)
    } else {
        Phase::Start(0)
    }
}

#[tactic(auto, unfolding(samples::specs::Reading::start_of))]
fn started(before: u8, active: bool) -> Step
    ensures { step_is result ≡ start_of (before + 1) active }
{
    if before >= Reader::START_TO {
        return refused(Refusal::NoEdge);
    }
    let distance = before + 1;
    if active {
        still(Phase::Start(distance))
    } else if distance < Reader::START_FROM {
        refused(Refusal::EarlyEdge)
    } else {
        // No bit yet, and no distance: the first one is the smallest and the largest.
        past_edge(
            1,
            Frame {
                word: 0,
                shortest: 255,
                longest: 0,
            },
            false,
        )
    }
}

// Just at a middle edge: the next distance counts from here, so that errors don't add up.
fn past_edge(edges: u8, frame: Frame, active: bool) -> Step
    ensures { step_is result ≡ goes_on (Bits (past_edge edges frame active)) }
{
    still(Phase::Bits(Middle {
        edges,
        frame,
        distance: 0,
        active,
        other: false,
    }))
}

#[tactic(auto, unfolding(samples::specs::Reading::next_of))]
fn between(m: Middle, active: bool) -> Step
    ensures { step_is result ≡ next_of m (m.distance + 1) active }
{
    if m.distance >= Reader::MIDDLE_TO {
        return refused(Refusal::NoEdge);
    }
    let distance = m.distance + 1;
    if active == m.active {
        still(Phase::Bits(Middle {
            distance,
            active,
            ..m
        }))
    } else if distance >= Reader::MIDDLE_FROM {
        at_middle(m, distance, active)
    } else if m.other || !(Reader::OTHER_FROM..=Reader::OTHER_TO).contains(&distance) {
        refused(Refusal::EarlyEdge)
    } else {
        still(Phase::Bits(Middle {
            distance,
            active,
            other: true,
            ..m
        }))
    }
}

// A falling middle edge is 1, a rising one 0.
fn with_bit(f: Frame, active: bool) -> Frame
    ensures { result ≡ with_bit f active }
{
    Frame {
        word: f.word % 0x8000_0000 * 2 + u32::from(!active),
        ..f
    }
}

// How straight the edges were, with one distance more.
fn measured(f: Frame, distance: u8) -> Frame
    ensures { result ≡ measured_of f distance }
{
    Frame {
        shortest: f.shortest.min(distance),
        longest: f.longest.max(distance),
        ..f
    }
}

// A middle edge to the level `active`, so far from the one before. The 34th ends the frame; an earlier one is the word's next bit, below
// those before it.
#[tactic(auto, unfolding(samples::specs::Reading::middle_of))]
fn at_middle(m: Middle, distance: u8, active: bool) -> Step
    ensures { step_is result ≡ middle_of m distance active }
{
    let frame = measured(m.frame, distance);
    if m.edges < Reader::EDGES - 1 {
        past_edge(m.edges + 1, with_bit(frame, active), active)
    } else if active {
        refused(Refusal::NoStopBit)
    } else {
        answered(Answer::Frame(frame))
    }
}
