// The frame word: its fields, its parity, what a line takes for a good one, a word from its fields, and when a boiler's word answers a question.
#![tactic(auto)]

ghost use Rattle.std.specs.Prelude.{◌≡◌};
ghost use Rattle.word.specs.Frame.{even_of, type_of, spare_of, id_of, value_of, checked_of, built_of, suits_of, matches_of};

use refusals::Refusal;

// A frame on its way through the box: its word, and how straight its edges were (02, Ask 3), that is the smallest and the largest distance
// between neighbouring middle edges, in samples. Both are 0 where no samples were read: no Option, since what prints a
// frame says 0 and 0 (`unmeasured`), and nothing is decided by them.
#[derive(Clone, Copy)]
pub struct Frame {
    pub word: u32,
    pub shortest: u8,
    pub longest: u8,
}

#[tactic(auto, unfolding(crate::specs::Frame::even_of))]
pub fn even(w: u32) -> bool
    ensures { result ≡ even_of w }
{
    u32::count_ones(w) % 2 == 0
}

// The fields, each by the document's place and width. One function of place and width would be no plainer: it would have to ask that the width
// fits a byte.
#[tactic(auto, unfolding(crate::specs::Frame::type_of))]
pub fn type_of(w: u32) -> u8
    ensures { result ≡ type_of w }
{
    (w / 0x1000_0000 % 8) as u8
}

#[tactic(auto, unfolding(crate::specs::Frame::spare_of))]
pub fn spare_of(w: u32) -> u8
    ensures { result ≡ spare_of w }
{
    (w / 0x100_0000 % 16) as u8
}

#[tactic(auto, unfolding(crate::specs::Frame::id_of))]
pub fn id_of(w: u32) -> u8
    ensures { result ≡ id_of w }
{
    (w / 0x1_0000 % 256) as u8
}

#[tactic(auto, unfolding(crate::specs::Frame::value_of))]
pub fn value_of(w: u32) -> u16
    ensures { result ≡ value_of w }
{
    (w % 0x1_0000) as u16
}

// What a line asks of a word from either side, before it looks at the type.
#[tactic(auto, unfolding(crate::specs::Frame::checked_of, crate::specs::Frame::clear_of))]
pub fn check(w: u32) -> Result<(), Refusal>
    ensures { result ≡ checked_of w }
{
    if !even(w) {
        return Err(Refusal::OddParity);
    }
    if spare_of(w) != 0 {
        return Err(Refusal::SpareBits);
    }
    Ok(())
}

// A type is a number, here and everywhere: one above 7 is refused here, and an enum would ask more of who calls.
#[tactic(auto, unfolding(crate::specs::Frame::built_of))]
pub fn build(t: u8, id: u8, value: u16) -> Result<u32, Refusal>
    ensures { result ≡ built_of t id value }
{
    if 7 < t {
        return Err(Refusal::WrongType);
    }
    let bare = (t as u32) * 0x1000_0000 + (id as u32) * 0x1_0000 + (value as u32);
    Ok(bare + u32::count_ones(bare) % 2 * 0x8000_0000)
}

// Whether a boiler's type answers a question's type.
#[tactic(auto, unfolding(crate::specs::Frame::suits_of))]
fn suits(question: u8, answer: u8) -> bool
    ensures { result ≡ suits_of question answer }
{
    match answer {
        6 | 7 => true,
        4 => question == 0,
        5 => question == 1,
        _ => false,
    }
}

// Whether a boiler's word is good, and answers the question that was sent.
pub fn matches(question: u32, answer: u32) -> bool
    ensures { result ≡ matches_of question answer }
{
    if check(answer).is_err() {
        return false;
    }
    id_of(question) == id_of(answer) && suits(type_of(question), type_of(answer))
}
