// The lines of a trace: the box's time in ticks, and what was sent or told.
#![tactic(auto)]

ghost use Rattle.std.specs.Prelude.{◌≡◌};
ghost use Rattle.text.specs.Text.{empty_text, puts};
ghost use Rattle.trace.specs.Lines.{unmeasured_of, on_line, alone as alone_of, straight_of, framed as framed_of, in_hex, replied, outcome_of, refused_of, sent_of, told_of};

use promises::Told;
use text::Text;
use word::Frame;

// A line's beginning: the time, a word, and the number of a line of the box. They go through three functions as the definitions have them; a struct
// of the three would be no plainer.
#[tactic(auto, using(text::proofs::Puts::puts_append), unfolding(crate::specs::Lines::on_line, text::specs::Text::puts))]
fn on_line(time: u64, word: &[u8], line: u8) -> Text
    ensures { result ≡ puts empty_text (on_line time word.now line) }
{
    Text::empty().decimal(time).put(word).decimal(line as u64)
}

// Both numbers are 0, as those of an order's own frame are.
#[tactic(auto, unfolding(crate::specs::Lines::unmeasured_of))]
fn unmeasured(frame: Frame) -> bool
    ensures { result ≡ unmeasured_of frame }
{
    frame.shortest == 0 && frame.longest == 0
}

// How straight a frame's edges were, behind its word.
#[tactic(auto, using(text::proofs::Puts::puts_append), unfolding(crate::specs::Lines::straight_of, text::specs::Text::puts))]
fn straight(t: Text, frame: Frame) -> Text
    ensures { result ≡ puts t (straight_of frame) }
{
    if unmeasured(frame) {
        return t;
    }
    t.push(b' ')
        .decimal(frame.shortest as u64)
        .push(b' ')
        .decimal(frame.longest as u64)
}

#[tactic(auto, using(text::proofs::Puts::puts_append), unfolding(crate::specs::Lines::framed, text::specs::Text::puts))]
fn framed(time: u64, word: &[u8], line: u8, frame: Frame) -> Text
    ensures { result ≡ puts empty_text (framed_of time word.now line frame) }
{
    let t = on_line(time, word, line).push(b' ').hex(frame.word, 8);
    straight(t, frame).push(b'\n')
}

#[tactic(auto, using(text::proofs::Puts::puts_append), unfolding(crate::specs::Lines::alone, text::specs::Text::puts))]
fn alone(time: u64, word: &[u8], line: u8) -> Text
    ensures { result ≡ puts empty_text (alone_of time word.now line) }
{
    on_line(time, word, line).push(b'\n')
}

// Bytes as pairs of digits.
fn bytes(t: Text, s: &[u8]) -> Text
    ensures { result ≡ puts t (in_hex s.now) }
{
    s.iter().copied().fold(t, |shown, b| shown.hex(b as u32, 2))
}

// A reply: the first bytes of a room.
#[tactic(auto, using(text::proofs::Puts::puts_append, std::proofs::lemmas::List::take_min), unfolding(crate::specs::Lines::replied, text::specs::Text::puts))]
fn reply(time: u64, room: &[u8], count: usize) -> Text
    ensures { result ≡ puts empty_text (replied time count room.now) }
{
    let start = Text::empty().decimal(time).put(b" reply ");
    bytes(start, &room[..count.min(room.len())])
}

#[tactic(auto, using(text::proofs::Puts::puts_append), unfolding(crate::specs::Lines::outcome_of, text::specs::Text::puts))]
fn outcome(time: u64, room: &[u8], count: usize, wait: u16) -> Text
    ensures { result ≡ puts empty_text (outcome_of time count room.now wait) }
{
    reply(time, room, count)
        .put(b" wait ")
        .decimal(wait as u64)
        .push(b'\n')
}

#[tactic(auto, using(text::proofs::Puts::puts_append), unfolding(crate::specs::Lines::refused_of, text::specs::Text::puts))]
fn refused(time: u64, number: u8) -> Text
    ensures { result ≡ puts empty_text (refused_of time number) }
{
    Text::empty()
        .decimal(time)
        .put(b" refused ")
        .decimal(number as u64)
        .push(b'\n')
}

// A frame that goes out on a line.
#[tactic(auto, unfolding(crate::specs::Lines::sent_of))]
pub fn sent(time: u64, line: u8, frame: Frame) -> Text
    ensures { result ≡ puts empty_text (sent_of time line frame) }
{
    framed(time, b" sent ", line, frame)
}

// What the box tells, of this line where it is one's; a reply stands in the room. A quiet tick has no line.
#[tactic(auto, using(text::proofs::Puts::puts_append), unfolding(crate::specs::Lines::told_of, text::specs::Text::puts))]
pub fn told(time: u64, line: u8, t: Told, room: &[u8]) -> Text
    ensures { result ≡ puts empty_text (told_of time line t room.now) }
{
    match t {
        Told::Quiet => Text::empty(),
        Told::Held => alone(time, b" held ", line),
        Told::Passed(frame) => framed(time, b" passed ", line, frame),
        Told::Dropped => alone(time, b" dropped ", line),
        Told::Accepted => alone(time, b" accepted ", line),
        Told::Reply(count) => reply(time, room, count).push(b'\n'),
        Told::Outcome(count, wait) => outcome(time, room, count, wait),
        Told::Refused(n) => refused(time, n),
    }
}
