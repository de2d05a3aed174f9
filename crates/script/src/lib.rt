// A line of a script, read into an event. The bytes of a message go into a room that the caller lends.
#![tactic(auto)]

mod decimal;
mod frames;
mod pairs;

ghost use Rattle.std.specs.Prelude.{◌≡◌, length, MatchOption};
ghost use Rattle.script.specs.declared.Event.TheVariants.{Wrong};
ghost use Rattle.script.specs.Lines.{tick_line, room_line, numbered_of, placed, message_line, alone_of, plain_line, script_line};

use decimal::number_of;
use frames::{first, frame_of, rest};
use modbus::MessageForm;
use pairs::pairs;
use word::Frame;

// What a line of the script says. The bytes of a message stand in the room that was lent for them.
#[derive(Clone, Copy)]
pub enum Event {
    Skip,
    Wrong,
    Ticks(u32),
    Thermostat(u8, Frame),
    Boiler(u8, Frame),
    Message(usize),
    Room(usize),
    Fresh(MessageForm),
}

#[tactic(auto, unfolding(crate::specs::Lines::tick_line))]
fn ticks(s: &[u8]) -> Event
    ensures { result ≡ tick_line s.now }
{
    match number_of(s, u32::MAX) {
        None | Some(0) => Event::Wrong,
        Some(n) => Event::Ticks(n),
    }
}

#[tactic(auto, unfolding(crate::specs::Lines::room_line))]
fn room(s: &[u8]) -> Event
    ensures { result ≡ room_line s.now }
{
    number_of(s, 300).map_or(Event::Wrong, |n| Event::Room(n as usize))
}

// A line's number and a frame: of the boiler or of the thermostat, as `event` makes it.
fn frame<F: FnOnce(u8, Frame) -> Event>(s: &[u8], event: F) -> Event
    requires { F.IsAlwaysCallable event }
    ensures { MatchOption (numbered_of s.now) (result ≡ Wrong) (λ p. F.post event p.0 p.1 result) }
{
    match first(s).zip(frame_of(rest(s))) {
        Some((n, f)) => event(n, f),
        None => Event::Wrong,
    }
}

// The bytes of a message: a pair of digits or more.
#[tactic(auto, unfolding(crate::specs::Lines::message_line))]
fn message(s: &[u8], bytes: &mut [u8]) -> Event
    ensures event { result ≡ (message_line (length bytes.old) s.now).event }
    ensures written { bytes.new ≡ placed (message_line (length bytes.old) s.now).bytes bytes.old }
{
    match pairs(s, bytes) {
        None | Some(0) => Event::Wrong,
        Some(count) => Event::Message(count),
    }
}

// A line without a field that can differ: a message of no bytes, or a new box; any other is wrong.
#[tactic(auto, unfolding(crate::specs::Lines::alone_of))]
fn alone(line: &[u8]) -> Event
    ensures { result ≡ alone_of line.now }
{
    // A match on the three texts would be plainer; of its arms a proof knows the lengths alone.
    if line == b"modbus".as_slice() {
        Event::Message(0)
    } else if line == b"fresh serial".as_slice() {
        Event::Fresh(MessageForm::Serial)
    } else if line == b"fresh tcp".as_slice() {
        Event::Fresh(MessageForm::Tcp)
    } else {
        Event::Wrong
    }
}

// A line that lends no bytes to a message.
#[tactic(auto, unfolding(crate::specs::Lines::plain_line, crate::specs::Lines::frame_line))]
fn plain(line: &[u8]) -> Event
    ensures { result ≡ plain_line line.now }
{
    if line.is_empty() || line.starts_with(b"#") {
        Event::Skip
    } else if let Some(rest) = line.strip_prefix(b"tick ") {
        ticks(rest)
    } else if let Some(rest) = line.strip_prefix(b"thermostat ") {
        frame(rest, Event::Thermostat)
    } else if let Some(rest) = line.strip_prefix(b"boiler ") {
        frame(rest, Event::Boiler)
    } else if let Some(rest) = line.strip_prefix(b"room ") {
        room(rest)
    } else {
        alone(line)
    }
}

// A whole line, its end left out.
#[tactic(auto, unfolding(crate::specs::Lines::script_line))]
pub fn event_of(line: &[u8], bytes: &mut [u8]) -> Event
    ensures { (result ≡ (script_line (length bytes.old) line.now).event)
        × (bytes.new ≡ placed (script_line (length bytes.old) line.now).bytes bytes.old) }
{
    match line.strip_prefix(b"modbus ") {
        Some(digits) => message(digits, bytes),
        None => plain(line),
    }
}
