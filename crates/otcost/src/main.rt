// otcost: brings a box into a state and then lets one thing happen to it so many times, for tests/cost to count instructions. State, line,
// words and message come from standard input, so that the compiler knows none of them; and each entry is called in two places, in the
// set-up and in a loop that counts, so that it stays a function of its own and is measured as such. It prints how many were answered; of samples,
// the sum of what the frames hold.
//
// Standard input is a block of 128 bytes; those that don't come are 0:
//   0        what happens: `s` a sample, `t` a tick, `h` a thermostat frame, `b` a boiler frame, `m` a message
//   1-15     how often, in decimal
//   16       after how many of them the box is put back into its state
//   17       the line of a frame
//   18-21    the word of a frame, or of the frame that the samples are of
//   22       the length of a message, up to 32
//   23-24    how straight the frame's edges were, smallest and largest
//   25       the form of the box: `t` TCP, else serial
//   32-63    the message
//   64-127   eight events of set-up, 8 bytes each: `t`, `h`, `b`, `m` or nothing; the line; smallest and
//            largest; the word, or for `t` how often
#![tactic(auto)]

use gateway::{Gateway, MessageForm, Told};
use places::{byte_at, word_at};
use print::print;
use reader::{Answer, Reader};
use std::io;
use text::Text;
use word::Frame;

// What a frame holds, in one number: whatever is in no output the compiler leaves out.
fn all_of(f: Frame) -> u32 {
    let straight = u32::from(f.shortest).wrapping_add(u32::from(f.longest));
    f.word.wrapping_add(straight)
}

fn answers(count: u32, a: Answer) -> u32 {
    match a {
        Answer::Nothing => count,
        Answer::Frame(f) => count.wrapping_add(all_of(f)),
        Answer::Refused(_) => count.wrapping_add(1),
    }
}

fn fed(room: &[u8; 704], n: u32) -> u32 {
    let mut reader = Reader::fresh();
    let mut count = 0;
    for sample in room.iter().cycle().take(n as usize) {
        let step = reader.step(*sample);
        count = answers(count, step.answer);
        reader = step.reader;
    }
    count
}

// A frame with 24 idle samples before it, over and over.
fn samples(word: u32, n: u32) -> u32 {
    let mut room = [0u8; 704];
    let _ = writer::write(word, &mut room[24..]);
    fed(&room, n)
}

fn told(count: u32, t: Told) -> u32 {
    match t {
        Told::Quiet => count,
        _ => count.wrapping_add(1),
    }
}

// One thing happens to the box n times, and after so many of them the box is put back into its state, if it ever is: how many were answered.
// It is no function of a closure: a call through one copies the box once more, and a tick would come to 314 instructions, of 300 at most.
macro_rules! repeated {
    ($start:expr, $again:expr, $n:expr, |$gateway:ident| $once:expr) => {{
        let mut $gateway = $start;
        let mut count: u32 = 0;
        let mut more: Option<u8> = $again;
        for _ in 0..$n {
            let after = $once;
            count = told(count, after.told);
            $gateway = after.gateway;
            match more {
                None => {}
                Some(left) if left > 1 => more = Some(left - 1),
                Some(_) => {
                    more = $again;
                    $gateway = $start;
                }
            }
        }
        count
    }};
}

// The frame that comes again and again.
fn frame_in(block: &[u8; 128]) -> Frame {
    Frame {
        word: word_at(block, 18),
        shortest: block[23],
        longest: block[24],
    }
}

fn ticked(before: Gateway, n: u32, room: &mut [u8]) -> Gateway {
    let mut gateway = before;
    for _ in 0..n {
        gateway = gateway.tick(room).gateway;
    }
    gateway
}

// An event of set-up.
fn happened(before: Gateway, event: &[u8], message: &[u8], room: &mut [u8]) -> Gateway {
    let line = byte_at(event, 1);
    let often = word_at(event, 4);
    let frame = Frame {
        word: often,
        shortest: byte_at(event, 2),
        longest: byte_at(event, 3),
    };
    match byte_at(event, 0) {
        b't' => ticked(before, often, room),
        b'h' => before.thermostat(line, frame).gateway,
        b'b' => before.boiler(line, frame, room).gateway,
        b'm' => before.message(message, room).gateway,
        _ => before,
    }
}

// No From: a mark is no type to convert from.
fn form_of(mark: u8) -> MessageForm {
    if mark == b't' {
        MessageForm::Tcp
    } else {
        MessageForm::Serial
    }
}

fn set_up(block: &[u8; 128], message: &[u8], room: &mut [u8]) -> Gateway {
    let mut gateway = Gateway::fresh(form_of(block[25]));
    for event in block[64..].chunks_exact(8) {
        gateway = happened(gateway, event, message, room);
    }
    gateway
}

// The decimal number behind the letter. No `parse`: what is no digit is passed over.
fn number(block: &[u8; 128]) -> u32 {
    block[1..16]
        .iter()
        .filter(|byte| **byte >= b'0')
        .fold(0, |n, byte| n % 100_000_000 * 10 + u32::from(*byte % 16))
}

fn ticks(start: Gateway, again: u8, n: u32, room: &mut [u8]) -> u32 {
    repeated!(start, Some(again), n, |gateway| gateway.tick(room))
}

fn held(start: Gateway, block: &[u8; 128], n: u32) -> u32 {
    let line = block[17];
    let frame = frame_in(block);
    repeated!(start, None, n, |gateway| gateway.thermostat(line, frame))
}

fn frames(start: Gateway, block: &[u8; 128], n: u32, room: &mut [u8]) -> u32 {
    let line = block[17];
    let frame = frame_in(block);
    repeated!(start, None, n, |gateway| gateway.boiler(line, frame, room))
}

fn messages(start: Gateway, again: u8, message: &[u8], n: u32, room: &mut [u8]) -> u32 {
    repeated!(
        start,
        Some(again),
        n,
        |gateway| gateway.message(message, room)
    )
}

fn done(block: &[u8; 128]) -> u32 {
    let n = number(block);
    let message = &block[32..32 + usize::from(block[22] % 33)];
    let mut room = [0u8; 16];
    let start = set_up(block, message, &mut room);
    let again = block[16];
    match block[0] {
        b's' => samples(word_at(block, 18), n),
        b't' => ticks(start, again, n, &mut room),
        b'h' => held(start, block, n),
        b'b' => frames(start, block, n, &mut room),
        b'm' => messages(start, again, message, n, &mut room),
        _ => 0,
    }
}

fn main(rt: HostRuntime) -> io::Result<()> {
    let mut block = [0u8; 128];
    input::read_full(&mut rt.stdin(), &mut block)?;
    print(
        &rt,
        Text::empty().decimal(u64::from(done(&block))).push(b'\n'),
    )
}
