// Runs Modbus messages and prints what becomes of each. Standard input has a message to a line, in hexadecimal: a serial one, or a TCP one where the
// line begins with @. A line that begins with # is copied, one that begins with + is given its checksum, as it goes out, and the reply at once to one
// that begins with = (serial) or ~ (TCP) is written into rooms of 15, 16 and 20 bytes. For an accepted order the line, the word that goes out and the replies follow: to an
// acknowledgement with the value 3280, to types 6 and 7, to no answer, of a read alone where there is no status to send, and where another order
// waits.
#![tactic(auto)]

ghost use Rattle.std.specs.Prelude.{◌<◌, ◌≤◌, length, IfSome};

use modbus::{MessageForm, Order, Outcome, QuestionType, Reading, Reply};
use refusals::Refusal;
use std::io;

const DIGITS: [u8; 16] = *b"0123456789ABCDEF";

// Bytes as two digits each, after a space, and the end of the line. (Not by `print!` of `{b:02X}`: that takes up to twice the instructions of a run.)
fn bytes<P: Print>(rt: &P, s: &[u8]) -> io::Result<()> {
    for b in s {
        let high = DIGITS[usize::from(b / 16)];
        let low = DIGITS[usize::from(b % 16)];
        rt.write_all(&[b' ', high, low])?;
    }
    println!(rt)
}

// What a reply takes from its message.
#[derive(Clone, Copy)]
struct Envelope {
    form: MessageForm,
    transaction: u16,
}

impl Envelope {
    fn of(form: MessageForm, s: &[u8]) -> Envelope {
        Envelope {
            form,
            transaction: messages::transaction(form, s),
        }
    }

    fn write(self, r: Reply, room: &mut [u8]) -> Result<usize, Refusal> {
        replies::write(self.form, self.transaction, r, room)
    }
}

fn reply<P: Print>(rt: &P, e: Envelope, r: Reply) -> io::Result<()> {
    let mut room = [0xee; 16];
    match e.write(r, &mut room) {
        Ok(n) if n <= room.len() => bytes(rt, &room[..n]),
        Ok(_) => Ok(()),
        Err(_) => println!(rt; " refused"),
    }
}

fn outcome<P: Print>(rt: &P, e: Envelope, o: Order, t: u8) -> io::Result<()> {
    print!(rt; " {t}")?;
    reply(rt, e, replies::answer(o, Outcome::Answer(t, 0x3280)))
}

fn order<P: Print>(rt: &P, e: Envelope, o: Order) -> io::Result<()> {
    print!(rt; "order {}", o.line)?;
    bytes(rt, &questions::word_of(o.question).to_be_bytes())?;
    match o.question.t {
        QuestionType::ReadData => outcome(rt, e, o, 4)?,
        QuestionType::WriteData => outcome(rt, e, o, 5)?,
        QuestionType::InvalidData => {}
    }
    outcome(rt, e, o, 6)?;
    outcome(rt, e, o, 7)?;
    print!(rt; " none")?;
    reply(rt, e, replies::answer(o, Outcome::NoAnswer))?;
    if o.question.alone {
        print!(rt; " lacking")?;
        reply(rt, e, replies::exception(o, 0x04))?;
    }
    print!(rt; " busy")?;
    reply(rt, e, replies::exception(o, 0x06))
}

fn message<P: Print>(rt: &P, form: MessageForm, s: &[u8]) -> io::Result<()> {
    let e = Envelope::of(form, s);
    match messages::request(form, s) {
        Reading::Silent(refusal) => println!(rt; "silent {}", refusal.number()),
        Reading::AtOnce(r) => {
            print!(rt; "reply")?;
            reply(rt, e, r)
        }
        Reading::Accepted(o) => order(rt, e, o),
    }
}

// A reply in a room of n bytes, of 20 that are shown.
fn roomed<P: Print>(rt: &P, e: Envelope, r: Reply, n: usize) -> io::Result<()>
    requires { n ≤ 20 }
{
    let mut room = [0xee; 20];
    match e.write(r, &mut room[..n]) {
        Ok(count) => print!(rt; " count {count}")?,
        Err(refusal) => print!(rt; " refusal {}", refusal.number())?,
    }
    bytes(rt, &room)
}

fn rooms<P: Print>(rt: &P, form: MessageForm, s: &[u8]) -> io::Result<()> {
    let e = Envelope::of(form, s);
    match messages::request(form, s) {
        Reading::AtOnce(r) => {
            roomed(rt, e, r, 15)?;
            roomed(rt, e, r, 16)?;
            roomed(rt, e, r, 20)
        }
        Reading::Silent(_) | Reading::Accepted(_) => println!(rt),
    }
}

fn checksum<P: Print>(rt: &P, s: &[u8]) -> io::Result<()> {
    print!(rt; "checksum")?;
    bytes(rt, &crc::checksum(s).to_le_bytes())
}

// A digit's value. Not `to_digit`: capital digits alone.
fn value(c: u8) -> Option<u8>
    ensures { IfSome result (λ d. d < 16) }
{
    match c {
        b'0'..=b'9' => Some(c - b'0'),
        b'A'..=b'F' => Some(c - b'A' + 10),
        _ => None,
    }
}

// The bytes that a text spells, as many as there is room for.
fn parse(text: &[u8], room: &mut [u8]) -> usize
    ensures { result ≤ length room.new }
{
    let mut digits = text.iter().filter_map(|c| value(*c));
    for (n, byte) in room.iter_mut().enumerate() {
        let (Some(high), Some(low)) = (digits.next(), digits.next()) else {
            return n;
        };
        *byte = high * 16 + low;
    }
    room.len()
}

// The form of a message, by what its line begins with. No From: a mark of a line is no type to convert from.
fn form_of(mark: u8) -> MessageForm {
    match mark {
        b'@' | b'~' => MessageForm::Tcp,
        _ => MessageForm::Serial,
    }
}

fn line<P: Print>(rt: &P, text: &[u8]) -> io::Result<()> {
    let Some(&mark) = text.first() else {
        return Ok(());
    };
    if mark == b'#' {
        rt.write_all(text)?;
        return println!(rt);
    }
    let mut room = [0u8; 4096];
    let n = parse(text, &mut room);
    let spelled = &room[..n];
    match mark {
        b'+' => checksum(rt, spelled),
        b'=' | b'~' => rooms(rt, form_of(mark), spelled),
        _ => message(rt, form_of(mark), spelled),
    }
}

// What stands behind the last end of a line is none.
fn lines<P: Print>(rt: &P, text: &[u8]) -> io::Result<()> {
    for ended in text.split_inclusive(|b| *b == b'\n') {
        if let Some(body) = ended.strip_suffix(b"\n") {
            line(rt, body)?;
        }
    }
    Ok(())
}

fn main(rt: HostRuntime) -> io::Result<()> {
    let mut text = [0u8; 65536];
    let n = input::read_full(&mut rt.stdin(), &mut text)?;
    lines(&rt, &text[..n])
}
