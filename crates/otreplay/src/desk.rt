// The box on the desk: what an event of the script does to it, and the trace of that. Functions that have the box in hand go
// straight on, wherever they can: what they depend on is found out by small functions that haven't.
use crate::paper::{happened, ticked};
use gateway::{Asking, Gateway, MessageForm, Moved, Told};
use print::Page;
use script::Event;
use std::io;

// The box, its time in ticks, and the size of the rooms that are lent to it.
#[derive(Drop)]
pub(crate) struct Desk {
    gateway: Gateway,
    time: u64,
    lent: usize,
}

// The time after what was told to a tick: a refused tick passes none.
fn passed(time: u64, told: Told) -> u64 {
    match told {
        Told::Refused(_) => time,
        _ => time.wrapping_add(1),
    }
}

// How many ticks an event is.
fn ticks_in(e: Event) -> u32 {
    match e {
        Event::Ticks(n) => n,
        _ => 0,
    }
}

// A frame, a message or a new box; a message's bytes stand in front of `bytes`. Nothing moves at any other event.
fn moved(gateway: Gateway, e: Event, bytes: &[u8], room: &mut [u8]) -> Moved {
    match e {
        Event::Thermostat(line, frame) => gateway.thermostat(line, frame),
        Event::Boiler(line, frame) => gateway.boiler(line, frame, room),
        Event::Message(count) => gateway.message(&bytes[..count.min(bytes.len())], room),
        Event::Fresh(form) => untold(Gateway::fresh(form)),
        _ => untold(gateway),
    }
}

fn untold(gateway: Gateway) -> Moved {
    Moved {
        gateway,
        told: Told::Quiet,
    }
}

// The line of the order under way; where there is none, nothing is told of a line, and `trace::told` prints none.
fn line_asked(asked: Option<Asking>) -> u8 {
    asked.map_or(0, |a| a.order.line)
}

// The line that an event is about: a frame's own, or that of the order which a message became.
fn line_of(e: Event, asked: Option<Asking>) -> u8 {
    match e {
        Event::Thermostat(line, _) | Event::Boiler(line, _) => line,
        _ => line_asked(asked),
    }
}

// The size of the rooms that are lent after an event.
fn lent_after(e: Event, lent: usize) -> usize {
    match e {
        Event::Room(n) => n,
        _ => lent,
    }
}

// The time after an event and its ticks: that of a new box begins.
fn time_after(e: Event, time: u64) -> u64 {
    match e {
        Event::Fresh(_) => 0,
        _ => time,
    }
}

impl Desk {
    // A script begins with a serial box.
    pub(crate) fn fresh() -> Self {
        Desk {
            gateway: Gateway::fresh(MessageForm::Serial),
            time: 0,
            lent: 256,
        }
    }

    fn tick<P: Print>(&mut self, rt: &P, room: &mut [u8], page: &mut Page) -> io::Result<()> {
        let t = self.gateway.tick(room);
        self.gateway = t.gateway;
        self.time = passed(self.time, t.told);
        ticked(rt, page, self.time, t.outs, t.told, room)
    }

    // Whether a tick would change nothing but the time: the box has nothing to do, and its room is large enough.
    fn at_rest(&self) -> bool {
        Gateway::ROOM <= self.lent && rests::all_idle(self.gateway.lines)
    }

    fn ticks<P: Print>(
        &mut self,
        rt: &P,
        n: u32,
        room: &mut [u8],
        page: &mut Page,
    ) -> io::Result<()> {
        for done in 0..n {
            if self.at_rest() {
                self.time = self.time.wrapping_add((n - done) as u64);
                break;
            }
            self.tick(rt, room, page)?;
        }
        Ok(())
    }

    // An event behind its ticks, if it has any. What it comes to is asked in five small functions, each of which knows its own events: closures, or a
    // match over the box, would be no plainer.
    fn play<P: Print>(
        &mut self,
        rt: &P,
        e: Event,
        bytes: &[u8],
        room: &mut [u8],
        page: &mut Page,
    ) -> io::Result<()> {
        let m = moved(self.gateway, e, bytes, room);
        self.gateway = m.gateway;
        happened(
            rt,
            page,
            self.time,
            line_of(e, m.gateway.asked),
            e,
            m.told,
            room,
        )?;
        self.lent = lent_after(e, self.lent);
        self.time = time_after(e, self.time);
        Ok(())
    }

    // An event, with as much of the room lent as the desk says.
    pub(crate) fn happens<P: Print>(
        &mut self,
        rt: &P,
        e: Event,
        bytes: &[u8],
        room: &mut [u8],
        page: &mut Page,
    ) -> io::Result<()> {
        let n = self.lent.min(room.len());
        self.ticks(rt, ticks_in(e), &mut room[..n], page)?;
        self.play(rt, e, bytes, &mut room[..n], page)
    }
}
