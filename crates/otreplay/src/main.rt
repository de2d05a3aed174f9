// otreplay: a script of events on standard input, a trace on standard output.
#![tactic(auto)]

mod desk;
mod paper;

use desk::Desk;
use input::Turn;
use print::Page;
use script::Event;
use std::io;
use std::io::Read;

const LONGEST: usize = 1024;

// The script's line under way, as far as it has come. Of one that is longer than the room only the length is right:
// no vector can hold the length of a line that has no room in it.
#[derive(Drop)]
struct Held {
    bytes: [u8; LONGEST],
    used: usize,
}

impl Held {
    fn nothing() -> Self {
        Held {
            bytes: [0; LONGEST],
            used: 0,
        }
    }

    fn append(&mut self, part: &[u8]) {
        let end = self.used.saturating_add(part.len());
        if let Some(room) = self.bytes.get_mut(self.used..end) {
            room.copy_from_slice(part);
        }
        self.used = end;
    }

    // What the line says, which has ended; the next one begins. A message's bytes go into the room.
    fn event(&mut self, bytes: &mut [u8]) -> Event {
        let e = match self.bytes.get(..self.used) {
            Some(line) => script::event_of(line, bytes),
            None => Event::Wrong,
        };
        self.used = 0;
        e
    }
}

// The box on the desk, the room that is lent to it, and the script as far as it has come.
#[derive(Drop)]
struct Replay {
    desk: Desk,
    room: [u8; 300],
    held: Held,
}

impl Replay {
    // The line that is held is played.
    fn line<P: Print>(&mut self, rt: &P, page: &mut Page) -> io::Result<()> {
        let mut bytes = [0u8; 300];
        let e = self.held.event(&mut bytes);
        self.desk.happens(rt, e, &bytes, &mut self.room, page)
    }

    // The lines that end in a block, and the part of one behind them.
    fn lines<P: Print>(&mut self, rt: &P, block: &[u8], page: &mut Page) -> io::Result<()> {
        for part in block.split_inclusive(|b| *b == b'\n') {
            match part {
                [line @ .., b'\n'] => {
                    self.held.append(line);
                    self.line(rt, page)?;
                }
                _ => self.held.append(part),
            }
        }
        Ok(())
    }

    // A last line without an end counts as a line, if it has a byte.
    fn last<P: Print>(&mut self, rt: &P, page: &mut Page) -> io::Result<()> {
        if 0 < self.held.used {
            self.line(rt, page)?;
        }
        page.flush(rt)
    }
}

// The script that comes, and the page for its trace.
#[derive(Drop)]
struct Playing<'a, 'b, R, P> {
    stdin: R,
    rt: &'a P,
    replay: Replay,
    page: Page<'b>,
}

impl<R, P: Print> Playing<'_, '_, R, P> {
    // What the script ends with.
    fn last(&mut self) -> io::Result<()> {
        self.replay.last(self.rt, &mut self.page)
    }
}

impl<R: Read, P: Print> Turn for Playing<'_, '_, R, P> {
    // One read, and the trace of the lines that have ended then, written before the next read. (otlist, otdecode and otreplay each have such a
    // turn; one over what takes a block would be no plainer.)
    fn turn(&mut self) -> io::Result<bool> {
        let mut block = [0u8; 4096];
        let n = self.stdin.read(&mut block)?;
        self.replay.lines(self.rt, &block[..n], &mut self.page)?;
        self.page.flush(self.rt)?;
        Ok(n != 0)
    }
}

fn main(rt: HostRuntime) -> io::Result<()> {
    let mut room = [0u8; 4096];
    let replay = Replay {
        desk: Desk::fresh(),
        room: [0; 300],
        held: Held::nothing(),
    };
    let mut playing = Playing {
        stdin: rt.stdin(),
        rt: &rt,
        replay,
        page: Page::over(&mut room),
    };
    input::while_more(&mut playing)?;
    playing.last()
}
