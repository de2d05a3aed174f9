// otlist: reads 4-byte words from standard input, high byte first, and prints a line each.
#![tactic(auto)]

mod listing;
mod words;

use input::Turn;
use print::Page;
use std::io;
use std::io::Read;
use words::Part;

// The words that come, and the page on which they are listed.
#[derive(Drop)]
struct WordList<'a, 'b, R, P> {
    stdin: R,
    rt: &'a P,
    part: Part,
    page: Page<'b>,
}

impl<R: Read, P: Print> Turn for WordList<'_, '_, R, P> {
    // One read, and the lines of the words that are whole then, written before the next read. (otlist, otdecode and otreplay each have such a turn;
    // one over what takes a block would be no plainer.)
    fn turn(&mut self) -> io::Result<bool> {
        let mut block = [0u8; 4096];
        let n = self.stdin.read(&mut block)?;
        self.part.take(self.rt, &block[..n], &mut self.page)?;
        self.page.flush(self.rt)?;
        Ok(n != 0)
    }
}

fn main(rt: HostRuntime) -> io::Result<()> {
    let mut room = [0u8; 4096];
    let mut list = WordList {
        stdin: rt.stdin(),
        rt: &rt,
        part: Part::default(),
        page: Page::over(&mut room),
    };
    input::while_more(&mut list)?;
    list.part.end(&rt, &mut list.page)?;
    list.page.flush(&rt)
}
