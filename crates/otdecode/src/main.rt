// otdecode: reads samples from standard input, one byte each, and prints a line for each answer of the sample reader:
// `INDEX frame XXXXXXXX S G` or `INDEX refused N`. INDEX is the sample's place, from 0; S and G are the smallest and the largest distance
// between neighbouring middle edges. CASES.md says what the file `stdin` holds.
#![tactic(auto)]

mod line;

ghost use Rattle.std.specs.Prelude.{◌≡◌, OnOk, OnErr};
ghost use Rattle.samples.specs.Run.{answers_of, after_of};
ghost use Rattle.reader.specs.Reads.{reader_of};
ghost use Rattle.print.specs.Page.{all_added, BrokenOff};
ghost use Rattle.print.specs.Reads.{page_of};
ghost use Rattle.otdecode.specs.Lines.{shown_if, shown_in, last_place};

use input::Turn;
use print::Page;
use reader::{Answer, Reader};
use std::io;
use std::io::Read;

// How far the samples have been read, and the place of the next.
#[derive(Drop)]
struct Place {
    reader: Reader,
    index: u64,
}

// The line of an answer on a page, if it has one. No `Option` of a line for a sample without: it would be made and copied for each.
#[tactic(auto, unfolding(crate::specs::Lines::shown_if, print::specs::Page::all_added))]
fn add_line<P: Print>(rt: &P, page: &mut Page, index: u64, answer: Answer) -> io::Result<()>
    ensures ok { OnOk result (page_of page.new ≡ all_added (page_of page.old) (shown_if index answer)) }
    ensures err { OnErr result (page_of page.new ≡ page_of page.old) }
{
    match answer {
        Answer::Nothing => Ok(()),
        Answer::Frame(_) | Answer::Refused(_) => page.add_some(rt, line::line(index, answer)),
    }
}

impl Place {
    // The lines of a block of samples. Where a write fails the page stays as it was after the lines before.
    fn take<P: Print>(&mut self, rt: &P, block: &[u8], page: &mut Page) -> io::Result<()>
        ensures reader { OnOk result (reader_of self.new.reader ≡ after_of (reader_of self.old.reader) block.now) }
        ensures index { OnOk result (self.new.index ≡ last_place self.old.index block.now) }
        ensures lines { OnOk result (page_of page.new
            ≡ all_added
            (page_of page.old)
            (shown_in self.old.index (answers_of (reader_of self.old.reader) block.now))) }
        ensures err { OnErr result (BrokenOff
            (page_of page.old)
            (shown_in self.old.index (answers_of (reader_of self.old.reader) block.now))
            (page_of page.new)) }
    {
        for &sample in block {
            let step = self.reader.step(sample);
            add_line(rt, page, self.index, step.answer)?;
            self.reader = step.reader;
            self.index = self.index.wrapping_add(1);
        }
        Ok(())
    }
}

// The samples that come, and the page for their lines.
#[derive(Drop)]
struct Decoding<'a, 'b, R, P> {
    stdin: R,
    rt: &'a P,
    place: Place,
    page: Page<'b>,
}

impl<R: Read, P: Print> Turn for Decoding<'_, '_, R, P> {
    // One read, and the lines of its samples, written before the next read. (otlist, otdecode and otreplay each have such a turn; one over what
    // takes a block would be no plainer.)
    fn turn(&mut self) -> io::Result<bool> {
        let mut block = [0u8; 4096];
        let n = self.stdin.read(&mut block)?;
        self.place.take(self.rt, &block[..n], &mut self.page)?;
        self.page.flush(self.rt)?;
        Ok(n != 0)
    }
}

fn main(rt: HostRuntime) -> io::Result<()> {
    let mut room = [0u8; 4096];
    let place = Place {
        reader: Reader::fresh(),
        index: 0,
    };
    input::while_more(&mut Decoding {
        stdin: rt.stdin(),
        rt: &rt,
        place,
        page: Page::over(&mut room),
    })
}
