// The words in a block of bytes, and their lines on a page. A word may have begun in an earlier block and may end in a later one.
ghost use Rattle.std.specs.Prelude.{◌≡◌, OnOk, OnErr};
ghost use Rattle.print.specs.Page.{all_added, texts, BrokenOff};
ghost use Rattle.print.specs.Reads.{page_of};
ghost use Rattle.otlist.specs.Words.{word_after, count_after, line_if, lines_in, last_word, last_count, at_end};

use crate::listing::{line, short};
use print::Page;
use std::io;
use text::Text;

// The last four bytes as a number, and how many bytes of a word have come: no length of the number, which has four bytes whatever came.
#[derive(Clone, Copy, Default)]
pub(crate) struct Part {
    word: u32,
    count: u8,
}

impl Part {
    // One byte more. In arithmetic, as the definitions say it: a shift that loses the highest byte, and an `|`, are no plainer.
    fn push(&mut self, b: u8)
        ensures word { self.new.word ≡ word_after self.old.word b }
        ensures count { self.new.count ≡ count_after self.old.count }
    {
        self.word = self.word % 0x100_0000 * 256 + b as u32;
        self.count = (self.count % 4 + 1) % 4;
    }

    // The line of a word that is whole, on a page. No `Option` of a line: it would be made and copied for each byte.
    #[tactic(auto, unfolding(crate::specs::Words::line_if, print::specs::Page::all_added))]
    fn add_line<P: Print>(self, rt: &P, page: &mut Page) -> io::Result<()>
        ensures ok { OnOk result (page_of page.new ≡ all_added (page_of page.old) (line_if self.count self.word)) }
        ensures err { OnErr result (page_of page.new ≡ page_of page.old) }
    {
        if self.count != 0 {
            return Ok(());
        }
        page.add(rt, line(self.word))
    }

    // The lines of the words that end in a block. Where a write fails the page stays as it was after the lines before.
    #[tactic(auto, unfolding(crate::specs::Words::last_word, crate::specs::Words::last_count, crate::specs::Words::lines_in, print::specs::Page::all_added))]
    pub(crate) fn take<P: Print>(&mut self, rt: &P, block: &[u8], page: &mut Page) -> io::Result<()>
        ensures word { OnOk result (self.new.word ≡ last_word self.old.word block.now) }
        ensures count { OnOk result (self.new.count ≡ last_count self.old.count block.now) }
        ensures lines { OnOk result (page_of page.new
            ≡ all_added (page_of page.old) (lines_in self.old.word self.old.count block.now)) }
        ensures err { OnErr result (BrokenOff
            (page_of page.old)
            (lines_in self.old.word self.old.count block.now)
            (page_of page.new)) }
    {
        for &b in block {
            self.push(b);
            self.add_line(rt, page)?;
        }
        Ok(())
    }

    // The line for a word that has begun and does not end.
    #[tactic(auto, using(crate::proofs::Says::short_said), unfolding(crate::specs::Words::at_end))]
    fn tail(self) -> Option<Text>
        ensures { texts result ≡ at_end self.count }
    {
        (self.count != 0).then(short)
    }

    // That line, on a page.
    pub(crate) fn end<P: Print>(self, rt: &P, page: &mut Page) -> io::Result<()>
        ensures ok { OnOk result (page_of page.new ≡ all_added (page_of page.old) (at_end self.count)) }
        ensures err { OnErr result (page_of page.new ≡ page_of page.old) }
    {
        page.add_some(rt, self.tail())
    }
}
