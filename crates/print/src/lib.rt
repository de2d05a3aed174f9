// Standard output for the programs: a line of text in one write, or lines that are collected on a page over a lent room and written
// together. No contract can say what a call of the system's writes. An error is the one of the write that failed.
#![tactic(auto)]

ghost use Rattle.std.specs.Prelude.{◌≡◌, ◌≤◌, length, IfOk, OnOk, OnErr};
ghost use Rattle.text.specs.Text.{says};
ghost use Rattle.print.specs.Page.{page as page_with, added};

use std::io;
use text::Text;

// A text of more bytes than it has says nothing here.
pub fn print<P: Print>(rt: &P, t: Text) -> io::Result<()> {
    flush(rt, &t.bytes, t.len)
}

// What a page holds: its first `used` bytes. Where it holds nothing, nothing is called; nor where it hasn't so many.
pub fn flush<P: Print>(rt: &P, page: &[u8], used: usize) -> io::Result<()> {
    rt.write_all(page.get(..used).unwrap_or(&[]))
}

// A line behind what a page holds; gives how much of the page is used then. A page that has no room for the line is written first, and so
// is a line that has no room on any page. Where a write fails the page stays as it was.
pub fn add<P: Print>(rt: &P, page: &mut [u8], used: usize, t: Text) -> io::Result<usize>
    ensures ok { IfOk result (λ n. page_with page.new n ≡ added (page_with page.old used) (says t)) }
    ensures err { OnErr result (page.new ≡ page.old) }
    ensures within { IfOk result (λ n. n ≤ length page.new) }
{
    let line = t.as_bytes();
    if page.len() < line.len() {
        flush(rt, page, used)?;
        rt.write_all(line)?;
        return Ok(0);
    }
    let mut at = used;
    if page.len() - line.len() < used {
        flush(rt, page, used)?;
        at = 0;
    }
    let end = at + line.len();
    page[at..end].copy_from_slice(line);
    Ok(end)
}

// A lent room, and how much of it is used by the lines that are collected there: two fields, which `within` holds together. That an error leaves the
// page, and that the room stays the one that was lent, stands at each method: an invariant can't speak of before and after.
#[derive(Drop)]
pub struct Page<'a> {
    room: &'a mut [u8],
    used: usize,
    ghost within: { used ≤ length room.now },
}

impl<'a> Page<'a> {
    ghost use Rattle.print.specs.Page.{page, emptied, all_added, texts};
    ghost use Rattle.print.specs.Reads.{page_of, lender};

    // A page on which nothing stands.
    pub fn over(room: &'a mut [u8]) -> Self
        ensures page { page_of result ≡ page room.old 0 }
        ensures lent { lender result ≡ room.entry.ghost_name }
    {
        Page { room, used: 0 }
    }

    // Writes what stands on the page. Where nothing does, nothing is called.
    fn write<P: Print>(&self, rt: &P) -> io::Result<()> {
        rt.write_all(&self.room[..self.used])
    }

    // Writes what stands on the page; nothing stands there then. Where the write fails the page stays as it was.
    pub fn flush<P: Print>(&mut self, rt: &P) -> io::Result<()>
        ensures ok { OnOk result (page_of self.new ≡ emptied (page_of self.old)) }
        ensures err { OnErr result (page_of self.new ≡ page_of self.old) }
        ensures lent { lender self.new ≡ lender self.old }
    {
        self.write(rt)?;
        self.used = 0;
        Ok(())
    }

    // A line behind what stands on the page, as `add` has it. Where a write fails the page stays as it was.
    pub fn add<P: Print>(&mut self, rt: &P, t: Text) -> io::Result<()>
        ensures ok { OnOk result (page_of self.new ≡ added (page_of self.old) (says t)) }
        ensures err { OnErr result (page_of self.new ≡ page_of self.old) }
        ensures lent { lender self.new ≡ lender self.old }
    {
        self.used = add(rt, self.room, self.used, t)?;
        Ok(())
    }

    // The line, if there is one.
    #[tactic(auto, unfolding(crate::specs::Page::all_added))]
    pub fn add_some<P: Print>(&mut self, rt: &P, t: Option<Text>) -> io::Result<()>
        ensures ok { OnOk result (page_of self.new ≡ all_added (page_of self.old) (texts t)) }
        ensures err { OnErr result (page_of self.new ≡ page_of self.old) }
        ensures lent { lender self.new ≡ lender self.old }
    {
        match t {
            Some(line) => self.add(rt, line),
            None => Ok(()),
        }
    }
}
