// otids: prints a line for each data id that is listed, from the proved table: `id,hex,kind,scale,read,write`. It reads nothing.
#![tactic(auto)]

mod row;

ghost use Rattle.std.specs.Prelude.{◌≡◌, ◌||◌, OnOk, OnErr};
ghost use Rattle.print.specs.Page.{all_added, texts, BrokenOff};
ghost use Rattle.print.specs.Reads.{page_of};
ghost use Rattle.ids.specs.Ids.{readable_of, writable_of};
ghost use Rattle.otids.specs.Lines.{line_if, lines_from};

use print::Page;
use std::io;
use text::Text;

fn listed(id: u8) -> bool
    ensures { result ≡ (readable_of id || writable_of id) }
{
    ids::readable(id) || ids::writable(id)
}

#[tactic(auto, using(crate::proofs::Says::whole), unfolding(crate::specs::Lines::line_if))]
fn line_if(id: u8) -> Option<Text>
    ensures { texts result ≡ line_if id }
{
    listed(id).then(|| row::line(id))
}

// (What is on the page then, and after an error, is two clauses in five functions of four programs: no macro writes a clause.)
// The lines of all ids, behind what stands on a page. Where a write fails the page stays as it was after the lines before.
fn add_rows<P: Print>(rt: &P, page: &mut Page) -> io::Result<()>
    ensures ok { OnOk result (page_of page.new ≡ all_added (page_of page.old) (lines_from 256 0)) }
    ensures err { OnErr result (BrokenOff (page_of page.old) (lines_from 256 0) (page_of page.new)) }
{
    for id in 0..=u8::MAX {
        page.add_some(rt, line_if(id))?;
    }
    Ok(())
}

fn main(rt: HostRuntime) -> io::Result<()> {
    let mut room = [0u8; 4096];
    let mut page = Page::over(&mut room);
    rt.write_all(b"id,hex,kind,scale,read,write\n")?;
    add_rows(&rt, &mut page)?;
    page.flush(&rt)
}
