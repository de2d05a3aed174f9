// The trace of an event, on a page.
ghost use Rattle.std.specs.Prelude.{◌≡◌, OnOk, OnErr};
ghost use Rattle.print.specs.Page.{all_added, texts, BrokenOff};
ghost use Rattle.print.specs.Reads.{page_of};
ghost use Rattle.otreplay.specs.Printed.{sent_if, tick_trace, wrong_if, event_trace};

use gateway::{Outs, Told};
use line::Talker;
use print::Page;
use script::Event;
use std::io;
use text::Text;
use word::Frame;

#[tactic(auto, unfolding(crate::specs::Printed::sent_if))]
fn sent(time: u64, line: u8, out: Option<(Talker, Frame)>) -> Option<Text>
    ensures { texts result ≡ sent_if time line out }
{
    let (_, frame) = out?;
    Some(trace::sent(time, line, frame))
}

// What goes out in a tick, by line 1 to 4, and what is told. Where a write fails the page stays as it was after the lines before.
#[tactic(auto, unfolding(crate::specs::Printed::tick_trace))]
pub(crate) fn ticked<P: Print>(
    rt: &P,
    page: &mut Page,
    time: u64,
    outs: Outs,
    told: Told,
    room: &[u8],
) -> io::Result<()>
    ensures ok { OnOk result (page_of page.new ≡ all_added (page_of page.old) (tick_trace time outs told room.now)) }
    ensures err { OnErr result (BrokenOff (page_of page.old) (tick_trace time outs told room.now) (page_of page.new)) }
{
    page.add_some(rt, sent(time, 1, outs.one))?;
    page.add_some(rt, sent(time, 2, outs.two))?;
    page.add_some(rt, sent(time, 3, outs.three))?;
    page.add_some(rt, sent(time, 4, outs.four))?;
    page.add(rt, trace::told(time, 0, told, room))
}

#[tactic(auto, unfolding(crate::specs::Printed::wrong_if))]
fn wrong(e: Event) -> Option<Text>
    ensures { texts result ≡ wrong_if e }
{
    match e {
        Event::Wrong => Some(Text::empty().put(b"- line\n")),
        _ => None,
    }
}

// An event that is no ticks, and what is told of this line to it. Where a write fails the page stays as it was after the
// lines before.
#[tactic(auto, unfolding(crate::specs::Printed::event_trace))]
pub(crate) fn happened<P: Print>(
    rt: &P,
    page: &mut Page,
    time: u64,
    line: u8,
    e: Event,
    told: Told,
    room: &[u8],
) -> io::Result<()>
    ensures ok { OnOk result (page_of page.new ≡ all_added (page_of page.old) (event_trace time line e told room.now)) }
    ensures err { OnErr result (BrokenOff (page_of page.old) (event_trace time line e told room.now) (page_of page.new)) }
{
    page.add_some(rt, wrong(e))?;
    page.add(rt, trace::told(time, line, told, room))
}
