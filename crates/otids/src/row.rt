// One line of the list from one id.
ghost use Rattle.std.specs.Prelude.{◌≡◌};
ghost use Rattle.text.specs.Text.{empty_text, pushed, puts};
ghost use Rattle.otids.specs.Lines.{scale_of, mark_of, line_of};

use ids::Kind;
use text::Text;

#[tactic(auto, unfolding(crate::specs::Lines::scale_of))]
fn scale(t: Text, kind: Kind) -> Text
    ensures { result ≡ puts t (scale_of kind) }
{
    match kind {
        Kind::Real => t.put(b"0.00390625"),
        Kind::Raw | Kind::S16 | Kind::U16 | Kind::Pair | Kind::SPair => t.put(b"1"),
    }
}

fn mark(t: Text, is: bool, letter: u8) -> Text
    ensures { result ≡ pushed t (mark_of is letter) }
{
    t.push(if is { letter } else { b'-' })
}

#[tactic(auto, unfolding(crate::specs::Lines::line_of, text::specs::Text::puts))]
pub(crate) fn line(id: u8) -> Text
    ensures { result ≡ puts empty_text (line_of id) }
{
    let kind = ids::kind_of(id);
    let a = Text::empty().decimal(id as u64).push(b',');
    let b = a.hex(id as u32, 2).push(b',');
    let c = kinds::named(b, kind).push(b',');
    let d = scale(c, kind).push(b',');
    let e = mark(d, ids::readable(id), b'R').push(b',');
    mark(e, ids::writable(id), b'W').push(b'\n')
}
