// The line of an answer at a sample's place.
ghost use Rattle.std.specs.Prelude.{◌≡◌};
ghost use Rattle.print.specs.Page.{texts};
ghost use Rattle.otdecode.specs.Lines.{shown_if};

use reader::Answer;
use text::Text;

// No answer has no line.
#[tactic(auto, using(text::proofs::Puts::puts_append), unfolding(crate::specs::Lines::shown_if, crate::specs::Lines::shown_of, text::specs::Text::puts))]
pub(crate) fn line(index: u64, answer: Answer) -> Option<Text>
    ensures { texts result ≡ shown_if index answer }
{
    match answer {
        Answer::Nothing => None,
        Answer::Frame(f) => {
            let t = Text::empty().decimal(index).put(b" frame ");
            let w = t.hex(f.word, 8).push(b' ');
            let s = w.decimal(f.shortest as u64).push(b' ');
            Some(s.decimal(f.longest as u64).push(b'\n'))
        }
        Answer::Refused(refusal) => {
            let t = Text::empty().decimal(index).put(b" refused ");
            Some(t.decimal(u64::from(refusal.number())).push(b'\n'))
        }
    }
}
