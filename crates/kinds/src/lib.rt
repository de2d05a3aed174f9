// The names of the kinds, for the programs that print them.
#![tactic(auto)]

ghost use Rattle.std.specs.Prelude.{◌≡◌};
ghost use Rattle.text.specs.Text.{puts};
ghost use Rattle.kinds.specs.Names.{name_of, name_by};

use ids::Kind;
use text::Text;

// A kind's name behind a text.
pub fn named(t: Text, kind: Kind) -> Text
    ensures { result ≡ puts t (name_of kind) }
{
    t.put(kind.name().as_bytes())
}

// The name of the kind with this number, which is raw for every other number. It takes each, as ever: a Kind would ask more of who has a number.
#[tactic(auto, using(crate::proofs::Numbered::by_number))]
pub fn name(t: Text, kind: u8) -> Text
    ensures { result ≡ puts t (name_by kind) }
{
    named(t, Kind::from(kind))
}
