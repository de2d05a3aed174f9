// The meaning of a frame's 16 data bits: the typed value of an id's bits, by the id's kind, and the bits of a typed value.
#![tactic(auto)]

mod real;

ghost use Rattle.std.specs.Prelude.{◌≡◌};
ghost use Rattle.ids.specs.Ids.{kind_of};
ghost use Rattle.values.specs.Typed.{read_as, BitsOf};

use ids::Kind;
use refusals::Refusal;

// A typed value. A pair has its high byte first.
#[derive(Clone, Copy)]
pub enum Typed {
    Real(f32),
    S16(i16),
    U16(u16),
    Pair(u8, u8),
    SPair(i8, i8),
    Raw(u16),
}

#[tactic(auto, unfolding(crate::specs::Typed::read_as))]
fn read_as(kind: Kind, raw: u16) -> Typed
    ensures { result ≡ read_as kind raw }
{
    let [high, low] = raw.to_be_bytes();
    match kind {
        Kind::Real => Typed::Real(real::real_of(raw)),
        Kind::S16 => Typed::S16(raw.cast_signed()),
        Kind::U16 => Typed::U16(raw),
        Kind::Pair => Typed::Pair(high, low),
        Kind::SPair => Typed::SPair(high.cast_signed(), low.cast_signed()),
        Kind::Raw => Typed::Raw(raw),
    }
}

// The typed value of an id's 16 bits.
pub fn typed_of(id: u8, raw: u16) -> Typed
    ensures { result ≡ read_as (kind_of id) raw }
{
    read_as(ids::kind_of(id), raw)
}

// A typed value's 16 bits; a real that no raw number gives is refused.
pub fn bits(t: Typed) -> Result<u16, Refusal>
    ensures { BitsOf t result }
{
    match t {
        Typed::Real(x) => real::real_back(x),
        Typed::S16(z) => Ok(z.cast_unsigned()),
        Typed::U16(n) | Typed::Raw(n) => Ok(n),
        Typed::Pair(h, l) => Ok(u16::from_be_bytes([h, l])),
        Typed::SPair(h, l) => Ok(u16::from_be_bytes([h.cast_unsigned(), l.cast_unsigned()])),
    }
}
