// One line of the listing from one word, and the line for a tail that is none.
ghost use Rattle.std.specs.Prelude.{◌≡◌};
ghost use Rattle.text.specs.Text.{empty_text, puts};
ghost use Rattle.otlist.specs.Listing.{signed_decimal, listed_numbers, listed_fields, listed_of, short_line};

use ids::Kind;
use text::Text;

// By sign and size, as the definition has it.
#[tactic(auto, unfolding(crate::specs::Listing::signed_decimal, text::specs::Text::puts))]
fn signed(t: Text, z: i16) -> Text
    ensures { result ≡ puts t (signed_decimal z) }
{
    let size = z.unsigned_abs() as u64;
    if z < 0 {
        t.push(b'-').decimal(size)
    } else {
        t.decimal(size)
    }
}

#[tactic(auto, using(text::proofs::Puts::puts_field), unfolding(crate::specs::Listing::listed_numbers))]
fn numbers(t: Text, kind: Kind, v: u16) -> Text
    ensures { result ≡ puts t (listed_numbers kind v) }
{
    let [high, low] = v.to_be_bytes();
    match kind {
        Kind::Real | Kind::S16 => signed(t, v.cast_signed()),
        Kind::Pair => t.decimal(high as u64).push(b' ').decimal(low as u64),
        Kind::SPair => {
            let u = signed(t, i16::from(high.cast_signed())).push(b' ');
            signed(u, i16::from(low.cast_signed()))
        }
        Kind::U16 | Kind::Raw => t.decimal(v as u64),
    }
}

#[tactic(auto, unfolding(crate::specs::Listing::listed_fields))]
fn fields(t: Text, w: u32) -> Text
    ensures { result ≡ puts t (listed_fields w) }
{
    let id = word::id_of(w);
    let value = word::value_of(w);
    let kind = ids::kind_of(id);
    let a = t.decimal(word::type_of(w) as u64).push(b' ');
    let b = a.decimal(id as u64).push(b' ');
    let c = b.hex(value as u32, 4).push(b' ');
    let d = kinds::named(c, kind).push(b' ');
    numbers(d, kind, value).push(b'\n')
}

#[tactic(auto, unfolding(crate::specs::Listing::listed_of))]
pub(crate) fn line(w: u32) -> Text
    ensures { result ≡ puts empty_text (listed_of w) }
{
    if word::even(w) {
        fields(Text::empty(), w)
    } else {
        Text::empty().put(b"- parity\n")
    }
}

pub(crate) fn short() -> Text
    ensures { result ≡ puts empty_text short_line }
{
    Text::empty().put(b"- short\n")
}
