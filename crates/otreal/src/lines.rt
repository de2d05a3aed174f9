// The line that is printed for the 32 bits of a float.
ghost use Rattle.std.specs.Prelude.{◌≡◌};
ghost use Rattle.std.specs.Float.{binary32};
ghost use Rattle.std.specs.Float.Ieee.{of_bits};
ghost use Rattle.text.specs.Text.{empty_text, puts};
ghost use Rattle.values.specs.Numbers.{back_value};
ghost use Rattle.otreal.specs.Lines.{line_of, printed_of};

use refusals::Refusal;
use text::Text;
use values::Typed;

// The float of a bit pattern. No function can name the bits of a NaN, so each of their patterns stands for one.
fn float(bits: u32) -> f32
    ensures { result ≡ of_bits binary32 bits }
{
    let magnitude = bits % 0x8000_0000;
    if magnitude > 0x7f80_0000 {
        f32::NAN
    } else {
        f32::from_bits(bits)
    }
}

#[tactic(auto, using(text::proofs::Puts::puts_append), unfolding(crate::specs::Lines::line_of, text::specs::Text::puts))]
fn answer(back: Result<u16, Refusal>) -> Text
    ensures { result ≡ puts empty_text (line_of (back_value back)) }
{
    match back {
        Ok(raw) => Text::empty().hex(raw as u32, 4).push(b'\n'),
        Err(refusal) => Text::empty()
            .put(b"refused ")
            .decimal(refusal.number() as u64)
            .push(b'\n'),
    }
}

#[tactic(auto, unfolding(crate::specs::Lines::printed_of))]
pub(crate) fn line(bits: u32) -> Text
    ensures { result ≡ puts empty_text (printed_of bits) }
{
    answer(values::bits(Typed::Real(float(bits))))
}
