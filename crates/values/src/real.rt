// The f8.8 real: the signed raw number divided by 256, exact, and the way back.
ghost use Rattle.std.specs.Prelude.{◌≡◌, ℕ, ◌<◌};
ghost use Rattle.values.specs.Real.{real_of, BackOf};

use refusals::Refusal;
use std::num::saturating_f32_to_i16;

pub(crate) fn real_of(raw: u16) -> f32
    ensures { result ≡ real_of raw }
{
    f32::from(raw.cast_signed()) / 256.0
}

// The only raw number that can give x; any number where none gives it.
fn guess(x: f32) -> u16
    ensures { (raw : ℕ) → raw < 0x1_0000 → x ≡ real_of raw → result ≡ raw }
{
    saturating_f32_to_i16(x * 256.0).cast_unsigned()
}

pub(crate) fn real_back(x: f32) -> Result<u16, Refusal>
    ensures { BackOf x result }
{
    let raw = guess(x);
    if !x.is_nan() && real_of(raw).to_bits() == x.to_bits() {
        Ok(raw)
    } else {
        Err(Refusal::NoRawNumber)
    }
}
