// A field of decimal digits, read into a number.
ghost use Rattle.std.specs.Prelude.{◌≡◌};
ghost use Rattle.script.specs.Digits.{bounded_of, byte_of};

// One digit or more, and at most `most`. No `parse`: it takes a plus in front.
#[tactic(auto, using(crate::proofs::Numbers::digit_at, crate::proofs::Numbers::other_at, crate::proofs::Numbers::over_at, crate::proofs::Numbers::at_end), unfolding(crate::specs::Digits::bounded_of))]
pub(crate) fn number_of(s: &[u8], most: u32) -> Option<u32>
    ensures { result ≡ bounded_of most s.now }
{
    if s.is_empty() {
        return None;
    }
    let mut value = 0u64;
    for &b in s {
        if !b.is_ascii_digit() {
            return None;
        }
        value = value * 10 + u64::from(b - b'0');
        if value > u64::from(most) {
            return None;
        }
    }
    Some(value as u32)
}

// A number of one byte, 0 to 255.
#[tactic(auto, using(crate::proofs::Numbers::at_most))]
pub(crate) fn byte_of(s: &[u8]) -> Option<u8>
    ensures { result ≡ byte_of s.now }
{
    number_of(s, 255).map(|n| n as u8)
}
