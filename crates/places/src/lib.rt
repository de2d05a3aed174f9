// Numbers of one, two and four bytes, the high byte first, at a place of a slice. Bytes past the end count as 0.
#![tactic(auto)]

ghost use Rattle.std.specs.Prelude.{◌≡◌, ◌+◌, ◌<◌, ℕ, get_or};
ghost use Rattle.places.specs.Bytes.{pair_at, word_at};

// Slice and place go together, here and below; a struct of the two would be no plainer.
pub fn byte_at(s: &[u8], at: usize) -> u8
    ensures { result ≡ get_or s.now at 0 }
{
    s.get(at).copied().unwrap_or(0)
}

// The byte at the place and those behind it: no slice reaches as far as the largest index, at which the sum stops. (`array::from_fn` was tried: its
// proof is an induction over the calls, and didn't close.)
fn bytes_at<const N: usize>(s: &[u8], at: usize) -> [u8; N]
    ensures { (k : ℕ) → k < N → get_or result k 0 ≡ get_or s.now (at + k) 0 }
{
    let mut bytes = [0; N];
    for (k, byte) in bytes.iter_mut().enumerate() {
        *byte = byte_at(s, at.saturating_add(k));
    }
    bytes
}

#[tactic(auto, unfolding(crate::specs::Bytes::pair_at))]
pub fn pair_at(s: &[u8], at: usize) -> u16
    ensures { result ≡ pair_at s.now at }
{
    u16::from_be_bytes(bytes_at(s, at))
}

#[tactic(auto, unfolding(crate::specs::Bytes::pair_at, crate::specs::Bytes::word_at))]
pub fn word_at(s: &[u8], at: usize) -> u32
    ensures { result ≡ word_at s.now at }
{
    u32::from_be_bytes(bytes_at(s, at))
}
