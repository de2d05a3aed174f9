// Pairs of hexadecimal digits, capital or small, read into bytes.
ghost use Rattle.std.specs.Prelude.{◌≡◌, ◌<◌, [], length, IsSome, IfSome, option_map, unwrap_or};
ghost use Rattle.script.specs.Digits.{digit_of, pair_of, fitting, hex_word_of};
ghost use Rattle.script.specs.Lines.{placed};

use places::word_at;

// The value of a digit.
#[tactic(auto, unfolding(crate::specs::Digits::digit_of))]
fn digit(b: u8) -> Option<u8>
    ensures value { result ≡ digit_of b }
    ensures bound { IfSome result (λ d. d < 16) }
{
    char::from(b).to_digit(16).map(|d| d as u8)
}

// The byte of two digits.
fn pair(high: u8, low: u8) -> u8
    requires high { IsSome (digit_of high) }
    requires low { IsSome (digit_of low) }
    ensures { result ≡ pair_of high low }
{
    digit(high).unwrap() * 16 + digit(low).unwrap()
}

// The bytes in front of a room, if these are pairs of digits and the room has so many, and their number; else nothing is written.
#[tactic(auto, unfolding(crate::specs::Digits::fitting, crate::specs::Digits::fits))]
pub(crate) fn pairs(s: &[u8], room: &mut [u8]) -> Option<usize>
    ensures count { result ≡ option_map (λ b. length b) (fitting (length room.old) s.now) }
    ensures written { room.new ≡ placed (unwrap_or (fitting (length room.old) s.now) []) room.old }
{
    let count = s.len() / 2;
    if s.len() % 2 != 0 || room.len() < count || !s.iter().all(|&b| digit(b).is_some()) {
        return None;
    }
    // `room.iter_mut()` beside the chunks would need no index; a proof knows nothing of what is written through it.
    for (i, digits) in s.chunks_exact(2).enumerate() {
        room[i] = pair(digits[0], digits[1]);
    }
    Some(count)
}

// A word of eight digits.
#[tactic(auto, unfolding(crate::specs::Digits::hex_word_of))]
pub(crate) fn word(s: &[u8]) -> Option<u32>
    ensures { result ≡ hex_word_of s.now }
{
    if s.len() != 8 {
        return None;
    }
    let mut bytes = [0; 4];
    pairs(s, &mut bytes)?;
    Some(word_at(&bytes, 0))
}
