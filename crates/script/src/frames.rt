// A frame in a script: its word, and behind it how straight its edges were, two numbers; or nothing, and then both are 0.
ghost use Rattle.std.specs.Prelude.{◌≡◌, ◌≤◌, length, take};
ghost use Rattle.script.specs.Frames.{end_of, rest_of, first_of, span_of, behind_of, framing_of};

use crate::decimal::byte_of;
use crate::pairs::word;
use word::Frame;

// The end of the first field: the place of the first space, or the end of all.
fn field_end(s: &[u8]) -> usize
    ensures value { result ≡ end_of s.now }
    ensures within { result ≤ length s.now }
{
    s.iter().position(|&b| b == b' ').unwrap_or(s.len())
}

// The number in the first field.
#[tactic(auto, unfolding(crate::specs::Frames::first_of))]
pub(crate) fn first(s: &[u8]) -> Option<u8>
    ensures { result ≡ first_of s.now }
{
    byte_of(&s[..field_end(s)])
}

// What stands behind the first space: nothing, where there is none.
#[tactic(auto, unfolding(crate::specs::Frames::rest_of))]
pub(crate) fn rest(s: &[u8]) -> &[u8]
    ensures { result.now ≡ rest_of s.now }
{
    &s[s.len().min(field_end(s) + 1)..]
}

// Two numbers, and a space between.
#[tactic(auto, unfolding(crate::specs::Frames::span_of))]
fn span_of(s: &[u8]) -> Option<(u8, u8)>
    ensures { result ≡ span_of s.now }
{
    first(s).zip(byte_of(rest(s)))
}

// What stands behind a word.
#[tactic(auto, unfolding(crate::specs::Frames::behind_of))]
fn behind(s: &[u8]) -> Option<(u8, u8)>
    ensures { result ≡ behind_of s.now }
{
    match s {
        [] => Some((0, 0)),
        [_, fields @ ..] => span_of(fields),
    }
}

#[tactic(auto, unfolding(crate::specs::Frames::framing_of))]
pub(crate) fn frame_of(s: &[u8]) -> Option<Frame>
    ensures { result ≡ framing_of s.now }
{
    let (field, fields) = s.split_at(field_end(s));
    let word = word(field)?;
    let (shortest, longest) = behind(fields)?;
    Some(Frame {
        word,
        shortest,
        longest,
    })
}
