// A word as samples: 680 of them, into a room that the caller lends.
#![tactic(auto)]

ghost use Rattle.std.specs.Prelude.{◌≡◌, ◌<◌, get_or};
ghost use Rattle.samples.specs.Written.{frame_bits, samples_of, written_of, room_after};

use refusals::Refusal;

// A bit's samples, and half of them.
const BIT: usize = 20;

const HALF: usize = 10;

// The bits of a word, between the start bit and the stop bit.
const BITS: usize = 32;

pub const FRAME_SAMPLES: usize = 680;

pub fn write(word: u32, room: &mut [u8]) -> Result<(), Refusal>
    ensures answer { result ≡ written_of room.old }
    ensures bytes { room.new ≡ room_after word room.old }
{
    if room.len() < FRAME_SAMPLES {
        return Err(Refusal::ShortRoom);
    }
    for (i, sample) in room[..FRAME_SAMPLES].iter_mut().enumerate() {
        *sample = sample_at(word, i);
    }
    Ok(())
}

#[tactic(auto, using(crate::proofs::Places::sample_low, crate::proofs::Places::sample_high))]
fn sample_at(word: u32, i: usize) -> u8
    requires { i < 680 }
    ensures { result ≡ get_or (samples_of word) i 0 }
{
    let bit = bit_at(word, i / BIT);
    if i % BIT < HALF { bit } else { 1 - bit }
}

// The start bit and the stop bit are 1.
#[tactic(auto, using(crate::proofs::Places::stop_at, crate::proofs::Places::data_at))]
fn bit_at(word: u32, n: usize) -> u8
    requires { n < 34 }
    ensures value { result ≡ get_or (frame_bits word) n 0 }
    ensures level { result < 2 }
{
    match n {
        1..=BITS => ((word >> (BITS - n)) % 2) as u8,
        _ => 1,
    }
}
