// Reads words from standard input, four bytes each with the high byte first, and writes the 680 samples of each to standard output. A
// tail of 1 to 3 bytes writes nothing.
//
// The file `stdin` has 100 words (P1 to P4, none and all of the bits, each bit alone, each bit missing, 01010101 times 1 to 30) and a tail
// of three bytes; `stdout` has what 01 says of them, more than the room takes at once.
#![tactic(auto)]

ghost use Rattle.std.specs.Prelude.{◌≡◌, ◌*◌, ◌/◌, ◌≤◌, take, length};
ghost use Rattle.otencode.specs.Encoded.{encoded};

use input::Turn;
use std::io;
use std::io::Read;
use writer::FRAME_SAMPLES;

const WORD: usize = 4;

// The words of which the samples go out in one write, or fewer at the end of a block.
const WORDS: usize = 96;

// Writes the samples of the words that are whole, one behind the other, in front in the room.
#[tactic(auto, unfolding(crate::specs::Encoded::encoded))]
fn encode(words: &[u8], room: &mut [u8; WORDS * FRAME_SAMPLES])
    requires { length words.now ≤ 384 }
    ensures { take (length words.now / 4 * 680) room.new ≡ encoded (length words.now / 4) words.now }
{
    for k in 0..words.len() / WORD {
        let _ = writer::write(
            places::word_at(words, k * WORD),
            &mut room[k * FRAME_SAMPLES..],
        );
    }
}

#[derive(Drop)]
struct Blocks<'a, R, P> {
    stdin: R,
    rt: &'a P,
}

impl<R: Read, P: Print> Turn for Blocks<'_, R, P> {
    // A block is whole words but for the last, and whether it was the last is the answer.
    fn turn(&mut self) -> io::Result<bool> {
        let mut block = [0u8; 4096];
        let n = input::read_full(&mut self.stdin, &mut block)?;
        let mut room = [0u8; WORDS * FRAME_SAMPLES];
        for words in block[..n].chunks(WORDS * WORD) {
            encode(words, &mut room);
            self.rt
                .write_all(&room[..words.len() / WORD * FRAME_SAMPLES])?;
        }
        Ok(n == block.len())
    }
}

fn main(rt: HostRuntime) -> io::Result<()> {
    input::while_more(&mut Blocks {
        stdin: rt.stdin(),
        rt: &rt,
    })
}
