// Standard input for the programs: a lent room is filled as far as the input goes, and turns are taken while there may be more. An error is the
// one of the read, or of the turn, that failed.
#![tactic(auto)]

ghost use Rattle.std.specs.Prelude.{◌≡◌, ℕ, Bool, ◌-◌, ◌^◌, ◌<◌, ◌⊎◌, ⊤, take, length, Ok, Err, IfOk, IfErr, OnOk, OnErr, false};
ghost use Rattle.std.specs.Io.{ReadsAtMost};
ghost use Rattle.std.specs.Io.KnownBytes.{Consumes, IsAtEnd};
ghost use Rattle.std.specs.declared.io.Error.{Error};
ghost use Rattle.std.specs.declared.result.Result.{Result};
ghost use Rattle.input.specs.Turns.{Goes, Ends};

use std::io;
use std::io::Read;

// Reads until the room is full or the input ends, and gives how many bytes stand in front in the room then. Where a read fails, what came
// before it stands in front, and the room isn't full. (The loop counts by hand: the count is the answer, and each read goes on where the last
// ended; no other form is plainer.)
pub fn read_full<R: Read>(input: &mut R, room: &mut [u8]) -> io::Result<usize>
    ensures bound { ReadsAtMost result room.new }
    ensures bytes { IfOk result (λ n. Consumes (R.remaining input.old) (R.remaining input.new) (take n room.new)) }
    ensures end { IfOk result (λ n. n < length room.new → IsAtEnd (R.remaining input.new)) }
    ensures err { OnErr result ((n : ℕ) × (n < length room.new)
        × Consumes (R.remaining input.old) (R.remaining input.new) (take n room.new)) }
{
    let mut done = 0;
    while done < room.len() {
        let n = input.read(&mut room[done..])?;
        if n == 0 {
            return Ok(done);
        }
        done += n;
    }
    Ok(done)
}

// What a program does over and over.
pub trait Turn {
    // what a turn may answer, and how it leaves what takes the turns
    ghost gives: { Self → Result Bool Error → Self → Type 0 } = { λ _ _ _. ⊤ };

    // One turn, which answers whether there may be another.
    fn turn(&mut self) -> io::Result<bool>
        ensures { gives self.old result self.new };
}

// Takes one turn after the other, until one says that there is no more, or fails. A proved loop has to end, and nothing says that the input does:
// there are more turns than any run uses up.
pub fn while_more<T: Turn>(turns: &mut T) -> io::Result<()>
    ensures ok { OnOk result ((n : ℕ)
        × (Ends T.gives turns.old n (Ok false) turns.new ⊎ (Goes T.gives turns.old n turns.new × (n ≡ 2 ^ 64 - 1)))) }
    ensures err { IfErr result (λ e. (n : ℕ) × Ends T.gives turns.old n (Err e) turns.new) }
{
    for _ in 0..u64::MAX {
        if !turns.turn()? {
            return Ok(());
        }
    }
    Ok(())
}
