// Whether a line, or each of the four, has nothing to do. The box passes over such lines in a tick, and a caller may pass over the ticks of a
// box that has four of them: nothing changes in them but the time.
#![tactic(auto)]

ghost use Rattle.std.specs.Prelude.{◌≡◌};
ghost use Rattle.line.specs.Reads.{as_line};
ghost use Rattle.turns.specs.Idle.{idle_of, all_idle};
ghost use Rattle.rests.specs.Reads.{at};

use line::{Line, Turn};

#[tactic(auto, unfolding(turns::specs::Idle::idle_of))]
pub fn idle(line: Line) -> bool
    ensures { result ≡ idle_of (as_line line) }
{
    matches!(line.turn, Turn::Rest(Line::REST)) && line.held.is_none() && line.order.is_none()
}

// The lines of a box.
pub fn all_idle(lines: [Line; 4]) -> bool
    ensures { result ≡ all_idle (at lines 0) (at lines 1) (at lines 2) (at lines 3) }
{
    lines.iter().all(|line| idle(*line))
}
