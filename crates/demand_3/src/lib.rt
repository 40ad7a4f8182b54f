// Demand 3, run: a frame finished as given, and finished as it stands after a list of turning calls.
#![tactic(auto)]

ghost use Rattle.std.specs.Prelude.{◌≡◌};
ghost use Rattle.questions.specs.Settings.{framed};
ghost use Rattle.questions.specs.Lent.{lent};
ghost use Rattle.questions.specs.Calls.{Outcome};
ghost use Rattle.finishing.specs.Calls.{finish_call};
ghost use Rattle.demand_3.specs.Between.{turned_once, turned_all};
ghost use Rattle.demand_3.specs.Alike.{stands, Moved, FinishedAlike};

use questions::{Refusal, Settings, Shape};
use turns::Turn;

// Where the frame stands: its width, height and layout, and whether the second mosaic holds its samples. A flag, as the definition `Between` has it: each accepted
// turn makes it its opposite, for which an enum of two names would need a function.
#[derive(Clone, Copy)]
struct Standing {
    shape: Shape,
    swapped: bool,
}

// The answers of both finishings.
#[derive(Clone, Copy)]
pub struct Answers {
    pub given: Result<(), Refusal>,
    pub turned: Result<(), Refusal>,
}

// A turning call from one mosaic into the other.
fn turn_between(turn: Turn, at: Standing, from: &[u16], to: &mut [u16]) -> Standing
    ensures { Moved turn.number at from.now to.old result to.new }
{
    match turns::turn_samples(turn, at.shape, from, to) {
        Ok(shape) => Standing {
            shape,
            swapped: !at.swapped,
        },
        Err(_) => at,
    }
}

// A turning call from the mosaic where the frame stands.
fn turn_once(turn: Turn, at: Standing, first: &mut [u16], second: &mut [u16]) -> Standing
    ensures { stands result first.new second.new ≡ turned_once turn.number (stands at first.old second.old) }
{
    if at.swapped {
        return turn_between(turn, at, second, first);
    }
    turn_between(turn, at, first, second)
}

// All of them, one after another.
fn turn_all(turns: &[u8], start: Standing, first: &mut [u16], second: &mut [u16]) -> Standing
    ensures { stands result first.new second.new ≡ turned_all turns.now (stands start first.old second.old) }
{
    let mut at = start;
    for turn in turns {
        at = turn_once(Turn { number: *turn }, at, first, second);
    }
    at
}

// The frame finished from the mosaic where it stands.
// Lent lists go one by one (docs/DECISIONS.md, "Lent lists").
fn finish_standing(
    at: Standing,
    settings: Settings,
    first: &[u16],
    second: &[u16],
    red: &mut [u16],
    green: &mut [u16],
    blue: &mut [u16],
    work: &mut [i32],
    wide_work: &mut [i64],
) -> Result<(), Refusal>
    ensures { Outcome (finish_call (stands at first.now second.now).frame settings (lent red.old green.old blue.old work.old wide_work.old)) result (lent red.new green.new blue.new work.new wide_work.new) }
{
    let mosaic = if at.swapped { second } else { first };
    finishing::finish_frame(
        at.shape, settings, mosaic, red, green, blue, work, wide_work,
    )
}

// Finishes the frame in the first mosaic; turns it by these turns, back and forth between the two; finishes what stands then.
// Lent lists go one by one (docs/DECISIONS.md, "Lent lists").
pub fn finish_turned(
    turns: &[u8],
    shape: Shape,
    settings: Settings,
    first: &mut [u16],
    second: &mut [u16],
    red1: &mut [u16],
    green1: &mut [u16],
    blue1: &mut [u16],
    work1: &mut [i32],
    wide1: &mut [i64],
    red2: &mut [u16],
    green2: &mut [u16],
    blue2: &mut [u16],
    work2: &mut [i32],
    wide2: &mut [i64],
) -> Answers
    ensures { FinishedAlike turns.now (framed shape first.old) second.old settings (lent red1.old green1.old blue1.old work1.old wide1.old) (lent red2.old green2.old blue2.old work2.old wide2.old) result first.new second.new (lent red1.new green1.new blue1.new work1.new wide1.new) (lent red2.new green2.new blue2.new work2.new wide2.new) }
{
    let start = Standing {
        shape,
        swapped: false,
    };
    let given = finish_standing(
        start, settings, first, second, red1, green1, blue1, work1, wide1,
    );
    let at = turn_all(turns, start, first, second);
    let turned = finish_standing(
        at, settings, first, second, red2, green2, blue2, work2, wide2,
    );
    Answers { given, turned }
}
