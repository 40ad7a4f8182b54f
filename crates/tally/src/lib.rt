// Document 01's tally of finishing calls. Each count stops at the largest number.
#![tactic(auto)]

ghost use Rattle.std.specs.Prelude.{◌≡◌};
ghost use Rattle.tally.specs.Tally.{finished_after, refused_after, rounds_after, zero_tally, next_tally};

// Frames finished, frames refused and rounds run.
#[derive(Clone, Copy)]
pub struct Tally {
    pub finished: u32,
    pub refused: u32,
    pub rounds: u32,
}

// The frames finished after a finishing call that answered this number, 0 for accepted. A number and no Result, since C, which counts by this call and the next
// two, has the number alone.
pub fn finished_after(before: u32, number: u32) -> u32
    ensures { result ≡ finished_after before number }
{
    if number == 0 {
        return before.saturating_add(1);
    }
    before
}

// The frames refused after it.
pub fn refused_after(before: u32, number: u32) -> u32
    ensures { result ≡ refused_after before number }
{
    if number == 0 {
        return before;
    }
    before.saturating_add(1)
}

// The rounds run after it, where it was given so many rounds.
pub fn rounds_after(before: u32, number: u32, rounds: u32) -> u32
    ensures { result ≡ rounds_after before number rounds }
{
    if number == 0 {
        return before.saturating_add(rounds);
    }
    before
}

impl Tally {
    // Nothing counted. `Default` would be a second name for it.
    pub fn zero() -> Self
        ensures { result ≡ zero_tally }
    {
        Self {
            finished: 0,
            refused: 0,
            rounds: 0,
        }
    }

    // The tally after a finishing call with so many rounds that answered this number.
    pub fn next(self, number: u32, rounds: u32) -> Self
        ensures { result ≡ next_tally number rounds self }
    {
        Self {
            finished: finished_after(self.finished, number),
            refused: refused_after(self.refused, number),
            rounds: rounds_after(self.rounds, number, rounds),
        }
    }
}
