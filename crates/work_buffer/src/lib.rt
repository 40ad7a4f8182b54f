// Inner: the work buffers that the update and the rounds are lent. Samples go in and out of the first as signed numbers.
#![tactic(auto)]

ghost use Rattle.std.specs.Prelude.{◌≡◌, ◌≤◌, ◌<◌, T, nat_abs};
ghost use Rattle.std.specs.Int.Signed.{non_neg};
ghost use Rattle.planes.specs.Planes.{Sizes};
ghost use Rattle.work_buffer.specs.Places.{places_of};

// A colour's places in a frame, every second one of every second row: the first, how far apart their rows stand, and how many columns and rows they form.
#[derive(Clone, Copy)]
pub struct Places {
    pub from: usize,
    pub down: usize,
    pub columns: usize,
    pub rows: usize,
}

impl Places {
    // By the frame's sizes and the parities of the colour's rows and columns.
    #[tactic(auto, unfolding(planes::specs::Places::half))]
    pub fn of(width: usize, height: usize, row: usize, column: usize) -> Self
        requires { Sizes 2 width height × (row < 2) × (column < 2) }
        ensures { result ≡ places_of width height row column }
    {
        Self {
            from: row * width + column,
            down: 2 * width,
            columns: (width + 1 - column) / 2,
            rows: (height + 1 - row) / 2,
        }
    }
}

// A number that is known to be a sample, as one again. `u16::try_from` would test that once more, at each place of a loop over vectors.
pub fn narrowed(z: i32) -> u16
    requires { T (non_neg z) × (nat_abs z ≤ 65535) }
    ensures { result ≡ nat_abs z }
{
    z as u16
}
