// Inner: a plane's samples summed over the spot's window of 32 by 32 places.
#![tactic(auto)]

ghost use Rattle.std.specs.Prelude.{◌≡◌, ◌+◌, ◌≤◌, length};
ghost use Rattle.planes.specs.Planes.{plane_of};
ghost use Rattle.window.specs.Window.{window_inside, WindowRoom, WindowSum, RowSum};

// A row of the window: its 32 samples.
fn row_sum(row: &[u16]) -> u32
    requires { length row.now ≡ 32 }
    ensures { RowSum row.now result }
{
    let mut sum = 0;
    for sample in row {
        sum += u32::from(*sample);
    }
    sum
}

// The window whose first place is at this row and column.
pub fn window_sum(width: usize, plane: &[u16], row: usize, column: usize) -> u32
    requires { WindowRoom width (length plane.now) row column }
    ensures { WindowSum (plane_of 0 width plane.now) row column result }
{
    let mut sum = 0;
    for i in 0..32 {
        let from = (row + i) * width + column;
        sum += row_sum(&plane[from..from + 32]);
    }
    sum
}

// Question 19: whether the window lies wholly inside a frame. No sum of row or column is made, which could wrap.
// Each bound is an `if` of its own, so that the proof has a step with a name for each.
pub fn inside(width: usize, height: usize, row: usize, column: usize) -> bool
    ensures { result ≡ window_inside width height row column }
{
    if height < 32 {
        return false;
    }
    if height - 32 < row {
        return false;
    }
    if width < 32 {
        return false;
    }
    if width - 32 < column {
        return false;
    }
    true
}
