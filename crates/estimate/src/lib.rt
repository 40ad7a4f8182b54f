// Document 01's first estimates: a mosaic into three planes.
#![tactic(auto)]

ghost use Rattle.std.specs.Prelude.{◌≡◌, true, not, ℕ, ◌+◌, ◌*◌, ◌≤◌, ◌<◌, length};
ghost use Rattle.integers.specs.Lists.{overwrite};
ghost use Rattle.planes.specs.Layout.{on_red_row, on_red_column, by_parity};
ghost use Rattle.planes.specs.Planes.{planes, listing, plane_of};
ghost use Rattle.questions.specs.Settings.{framed, ceiling};
ghost use Rattle.questions.specs.Questions.{ask};
ghost use Rattle.questions.specs.Refusals.{number_of};
ghost use Rattle.questions.specs.Calls.{Outcome};
ghost use Rattle.neighbourhood.specs.Inner.{Mosaic, inner};
ghost use Rattle.neighbourhood.specs.Place.{neighbourhood as neighbourhood_of, around, green_at as green_by, bilinear};
ghost use Rattle.estimate.specs.Estimates.{estimate as estimate_of, estimates};
ghost use Rattle.estimate.specs.Calls.{estimate_questions, estimate_call};

use neighbourhood::{Frame, Square};
use questions::{Refusal, Shape};

// Whether a row has red's parity.
#[tactic(auto, unfolding(planes::specs::Layout::on_red_row))]
fn has_red_row(shape: Shape, r: usize) -> bool
    ensures { result ≡ on_red_row shape.layout r }
{
    r % 2 == usize::from(shape.red_row())
}

// Whether a column has red's parity. It is asked in loops over vectors, where a byte takes the least room.
#[tactic(auto, unfolding(planes::specs::Layout::on_red_column))]
fn has_red_column(shape: Shape, c: usize) -> bool
    ensures { result ≡ on_red_column shape.layout c }
{
    (c % 2) as u8 == shape.red_column()
}

// Row r of the three planes, `count` places from `first` on, wherever they lie. Blue has the other parity than red in row and in column. The planes stay
// three parameters: of a struct of lent slices each clause would say `planes.new.red.now` for `red.new`.
fn estimate_part(
    frame: &Frame,
    top: u16,
    r: usize,
    first: usize,
    count: usize,
    red: &mut [u16],
    green: &mut [u16],
    blue: &mut [u16],
)
    requires part { (r < frame.now.shape.height) × (first + count ≤ frame.now.shape.width) }
    requires red_len { (length red.old ≡ frame.now.shape.width * frame.now.shape.height) × (length green.old ≡ frame.now.shape.width * frame.now.shape.height) × (length blue.old ≡ frame.now.shape.width * frame.now.shape.height) }
    ensures red_after { red.new ≡ overwrite red.old (r * frame.now.shape.width + first) count (λ k. (estimates top frame.now r (first + k)).red) }
    ensures green_after { green.new ≡ overwrite green.old (r * frame.now.shape.width + first) count (λ k. (estimates top frame.now r (first + k)).green) }
    ensures blue_after { blue.new ≡ overwrite blue.old (r * frame.now.shape.width + first) count (λ k. (estimates top frame.now r (first + k)).blue) }
{
    let at = r * frame.shape.width + first;
    let row = has_red_row(frame.shape, r);
    for k in 0..count {
        let n = frame.neighbourhood(r, first + k);
        let column = has_red_column(frame.shape, first + k);
        red[at + k] = neighbourhood::bilinear_estimate(n, row, column);
        green[at + k] = neighbourhood::green_at(top, n, row, column);
        blue[at + k] = neighbourhood::bilinear_estimate(n, !row, !column);
    }
}

// One plane of row r, `count` places from `first` on, which lie inside: what `estimated` gives of a place's neighbourhood, and of whether its column
// has red's parity. One plane to a loop, and no test in it: so it becomes vectors.
fn estimate_inside<F: Fn(Square, bool) -> u16>(
    frame: &Frame,
    r: usize,
    first: usize,
    count: usize,
    plane: &mut [u16],
    estimated: F,
)
    requires part { (inner frame.now.shape.height r ≡ true) × (r < frame.now.shape.height) × (2 ≤ first) × (first + count + 2 ≤ frame.now.shape.width) }
    requires plane_len { length plane.old ≡ frame.now.shape.width * frame.now.shape.height }
    requires callable { F.IsAlwaysCallable estimated }
    ensures { (f : ℕ → ℕ) → ((k x : ℕ) → k < count → F.post estimated (neighbourhood_of frame.now.shape.width frame.now.shape.height (plane_of 0 frame.now.shape.width frame.now.samples.now) r (first + k)) (on_red_column frame.now.shape.layout (first + k)) x → x ≡ f k) → plane.new ≡ overwrite plane.old (r * frame.now.shape.width + first) count f }
{
    let at = r * frame.shape.width + first;
    for k in 0..count {
        let n = frame.inside(r, first + k);
        plane[at + k] = estimated(n, has_red_column(frame.shape, first + k));
    }
}

// Row r of the three planes, two rows or more from the border: two places, those that lie inside, and two places.
fn estimate_inner_row(
    frame: &Frame,
    top: u16,
    r: usize,
    red: &mut [u16],
    green: &mut [u16],
    blue: &mut [u16],
)
    requires row { (inner frame.now.shape.height r ≡ true) × (r < frame.now.shape.height) × (4 < frame.now.shape.width) }
    requires red_len { (length red.old ≡ frame.now.shape.width * frame.now.shape.height) × (length green.old ≡ frame.now.shape.width * frame.now.shape.height) × (length blue.old ≡ frame.now.shape.width * frame.now.shape.height) }
    ensures red_after { red.new ≡ overwrite red.old (r * frame.now.shape.width) frame.now.shape.width (λ c. (estimates top frame.now r c).red) }
    ensures green_after { green.new ≡ overwrite green.old (r * frame.now.shape.width) frame.now.shape.width (λ c. (estimates top frame.now r c).green) }
    ensures blue_after { blue.new ≡ overwrite blue.old (r * frame.now.shape.width) frame.now.shape.width (λ c. (estimates top frame.now r c).blue) }
{
    let count = frame.shape.width - 4;
    let row = has_red_row(frame.shape, r);
    let red_at = move |n: Square, column: bool| -> u16
        ensures { result ≡ bilinear row column (around n) }
    { neighbourhood::bilinear_estimate(n, row, column) };
    let green_at = move |n: Square, column: bool| -> u16
        ensures { result ≡ green_by top (by_parity row column) (around n) }
    { neighbourhood::green_at(top, n, row, column) };
    let blue_at = move |n: Square, column: bool| -> u16
        ensures { result ≡ bilinear (not row) (not column) (around n) }
    { neighbourhood::bilinear_estimate(n, !row, !column) };
    estimate_part(frame, top, r, 0, 2, red, green, blue);
    estimate_inside(frame, r, 2, count, red, red_at);
    estimate_inside(frame, r, 2, count, green, green_at);
    estimate_inside(frame, r, 2, count, blue, blue_at);
    estimate_part(frame, top, r, frame.shape.width - 2, 2, red, green, blue);
}

// Row r of the three planes.
fn estimate_row(
    frame: &Frame,
    top: u16,
    r: usize,
    red: &mut [u16],
    green: &mut [u16],
    blue: &mut [u16],
)
    requires row { r < frame.now.shape.height }
    requires red_len { (length red.old ≡ frame.now.shape.width * frame.now.shape.height) × (length green.old ≡ frame.now.shape.width * frame.now.shape.height) × (length blue.old ≡ frame.now.shape.width * frame.now.shape.height) }
    ensures red_after { red.new ≡ overwrite red.old (r * frame.now.shape.width) frame.now.shape.width (λ c. (estimates top frame.now r c).red) }
    ensures green_after { green.new ≡ overwrite green.old (r * frame.now.shape.width) frame.now.shape.width (λ c. (estimates top frame.now r c).green) }
    ensures blue_after { blue.new ≡ overwrite blue.old (r * frame.now.shape.width) frame.now.shape.width (λ c. (estimates top frame.now r c).blue) }
{
    if neighbourhood::is_inner(frame.shape.height, r) && 4 < frame.shape.width {
        estimate_inner_row(frame, top, r, red, green, blue);
        return;
    }
    estimate_part(frame, top, r, 0, frame.shape.width, red, green, blue);
}

// All rows of the three planes.
fn estimate_rows(frame: &Frame, top: u16, red: &mut [u16], green: &mut [u16], blue: &mut [u16])
    requires { (length red.old ≡ frame.now.shape.width * frame.now.shape.height) × (length green.old ≡ frame.now.shape.width * frame.now.shape.height) × (length blue.old ≡ frame.now.shape.width * frame.now.shape.height) }
    ensures red_after { red.new ≡ listing frame.now.shape.width frame.now.shape.height (λ r c. (estimates top frame.now r c).red) }
    ensures green_after { green.new ≡ listing frame.now.shape.width frame.now.shape.height (λ r c. (estimates top frame.now r c).green) }
    ensures blue_after { blue.new ≡ listing frame.now.shape.width frame.now.shape.height (λ r c. (estimates top frame.now r c).blue) }
{
    for r in 0..frame.shape.height {
        estimate_row(frame, top, r, red, green, blue);
    }
}

// Questions 1, 2, 3, 6, 7 and 9, of planes that have room for so many samples each; `top` is the ceiling.
fn ask_estimate(
    top: u16,
    shape: Shape,
    mosaic: &[u16],
    red_room: usize,
    green_room: usize,
    blue_room: usize,
) -> Result<(), Refusal>
    ensures { number_of result ≡ ask (estimate_questions top (framed shape mosaic.now) (planes red_room green_room blue_room)) }
{
    questions::ask_shape(shape)?;
    let count = shape.width * shape.height;
    let given = mosaic.len();
    if given != count {
        return Err(Refusal::GivenLength);
    }
    if red_room != count {
        return Err(Refusal::FilledLength);
    }
    if green_room != count {
        return Err(Refusal::FilledLength);
    }
    if blue_room != count {
        return Err(Refusal::FilledLength);
    }
    if !questions::samples_within(top, mosaic) {
        return Err(Refusal::Sample);
    }
    Ok(())
}

// The first estimates of a mosaic of width · height samples, into three planes of exactly as many.
pub fn estimate(
    shape: Shape,
    mosaic: &[u16],
    red: &mut [u16],
    green: &mut [u16],
    blue: &mut [u16],
) -> Result<(), Refusal>
    ensures { Outcome (estimate_call ceiling (framed shape mosaic.now) (planes red.old green.old blue.old)) result (planes red.new green.new blue.new) }
{
    let top = questions::CEILING;
    ask_estimate(top, shape, mosaic, red.len(), green.len(), blue.len())?;
    let frame = Frame {
        samples: mosaic,
        shape,
    };
    estimate_rows(&frame, top, red, green, blue);
    Ok(())
}
