// Inner: the 5 by 5 neighbourhood of a place, by value, and document 01's first estimates of that place from it.
#![tactic(auto)]

ghost use Rattle.std.specs.Prelude.{◌≡◌, true, cond, [], ◌+◌, ◌≤◌, ◌<◌, pos, nat_abs, ◌-ℤ◌, ◌*ℤ◌, length, get_or};
ghost use Rattle.std.specs.Int.Signed.{lt_z};
ghost use Rattle.integers.specs.Numbers.{rounded, clipped};
ghost use Rattle.integers.specs.Lists.{tabulate};
ghost use Rattle.border.specs.Border.{reflect};
ghost use Rattle.planes.specs.Layout.{by_parity};
ghost use Rattle.planes.specs.Planes.{plane_of};
ghost use Rattle.neighbourhood.specs.Inner.{Mosaic, inner, line_of, half_along, SmallResult, most_detail, most_along, most_greens};
ghost use Rattle.neighbourhood.specs.Place.{neighbourhood as neighbourhood_of, around, greens as greens_of, two_away as two_away_of, gradient as gradient_of, eight_greens as eight_of, hamilton_adams, green_at as green_by, of_two as two_rounded, of_four as four_rounded, bilinear};

use questions::Shape;

// Five samples along a row or a column, and five rows of five. The five are written out where they are made: with `array::from_fn` the proof did not close,
// since what it says of one call leaves open what the closure holds then; nor with `map`, which does not know what `|row| row[2]` answers.
pub type Line = [u16; 5];

pub type Square = [Line; 5];

// Five samples of a row, from `from` on. With `first_chunk` the whole estimate takes a seventh longer.
fn row_inside(mosaic: &[u16], from: usize) -> Line
    requires { from + 5 ≤ length mosaic.now }
    ensures { result ≡ tabulate 5 (λ j. get_or mosaic.now (from + j) 0) }
{
    [
        mosaic[from],
        mosaic[from + 1],
        mosaic[from + 2],
        mosaic[from + 3],
        mosaic[from + 4],
    ]
}

// A frame's samples and its shape, which they fit.
#[derive(Clone, Copy)]
pub struct Frame<'a> {
    pub samples: &'a [u16],
    pub shape: Shape,
    pub ghost fits: { Mosaic samples.now shape.width shape.height },
}

impl Frame<'_> {
    // The neighbourhood of a place that is two places or more from the border: five runs of five samples, one row apart.
    #[tactic(auto, using(crate::proofs::Neighbours::inside_room, crate::proofs::Neighbours::inner_is))]
    pub fn inside(&self, r: usize, c: usize) -> Square
        requires { (inner self.now.shape.height r ≡ true) × (inner self.now.shape.width c ≡ true) }
        ensures { result ≡ neighbourhood_of self.now.shape.width self.now.shape.height (plane_of 0 self.now.shape.width self.now.samples.now) r c }
    {
        let from = (r - 2) * self.shape.width + (c - 2);
        [
            row_inside(self.samples, from),
            row_inside(self.samples, from + self.shape.width),
            row_inside(self.samples, from + 2 * self.shape.width),
            row_inside(self.samples, from + 3 * self.shape.width),
            row_inside(self.samples, from + 4 * self.shape.width),
        ]
    }

    // The sample two columns before column c, reflected, of the row that starts at `at`.
    fn sample_before(&self, at: usize, c: usize) -> u16
        requires { at + self.now.shape.width ≤ length self.now.samples.now }
        ensures { result ≡ get_or self.now.samples.now (at + reflect self.now.shape.width (pos c -ℤ pos 2)) 0 }
    {
        let place = border::reflected_before(self.shape.width, c, 2);
        self.samples[at + place]
    }

    // Five samples about column c, reflected, of the row two rows before row r, reflected.
    // Inlined, so that the five rows share their columns.
    #[inline(always)]
    fn row_before(&self, r: usize, c: usize) -> Line
        requires { c < 4096 }
        ensures { result ≡ tabulate 5 (λ j. plane_of 0 self.now.shape.width self.now.samples.now (reflect self.now.shape.height (pos r -ℤ pos 2)) (reflect self.now.shape.width (pos (c + j) -ℤ pos 2))) }
    {
        let at = border::reflected_before(self.shape.height, r, 2) * self.shape.width;
        [
            self.sample_before(at, c),
            self.sample_before(at, c + 1),
            self.sample_before(at, c + 2),
            self.sample_before(at, c + 3),
            self.sample_before(at, c + 4),
        ]
    }

    // The neighbourhood of any place, each index reflected.
    fn reflected(&self, r: usize, c: usize) -> Square
        requires { (r < self.now.shape.height) × (c < self.now.shape.width) }
        ensures { result ≡ neighbourhood_of self.now.shape.width self.now.shape.height (plane_of 0 self.now.shape.width self.now.samples.now) r c }
    {
        [
            self.row_before(r, c),
            self.row_before(r + 1, c),
            self.row_before(r + 2, c),
            self.row_before(r + 3, c),
            self.row_before(r + 4, c),
        ]
    }

    // The 5 by 5 neighbourhood of a place, reflected. Most places lie inside, where nothing is to reflect.
    pub fn neighbourhood(&self, r: usize, c: usize) -> Square
        requires { (r < self.now.shape.height) × (c < self.now.shape.width) }
        ensures { result ≡ neighbourhood_of self.now.shape.width self.now.shape.height (plane_of 0 self.now.shape.width self.now.samples.now) r c }
    {
        if is_inner(self.shape.height, r) && is_inner(self.shape.width, c) {
            return self.inside(r, c);
        }
        self.reflected(r, c)
    }
}

// Whether place i of a line of n is two places or more from its ends.
pub fn is_inner(n: usize, i: usize) -> bool
    requires { (n ≤ 2048) × (i < n) }
    ensures { result ≡ inner n i }
{
    2 <= i && i + 2 < n
}

// The two green neighbours in a row, or in a column.
fn greens(line: Line) -> i32
    ensures { SmallResult 131070 result (greens_of (line_of line)) }
{
    let [_, before, _, after, _] = line;
    i32::from(before) + i32::from(after)
}

// The two values two away.
fn two_away(line: Line) -> i32
    ensures { SmallResult 131070 result (two_away_of (line_of line)) }
{
    let [first, _, _, _, last] = line;
    i32::from(first) + i32::from(last)
}

// 2C − the two values two away, C being the place's own value.
fn detail(line: Line) -> i32
    ensures { SmallResult most_detail result (pos 2 *ℤ line_of line (pos 0) -ℤ two_away_of (line_of line)) }
{
    2 * i32::from(line[2]) - two_away(line)
}

// H of a row, or V of a column, of five samples about a place.
fn gradient(line: Line) -> i32
    ensures { SmallResult most_along result (pos (gradient_of (line_of line))) }
{
    let [_, before, _, after, _] = line;
    (i32::from(before) - i32::from(after)).abs() + detail(line).abs()
}

// Four times the green by a row, or by a column.
fn along_line(line: Line) -> i32
    ensures { SmallResult most_along result (half_along (line_of line)) }
{
    2 * greens(line) + detail(line)
}

// The first sum if h < v, else the second. Both are there already, so that no branch is needed: which of H and V is smaller
// cannot be foretold.
fn chosen(h: i32, v: i32, first: i32, second: i32) -> i32
    requires { (nat_abs first ≤ most_along) × (nat_abs second ≤ most_along) }
    ensures { SmallResult most_along result (cond (lt_z h v) first second) }
{
    if h < v { first } else { second }
}

// Eight times the green, by the smaller of H and V twice, or once by each if they are equal.
fn eight_greens(row: Line, column: Line) -> i32
    requires { line_of row (pos 0) ≡ line_of column (pos 0) }
    ensures { SmallResult most_greens result (eight_of (line_of row) (line_of column)) }
{
    let h = gradient(row);
    let v = gradient(column);
    let across = along_line(row);
    let down = along_line(column);
    chosen(h, v, across, down) + chosen(v, h, down, across)
}

// The eighth of a sum, rounded and clipped to 0..top. What is below 0 is raised before: the machine's quotient goes toward 0 there.
fn clipped_eighth(top: u16, sum: i32) -> u16
    requires { nat_abs sum ≤ most_greens }
    ensures { result ≡ clipped top (rounded 8 sum) }
{
    // `as` here and in the averages: it fits, as is proved, and `u16::try_from` would test it again at each place of a loop over vectors
    let raised = (sum + 4).max(0) as u32;
    (raised / 8).min(u32::from(top)) as u16
}

// The column through the place.
#[tactic(auto, unfolding(integers::specs::Lists::tabulate))]
fn middle_column(n: Square) -> Line
    ensures { result ≡ tabulate 5 (λ i. get_or (get_or n i []) 2 0) }
{
    [n[0][2], n[1][2], n[2][2], n[3][2], n[4][2]]
}

// Green at a red or blue place, from the neighbourhood: Hamilton and Adams.
fn green_estimate(top: u16, n: Square) -> u16
    ensures { result ≡ hamilton_adams top (around n) }
{
    clipped_eighth(top, eight_greens(n[2], middle_column(n)))
}

// The first of two values that are there already, or the second: a choice without a branch, as `chosen` is, which has a bound to promise besides.
fn picked(first: bool, a: u16, b: u16) -> u16
    ensures { result ≡ cond «first» a b }
{
    if first { a } else { b }
}

// Green at any place: estimated where it was not observed.
pub fn green_at(top: u16, n: Square, on_row: bool, on_column: bool) -> u16
    ensures { result ≡ green_by top (by_parity on_row on_column) (around n) }
{
    let estimated = on_row == on_column;
    picked(estimated, green_estimate(top, n), n[2][2])
}

// The half of two samples' sum, rounded.
fn of_two(a: u16, b: u16) -> u16
    ensures { result ≡ two_rounded a b }
{
    ((u32::from(a) + u32::from(b) + 1) / 2) as u16
}

// The quarter of four samples' sum, rounded.
fn of_four(a: u16, b: u16, c: u16, d: u16) -> u16
    ensures { result ≡ four_rounded a b c d }
{
    ((u32::from(a) + u32::from(b) + u32::from(c) + u32::from(d) + 2) / 4) as u16
}

// Red or blue in a row of the colour's places: observed, or from the two beside it.
fn on_its_row(row: Line, on_column: bool) -> u16
    ensures { result ≡ cond on_column (get_or row 2 0) (two_rounded (get_or row 1 0) (get_or row 3 0)) }
{
    let between = of_two(row[1], row[3]);
    picked(on_column, row[2], between)
}

// Red or blue between two rows of the colour's places: from the two above and below it, or from the four diagonals.
fn between_rows(above: Line, below: Line, on_column: bool) -> u16
    ensures { result ≡ cond on_column (two_rounded (get_or above 2 0) (get_or below 2 0)) (four_rounded (get_or above 1 0) (get_or above 3 0) (get_or below 1 0) (get_or below 3 0)) }
{
    let between = of_two(above[2], below[2]);
    let amid = of_four(above[1], above[3], below[1], below[3]);
    picked(on_column, between, amid)
}

// Red or blue, by whether the place's row, and its column, have the parity of the colour's places.
pub fn bilinear_estimate(n: Square, on_row: bool, on_column: bool) -> u16
    ensures { result ≡ bilinear on_row on_column (around n) }
{
    if on_row {
        return on_its_row(n[2], on_column);
    }
    between_rows(n[1], n[3], on_column)
}
