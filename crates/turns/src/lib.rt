// Document 01's turns: the turn as a value with its operations, and the turning call.
#![tactic(auto)]

ghost use Rattle.std.specs.Prelude.{◌≡◌, cond, ◌++◌, ℕ, ◌+◌, ◌*◌, ◌/◌, ◌%◌, ◌≤◌, ◌<◌, eqb, leb, length};
ghost use Rattle.integers.specs.Lists.{tabulate};
ghost use Rattle.planes.specs.Planes.{listing};
ghost use Rattle.planes.specs.Lists.{InRow, InPlane};
ghost use Rattle.questions.specs.Settings.{framed};
ghost use Rattle.questions.specs.Questions.{ask};
ghost use Rattle.questions.specs.Refusals.{number_of};
ghost use Rattle.questions.specs.Calls.{Answered, Outcome};
ghost use Rattle.turns.specs.Pictures.{flip_if_even, steps_of, then_another};
ghost use Rattle.turns.specs.Frames.{turn_frame};
ghost use Rattle.turns.specs.Turning.{shape_turned, turned_shape, then_questions, shape_turn_questions, length_questions, turn_call};
ghost use Rattle.turns.specs.Filling.{mirror_place, source_row, source_plane};

use questions::{Refusal, Shape};

// A turn, 0 to 7: 4 and more exchange rows and columns first; then 1 mirrors left-right, 2 top-bottom, 3 both. No enum: any byte may come, since question 16
// is asked of it, and the three steps are read off the number.
#[derive(Clone, Copy)]
pub struct Turn {
    pub number: u8,
}

impl Turn {
    #[tactic(auto, unfolding(crate::specs::Pictures::steps_of))]
    fn exchanges(self) -> bool
        ensures { result ≡ (steps_of self.number).exchange }
    {
        4 <= self.number
    }

    #[tactic(auto, unfolding(crate::specs::Pictures::steps_of))]
    fn mirrors_left_right(self) -> bool
        ensures { result ≡ (steps_of self.number).mirror_left_right }
    {
        self.number % 2 == 1
    }

    #[tactic(auto, unfolding(crate::specs::Pictures::steps_of))]
    fn mirrors_top_bottom(self) -> bool
        ensures { result ≡ (steps_of self.number).mirror_top_bottom }
    {
        self.number / 2 % 2 == 1
    }

    // This turn, then another, as a single one. Asks 16 of both.
    pub fn then_another(self, next: Turn) -> Result<Turn, Refusal>
        ensures { Answered (then_questions self.number next.number) (record { number = then_another self.number next.number }) result }
    {
        let first = self.number;
        let second = next.number;
        if 7 < first {
            return Err(Refusal::Turn);
        }
        if 7 < second {
            return Err(Refusal::Turn);
        }
        Ok(single(self, next))
    }

    // Width, height and layout after this turn. Asks 16, 1, 2 and 3, as each of the three by itself does.
    pub fn turned_shape(self, shape: Shape) -> Result<Shape, Refusal>
        ensures { Answered (shape_turn_questions self.number shape.width shape.height shape.layout) (turned_shape self.number shape) result }
    {
        self.ask_shape(shape)?;
        Ok(self.shape_after(shape))
    }

    // The turned width alone.
    pub fn turned_width(self, shape: Shape) -> Result<usize, Refusal>
        ensures { Answered (shape_turn_questions self.number shape.width shape.height shape.layout) (shape_turned self.number shape.width shape.height shape.layout).width result }
    {
        Ok(self.turned_shape(shape)?.width)
    }

    // The turned height alone.
    pub fn turned_height(self, shape: Shape) -> Result<usize, Refusal>
        ensures { Answered (shape_turn_questions self.number shape.width shape.height shape.layout) (shape_turned self.number shape.width shape.height shape.layout).height result }
    {
        Ok(self.turned_shape(shape)?.height)
    }

    // The turned layout alone.
    pub fn turned_layout(self, shape: Shape) -> Result<u8, Refusal>
        ensures { Answered (shape_turn_questions self.number shape.width shape.height shape.layout) (shape_turned self.number shape.width shape.height shape.layout).layout result }
    {
        Ok(self.turned_shape(shape)?.layout)
    }

    // Questions 16, 1, 2 and 3.
    fn ask_shape(self, shape: Shape) -> Result<(), Refusal>
        ensures { number_of result ≡ ask (shape_turn_questions self.number shape.width shape.height shape.layout) }
    {
        if 7 < self.number {
            return Err(Refusal::Turn);
        }
        questions::ask_shape(shape)
    }

    // Questions 16, 1, 2, 3, 6 and 7, of `given` samples and a second buffer of `room`.
    fn ask_turn(self, shape: Shape, given: usize, room: usize) -> Result<(), Refusal>
        ensures { number_of result ≡ ask (shape_turn_questions self.number shape.width shape.height shape.layout ++ length_questions (shape.width * shape.height) given room) }
    {
        self.ask_shape(shape)?;
        let count = shape.width * shape.height;
        if given != count {
            return Err(Refusal::GivenLength);
        }
        if room != count {
            return Err(Refusal::FilledLength);
        }
        Ok(())
    }

    // A shape, exchanged or not, and then mirrored. Its level stays.
    fn shape_after(self, shape: Shape) -> Shape
        ensures { result ≡ turned_shape self.number shape }
    {
        let exchanges = self.exchanges();
        let left_right = self.mirrors_left_right();
        let top_bottom = self.mirrors_top_bottom();
        let level = 4 * (shape.layout / 4);
        let (width, height, row, column) = if exchanges {
            (
                shape.height,
                shape.width,
                mirrored_parity(top_bottom, shape.width, shape.red_column()),
                mirrored_parity(left_right, shape.height, shape.red_row()),
            )
        } else {
            (
                shape.width,
                shape.height,
                mirrored_parity(top_bottom, shape.height, shape.red_row()),
                mirrored_parity(left_right, shape.width, shape.red_column()),
            )
        };
        Shape {
            width,
            height,
            layout: level + (2 * row + column),
        }
    }

    // The turned samples, row by row; the layout has no part in it. After an exchange the given columns are rows.
    fn fill(self, shape: Shape, samples: &[u16], out: &mut [u16])
        requires { (0 < shape.width) × (0 < shape.height) × (length samples.now ≡ shape.width * shape.height) × (length out.old ≡ shape.width * shape.height) }
        ensures { out.new ≡ (turn_frame self.number (framed shape samples.now)).samples }
    {
        let Shape { width, height, .. } = shape;
        let lr = self.mirrors_left_right();
        let tb = self.mirrors_top_bottom();
        if self.exchanges() {
            Self::fill_rows(samples, lr, tb, height, width, 1, width, out);
            return;
        }
        Self::fill_rows(samples, lr, tb, width, height, width, 1, out);
    }

    // All turned rows. Rows stand `row_step` apart in `samples`, the samples of a row `column_step`. A struct of the four numbers would have one caller,
    // which would write them all the same. It is put into both calls, where a step is 1: so a row along the given rows is a loop over vectors. Rows of fewer
    // than 8 places, which fill no vector, are narrow ones.
    #[inline(always)]
    fn fill_rows(
        samples: &[u16],
        left_right: bool,
        top_bottom: bool,
        columns: usize,
        rows: usize,
        row_step: usize,
        column_step: usize,
        out: &mut [u16],
    )
        requires in_plane { InPlane samples.now 0 columns rows row_step column_step }
        requires out_len { length out.old ≡ columns * rows }
        ensures { out.new ≡ listing columns rows (source_plane samples.now left_right top_bottom columns rows row_step column_step) }
    {
        if columns < 8 {
            Self::fill_each(
                samples,
                left_right,
                top_bottom,
                columns,
                rows,
                row_step,
                column_step,
                true,
                out,
            );
            return;
        }
        Self::fill_each(
            samples,
            left_right,
            top_bottom,
            columns,
            rows,
            row_step,
            column_step,
            false,
            out,
        );
    }

    // The same, of narrow rows or of wide ones: put into both calls, where `narrow` is a constant.
    #[inline(always)]
    fn fill_each(
        samples: &[u16],
        left_right: bool,
        top_bottom: bool,
        columns: usize,
        rows: usize,
        row_step: usize,
        column_step: usize,
        narrow: bool,
        out: &mut [u16],
    )
        requires in_plane { InPlane samples.now 0 columns rows row_step column_step }
        requires out_len { length out.old ≡ columns * rows }
        ensures { out.new ≡ listing columns rows (source_plane samples.now left_right top_bottom columns rows row_step column_step) }
    {
        for i in 0..rows {
            let from = mirrored_row(top_bottom, narrow, rows, i) * row_step;
            let start = i * columns;
            fill_row(
                samples,
                left_right,
                from,
                column_step,
                &mut out[start..start + columns],
            );
        }
    }
}

// The one turn that does what the two do: an exchange in the second swaps the mirrors of the first.
fn single(first: Turn, second: Turn) -> Turn
    ensures { result ≡ record { number = then_another first.number second.number } }
{
    let (left_right, top_bottom) = if second.exchanges() {
        (first.mirrors_top_bottom(), first.mirrors_left_right())
    } else {
        (first.mirrors_left_right(), first.mirrors_top_bottom())
    };
    let exchange = u8::from(first.exchanges() != second.exchanges());
    let rows = u8::from(top_bottom != second.mirrors_top_bottom());
    let columns = u8::from(left_right != second.mirrors_left_right());
    Turn {
        number: 4 * exchange + 2 * rows + columns,
    }
}

// A parity of red after the mirror of a line of n places, if there is one.
#[tactic(auto, using(crate::proofs::Pictures::flip_even, crate::proofs::Pictures::flip_odd))]
fn mirrored_parity(mirror: bool, n: usize, parity: u8) -> u8
    requires { parity ≤ 1 }
    ensures { (result ≡ cond mirror (flip_if_even n parity) parity) × (result ≤ 1) }
{
    if !mirror {
        return parity;
    }
    if n % 2 == 0 { 1 - parity } else { parity }
}

// A place of a line of n, mirrored or not.
#[tactic(auto, unfolding(crate::specs::Filling::mirror_place))]
fn mirrored(mirror: bool, n: usize, i: usize) -> usize
    requires { i < n }
    ensures { (result ≡ mirror_place mirror n i) × (result < n) }
{
    if mirror { n - 1 - i } else { i }
}

// The same, put into no caller.
#[inline(never)]
fn mirrored_apart(mirror: bool, n: usize, i: usize) -> usize
    requires { i < n }
    ensures { (result ≡ mirror_place mirror n i) × (result < n) }
{
    mirrored(mirror, n, i)
}

// The same for a row. A caller that sees rows go backwards asks of all rows at once whether they overlap what is written, finds that they may, and takes
// samples one by one; narrow rows are taken one by one whichever way, and a call for each would take as long again.
#[inline(always)]
fn mirrored_row(mirror: bool, narrow: bool, rows: usize, i: usize) -> usize
    requires { i < rows }
    ensures { (result ≡ mirror_place mirror rows i) × (result < rows) }
{
    if narrow {
        mirrored(mirror, rows, i)
    } else {
        mirrored_apart(mirror, rows, i)
    }
}

// A turned row: its samples stand `step` apart in `samples`, the first at `from`.
fn fill_row(samples: &[u16], mirror: bool, from: usize, step: usize, row: &mut [u16])
    requires { InRow samples.now from (length row.old) step }
    ensures { row.new ≡ tabulate (length row.old) (source_row samples.now mirror (length row.old) from step) }
{
    let n = row.len();
    for (j, sample) in row.iter_mut().enumerate() {
        *sample = samples[from + mirrored(mirror, n, j) * step];
    }
}

// The turning call: the turned samples into `out`, a second buffer of exactly as many; the turned width, height and layout.
pub fn turn_samples(
    turn: Turn,
    shape: Shape,
    samples: &[u16],
    out: &mut [u16],
) -> Result<Shape, Refusal>
    ensures { Outcome (turn_call turn.number (framed shape samples.now) out.old) result out.new }
{
    turn.ask_turn(shape, samples.len(), out.len())?;
    let turned = turn.shape_after(shape);
    turn.fill(shape, samples, out);
    Ok(turned)
}
