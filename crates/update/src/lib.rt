// Document 01's green update. What a function is told of a colour goes as its parities, or as its places.
#![tactic(auto)]

ghost use Rattle.std.specs.Prelude.{◌≡◌, ◌+◌, ◌*◌, ◌≤◌, ◌<◌, nat_abs, length};
ghost use Rattle.integers.specs.Lists.{tabulate, overwrite};
ghost use Rattle.planes.specs.Planes.{frame, listing, plane_of};
ghost use Rattle.planes.specs.Lists.{value, sample, put, InRow, InPlane};
ghost use Rattle.planes.specs.Places.{place};
ghost use Rattle.questions.specs.Settings.{framed, ceiling};
ghost use Rattle.questions.specs.Questions.{ask};
ghost use Rattle.questions.specs.Refusals.{number_of};
ghost use Rattle.questions.specs.Calls.{Outcome};
ghost use Rattle.work_buffer.specs.Buffer.{zeroed, Narrow, Workable};
ghost use Rattle.update.specs.Update.{put_mixed};
ghost use Rattle.update.specs.Calls.{update_questions, update_list, update_call};
ghost use Rattle.update.specs.Places.{with_mixed};

use questions::{Refusal, Shape};
use work_buffer::Places;

// Every second sample of green, from `from` on, into a row of a small plane.
fn gather_row(green: &[u16], from: usize, row: &mut [i32])
    requires { InRow green.now from (length row.old) 2 }
    ensures { row.new ≡ tabulate (length row.old) (λ k. sample green.now (from + 2 * k)) }
{
    for (k, x) in row.iter_mut().enumerate() {
        *x = i32::from(green[from + 2 * k]);
    }
}

// Green at these places into the work buffer's first numbers: a small plane.
fn gather(green: &[u16], places: Places, work: &mut [i32])
    requires { InPlane green.now places.from places.columns places.rows places.down 2 × (places.columns * places.rows ≤ length work.old) }
    ensures { work.new ≡ overwrite work.old 0 (places.columns * places.rows) (λ k. sample green.now (place places.from places.down places.columns k)) }
{
    let columns = places.columns;
    for i in 0..places.rows {
        let first = i * columns;
        gather_row(
            green,
            places.from + i * places.down,
            &mut work[first..first + columns],
        );
    }
}

// n numbers of the work buffer, from `at` on, back to every second place of a row. With the row lent by itself, as in `gather_row`, an update took 0.5 % more
// instructions.
fn scatter_row(work: &[i32], at: usize, n: usize, green: &mut [u16], from: usize)
    requires { Narrow work.now at n × InRow green.old from n 2 }
    ensures { green.new ≡ put green.old n (λ k. from + 2 * k) (λ k. nat_abs (value work.now (at + k))) }
{
    for k in 0..n {
        green[from + 2 * k] = work_buffer::narrowed(work[at + k]);
    }
}

// All rows of a small plane back to its places in green.
fn scatter(work: &[i32], green: &mut [u16], places: Places)
    requires { Narrow work.now 0 (places.columns * places.rows) × InPlane green.old places.from places.columns places.rows places.down 2 }
    ensures { green.new ≡ put green.old (places.columns * places.rows) (place places.from places.down places.columns) (λ k. nat_abs (value work.now k)) }
{
    for i in 0..places.rows {
        scatter_row(
            work,
            i * places.columns,
            places.columns,
            green,
            places.from + i * places.down,
        );
    }
}

// Green at a colour's places, by the parities of the colour's rows and columns. Held within 0 of the colour's details, it keeps its
// band 1 and takes the colour's bands 2 to 4; it is brought back to 0..top.
fn update_places(
    top: u16,
    width: usize,
    height: usize,
    row: usize,
    column: usize,
    mosaic: &[u16],
    green: &mut [u16],
    work: &mut [i32],
)
    requires { Workable width height mosaic.now green.old (length work.old) × (row < 2) × (column < 2) }
    ensures green_after { green.new ≡ listing width height (put_mixed top width height row column (plane_of 0 width mosaic.now) (plane_of 0 width green.old) (plane_of 0 width green.old)) }
    ensures work_after { work.new ≡ with_mixed top width height row column mosaic.now green.old work.old }
{
    let places = Places::of(width, height, row, column);
    let given = rings::Given {
        at: 0,
        from: places.from,
        down: places.down,
        across: 2,
        width: places.columns,
        height: places.rows,
        limit: 0,
    };
    let most = i32::from(top);
    gather(green, places, work);
    sweep::project(work, mosaic, given, filters::Range { least: 0, most });
    scatter(work, green, places);
}

// Questions 1, 2, 3, 6, 8, 9 and 10, of samples up to top and a work buffer that has room for so many numbers.
fn ask_update(
    top: u16,
    shape: Shape,
    mosaic: &[u16],
    green: &[u16],
    room: usize,
) -> Result<(), Refusal>
    ensures { number_of result ≡ ask (update_questions top (framed shape mosaic.now) green.now room) }
{
    questions::ask_shape(shape)?;
    let count = shape.width * shape.height;
    if mosaic.len() != count {
        return Err(Refusal::GivenLength);
    }
    if green.len() != count {
        return Err(Refusal::GivenLength);
    }
    if room < 8 * count {
        return Err(Refusal::WorkLength);
    }
    if !questions::samples_within(top, mosaic) {
        return Err(Refusal::Sample);
    }
    if !questions::samples_within(top, green) {
        return Err(Refusal::PlaneSample);
    }
    Ok(())
}

// Blue places and then red places, and the work buffer zeroed. Red's green is as it was: blue has the other parities.
fn update_colours(top: u16, shape: Shape, mosaic: &[u16], green: &mut [u16], work: &mut [i32])
    requires { Workable shape.width shape.height mosaic.now green.old (length work.old) }
    ensures green_after { green.new ≡ update_list top (framed shape mosaic.now) green.old }
    ensures work_after { work.new ≡ zeroed shape.width shape.height work.old }
{
    let Shape { width, height, .. } = shape;
    let red_row = usize::from(shape.red_row());
    let red_column = usize::from(shape.red_column());
    let blue_row = 1 - red_row;
    let blue_column = 1 - red_column;
    update_places(
        top,
        width,
        height,
        blue_row,
        blue_column,
        mosaic,
        green,
        work,
    );
    update_places(top, width, height, red_row, red_column, mosaic, green, work);
    work[..8 * (width * height)].fill(0);
}

// Updates the green estimate of a mosaic in place. The work buffer's first 8 · width · height numbers are scratch.
pub fn update(
    shape: Shape,
    mosaic: &[u16],
    green: &mut [u16],
    work: &mut [i32],
) -> Result<(), Refusal>
    ensures { Outcome (update_call ceiling (framed shape mosaic.now) green.old work.old) result (green.new, work.new) }
{
    let top = questions::CEILING;
    ask_update(top, shape, mosaic, green, work.len())?;
    update_colours(top, shape, mosaic, green, work);
    Ok(())
}
