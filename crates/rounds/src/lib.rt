// Document 01's rounds, at one level of the bank or, as document 02 has them, at two.
#![tactic(auto)]

ghost use Rattle.std.specs.Prelude.{◌≡◌, true, ◌*◌, ◌≤◌, length};
ghost use Rattle.planes.specs.Layout.{two_levels};
ghost use Rattle.planes.specs.Planes.{planes};
ghost use Rattle.questions.specs.Settings.{framed, ceiling_of, rounds_of};
ghost use Rattle.questions.specs.Questions.{ask};
ghost use Rattle.questions.specs.Refusals.{number_of};
ghost use Rattle.questions.specs.Lent.{lent, wide_enough};
ghost use Rattle.questions.specs.Calls.{Outcome};
ghost use Rattle.work_buffer.specs.Buffer.{zeroed, wide_zeroed, Workable};
ghost use Rattle.working_plane.specs.Colours.{rewritten_list};
ghost use Rattle.rounds.specs.Calls.{planes_questions, rounds_questions, rounds_call};
ghost use Rattle.rounds.specs.Colours.{red_of, blue_of};

use one_level::One;
use questions::{Lengths, Refusal, Settings, Shape};
use two_levels::Two;
use working_plane::Colour;

// Question 10 of the three planes, where `top` is the ceiling.
fn ask_planes(top: u16, red: &[u16], green: &[u16], blue: &[u16]) -> Result<(), Refusal>
    ensures { number_of result ≡ ask (planes_questions top (planes red.now green.now blue.now)) }
{
    if !questions::samples_within(top, red) {
        return Err(Refusal::PlaneSample);
    }
    if !questions::samples_within(top, green) {
        return Err(Refusal::PlaneSample);
    }
    if !questions::samples_within(top, blue) {
        return Err(Refusal::PlaneSample);
    }
    Ok(())
}

// Questions 1 to 10, and 18 after 8.
// Lent lists go one by one (docs/DECISIONS.md, "Lent lists").
fn ask_rounds(
    shape: Shape,
    settings: Settings,
    mosaic: &[u16],
    red: &[u16],
    green: &[u16],
    blue: &[u16],
    work: &[i32],
    wide_work: &[i64],
) -> Result<(), Refusal>
    ensures { number_of result ≡ ask (rounds_questions (framed shape mosaic.now) settings (lent red.now green.now blue.now work.now wide_work.now)) }
{
    let room = Lengths {
        red: red.len(),
        green: green.len(),
        blue: blue.len(),
        work: work.len(),
        wide: wide_work.len(),
    };
    questions::ask_lent(shape, settings, mosaic, room)?;
    ask_planes(settings.ceiling(), red, green, blue)
}

// Red and blue through the rounds, at the frame's level. The work buffer's first 8 · width · height numbers are scratch.
fn rewrite_colours(
    shape: Shape,
    settings: Settings,
    mosaic: &[u16],
    red: &mut [u16],
    green: &[u16],
    blue: &mut [u16],
    work: &mut [i32],
)
    requires workable { Workable shape.width shape.height mosaic.now green.now (length work.old) }
    requires red_len { (length red.old ≡ shape.width * shape.height) × (length blue.old ≡ shape.width * shape.height) }
    ensures red_after { red.new ≡ rewritten_list (two_levels shape.layout) (red_of shape.width shape.height shape.layout settings) (ceiling_of settings) (rounds_of settings) mosaic.now green.now red.old }
    ensures blue_after { blue.new ≡ rewritten_list (two_levels shape.layout) (blue_of shape.width shape.height shape.layout settings) (ceiling_of settings) (rounds_of settings) mosaic.now green.now blue.old }
    ensures work_unchanged { zeroed shape.width shape.height work.new ≡ zeroed shape.width shape.height work.old }
{
    let top = settings.ceiling();
    let rounds = settings.rounds_to_run();
    let reds = Colour {
        width: shape.width,
        height: shape.height,
        row: usize::from(shape.red_row()),
        column: usize::from(shape.red_column()),
        threshold: settings.threshold,
    };
    // from here on the depth is a type
    if shape.two_levels() {
        working_plane::rewrite_both::<Two>(reds, top, rounds, mosaic, red, green, blue, work);
    } else {
        working_plane::rewrite_both::<One>(reds, top, rounds, mosaic, red, green, blue, work);
    }
}

// The first 8 · width · height numbers of the work buffer to 0, and at two levels those of the wide one.
fn clear(shape: Shape, work: &mut [i32], wide_work: &mut [i64])
    requires { (shape.width * shape.height ≤ 4194304) × (8 * (shape.width * shape.height) ≤ length work.old) × (wide_enough (two_levels shape.layout) (shape.width * shape.height) (length wide_work.old) ≡ true) }
    ensures { (work.new ≡ zeroed shape.width shape.height work.old) × (wide_work.new ≡ wide_zeroed (two_levels shape.layout) shape.width shape.height wide_work.old) }
{
    let needed = 8 * (shape.width * shape.height);
    work[..needed].fill(0);
    if shape.two_levels() {
        wide_work[..needed].fill(0);
    }
}

// Runs the rounds on three given planes: red and blue are rewritten in place. The work buffer's first 8 · width · height numbers are zero
// then, and at two levels those of the wide work buffer, which one level does not touch.
// Lent lists go one by one (docs/DECISIONS.md, "Lent lists").
pub fn rounds(
    shape: Shape,
    settings: Settings,
    mosaic: &[u16],
    red: &mut [u16],
    green: &[u16],
    blue: &mut [u16],
    work: &mut [i32],
    wide_work: &mut [i64],
) -> Result<(), Refusal>
    ensures { Outcome (rounds_call (framed shape mosaic.now) settings (lent red.old green.now blue.old work.old wide_work.old)) result (lent red.new green.now blue.new work.new wide_work.new) }
{
    ask_rounds(shape, settings, mosaic, red, green, blue, work, wide_work)?;
    rewrite_colours(shape, settings, mosaic, red, green, blue, work);
    clear(shape, work, wide_work);
    Ok(())
}
