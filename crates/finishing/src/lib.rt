// Document 01's finishing call, without its tally and with it.
#![tactic(auto)]

ghost use Rattle.std.specs.Prelude.{◌≡◌};
ghost use Rattle.questions.specs.Settings.{framed};
ghost use Rattle.questions.specs.Questions.{ask};
ghost use Rattle.questions.specs.Lent.{lent, rooms_of};
ghost use Rattle.questions.specs.Calls.{Outcome};
ghost use Rattle.finishing.specs.Calls.{finish_questions, with_finished, finish_call, finish_given, FinishResult};

use questions::{Lengths, Refusal, Settings, Shape};
use tally::Tally;

// Estimate, update, rounds, by their calls, which then accept.
// Lent lists go one by one (docs/DECISIONS.md, "Lent lists").
fn fill_planes(
    shape: Shape,
    settings: Settings,
    mosaic: &[u16],
    red: &mut [u16],
    green: &mut [u16],
    blue: &mut [u16],
    work: &mut [i32],
    wide_work: &mut [i64],
)
    requires { 0 ≡ ask (finish_questions (framed shape mosaic.now) settings (rooms_of (lent red.old green.old blue.old work.old wide_work.old))) }
    ensures { lent red.new green.new blue.new work.new wide_work.new ≡ with_finished (framed shape mosaic.now) settings (lent red.old green.old blue.old work.old wide_work.old) }
{
    estimate::estimate(shape, mosaic, red, green, blue).unwrap();
    update::update(shape, mosaic, green, work).unwrap();
    rounds::rounds(shape, settings, mosaic, red, green, blue, work, wide_work).unwrap();
}

// The finishing call without its tally: questions 1 to 9, with 18 after 8; estimate, update and rounds into three lent planes. The work buffer's
// first 8·w·h are zero then, and at two levels those of the wide work buffer, which one level does not touch.
// Lent lists go one by one (docs/DECISIONS.md, "Lent lists").
pub fn finish_frame(
    shape: Shape,
    settings: Settings,
    mosaic: &[u16],
    red: &mut [u16],
    green: &mut [u16],
    blue: &mut [u16],
    work: &mut [i32],
    wide_work: &mut [i64],
) -> Result<(), Refusal>
    ensures { Outcome (finish_call (framed shape mosaic.now) settings (lent red.old green.old blue.old work.old wide_work.old)) result (lent red.new green.new blue.new work.new wide_work.new) }
{
    let room = Lengths {
        red: red.len(),
        green: green.len(),
        blue: blue.len(),
        work: work.len(),
        wide: wide_work.len(),
    };
    questions::ask_lent(shape, settings, mosaic, room)?;
    fill_planes(shape, settings, mosaic, red, green, blue, work, wide_work);
    Ok(())
}

// The finishing call: the same, and the next tally, which counts a refused frame too.
// Lent lists go one by one (docs/DECISIONS.md, "Lent lists").
pub fn finish(
    shape: Shape,
    settings: Settings,
    mosaic: &[u16],
    red: &mut [u16],
    green: &mut [u16],
    blue: &mut [u16],
    work: &mut [i32],
    wide_work: &mut [i64],
    tally: Tally,
) -> (Result<(), Refusal>, Tally)
    ensures { FinishResult (finish_given (framed shape mosaic.now) settings (lent red.old green.old blue.old work.old wide_work.old) tally) result (lent red.new green.new blue.new work.new wide_work.new) }
{
    let answer = finish_frame(shape, settings, mosaic, red, green, blue, work, wide_work);
    let rounds = u32::from(settings.rounds_to_run());
    let next = tally.next(questions::number(answer), rounds);
    (answer, next)
}
