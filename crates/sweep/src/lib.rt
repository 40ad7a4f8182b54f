// Inner: the projection of a plane on the details of a guide, in one sweep over the rows. Each of three stages lags behind the one before it, so
// that every row that it needs is still in a ring; the plane is read and written once.
#![tactic(auto)]

ghost use Rattle.std.specs.Prelude.{◌≡◌, ◌+◌, ◌*◌, ◌≤◌, length};
ghost use Rattle.planes.specs.Planes.{Sizes};
ghost use Rattle.lines.specs.Lines.{Run};
ghost use Rattle.details.specs.Details.{Crossing};
ghost use Rattle.rings.specs.Planes.{reach, Projectable};
ghost use Rattle.rings.specs.Rows.{row_at, five_slots};
ghost use Rattle.rings.specs.Stages.{reached, Working, row_laid};
ghost use Rattle.sweep.specs.Sweep.{settled_row, with_projected};

use rings::{FIVE_ROWS, LINE, THREE_ROWS};

// What a sweep keeps from step to step: the rows that are needed again, and scratch. Of the lines and the joined parts, what is written stands before
// what it is made from: then the compiler sees that no store reaches what a later turn of the same loop loads.
#[derive(Drop)]
struct Rings {
    differences: [i32; THREE_ROWS],
    // the joined parts: the difference and the sum of what the two kinds of lines give
    apart: [i32; FIVE_ROWS],
    together: [i32; FIVE_ROWS],
    // what of the details lies outside the limit: of bands 3 and 4 the sum and the difference, and of band 2
    plus: [i32; LINE],
    minus: [i32; LINE],
    parts: [i32; LINE],
    // high and low along the columns
    high: [i32; LINE],
    low: [i32; LINE],
    // room for the widest frame, for the proof of the sweep, which meets them after many calls
    ghost differences_room: { 3 * 2048 ≤ length differences },
    ghost joined_room: { (5 * 2048 ≤ length apart) × (5 * 2048 ≤ length together) },
    ghost outside_room: { (2048 + 8 ≤ length plus) × (2048 + 8 ≤ length minus) × (2048 + 8 ≤ length parts) },
    ghost lines_room: { (2048 + 8 ≤ length high) × (2048 + 8 ≤ length low) },
}

// The last stage: a row of the plane, from five rows of the joined parts.
fn settled_stage(
    own: &mut [i32],
    given: rings::Given,
    t: usize,
    apart: &[i32],
    together: &[i32],
    range: filters::Range,
)
    requires sizes { Sizes 1 given.width given.height }
    requires run { Working 3 given.height t → Run reach own.old (row_at given (reached 3 given.height t)) given.width × Crossing 134217728 apart.now together.now (five_slots 5 1 given (reached 3 given.height t)) given.width }
    ensures { own.new ≡ row_laid 3 given t own.old (row_at given (reached 3 given.height t)) (settled_row given range.least range.most own.old apart.now together.now (reached 3 given.height t)) }
{
    if let Some(r) = rings::row_made(t, 3, given.height) {
        let starts = rings::five_slots(given, 5, 1, r);
        let n = given.width;
        let row = given.at + r * n;
        details::settle_line(own, row, apart, together, starts, n, range);
    }
}

// The sweep.
fn project_rows(
    own: &mut [i32],
    guide: &[u16],
    given: rings::Given,
    range: filters::Range,
    kept: &mut Rings,
)
    requires { Projectable given own.old guide.now }
    ensures { own.new ≡ with_projected given range.least range.most own.old guide.now }
{
    let level = rings::Level {
        spacing: 1,
        limit: given.limit,
        source: 3,
        slots: 5,
        lag: 1,
    };
    let steps = given.height + 3;
    for t in 0..steps {
        rings::difference_stage(own, guide, given, t, &mut kept.differences);
        rings::parts_stage(
            &kept.differences,
            given,
            level,
            t,
            &mut kept.low,
            &mut kept.high,
            &mut kept.parts,
            &mut kept.minus,
            &mut kept.plus,
            &mut kept.apart,
            &mut kept.together,
        );
        settled_stage(own, given, t, &kept.apart, &kept.together, range);
    }
}

// The plane's details held within the guide's ± limit, and the plane brought back to range.least..range.most.
pub fn project(own: &mut [i32], guide: &[u16], given: rings::Given, range: filters::Range)
    requires { Projectable given own.old guide.now }
    ensures { own.new ≡ with_projected given range.least range.most own.old guide.now }
{
    let mut kept = Rings {
        differences: [0; THREE_ROWS],
        apart: [0; FIVE_ROWS],
        together: [0; FIVE_ROWS],
        plus: [0; LINE],
        minus: [0; LINE],
        parts: [0; LINE],
        high: [0; LINE],
        low: [0; LINE],
    };
    project_rows(own, guide, given, range, &mut kept);
}
