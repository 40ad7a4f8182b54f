// Inner: the stages that a sweep of two levels has beside those of `rings`: band 1, both levels' joined parts merged, and a row settled.
#![tactic(auto)]

ghost use Rattle.std.specs.Prelude.{◌≡◌, ◌+◌, ◌*◌, ◌≤◌, length};
ghost use Rattle.planes.specs.Planes.{Sizes};
ghost use Rattle.lines.specs.Lines.{Run, Runs};
ghost use Rattle.details.specs.Details.{Triple, Crossing};
ghost use Rattle.rings.specs.Planes.{reach};
ghost use Rattle.rings.specs.Rows.{slot, row_at, five_slots};
ghost use Rattle.rings.specs.Stages.{reached, Working, row_laid, ring_row_laid, AsLong};
ghost use Rattle.second_level.specs.SecondLevel.{band_row, apart_row, together_row, rest_row, settled_row};

// A row of band 1, from the line that the first level's stage left: low along the columns, padded.
pub fn band_stage(low: &[i32], given: rings::Given, t: usize, band: &mut [i32])
    requires sizes { Sizes 1 given.width given.height × (5 * given.width ≤ length band.old) }
    requires triple { Working 1 given.height t → Triple 134217728 low.now 1 given.width }
    ensures { band.new ≡ ring_row_laid 5 1 given t band.old (band_row low.now) }
{
    if let Some(r) = rings::row_made(t, 1, given.height) {
        let n = given.width;
        merging::band_line(low, 1, n, band, r % 5 * n);
    }
}

// A row of both levels' joined parts merged, and of the rests. The two lines are scratch. Lent lists go one by one (docs/DECISIONS.md, "Lent lists").
pub fn merged_stage(
    apart2: &[i32],
    together2: &[i32],
    apart1: &[i32],
    together1: &[i32],
    given: rings::Given,
    t: usize,
    whole: &mut [i32],
    rest: &mut [i32],
    apart: &mut [i32],
    together: &mut [i32],
    rests: &mut [i32],
)
    requires sizes { Sizes 1 given.width given.height }
    requires crossing { Working 7 given.height t → Crossing 805306368 apart2.now together2.now (five_slots 9 2 given (reached 7 given.height t)) given.width × Run 1073741824 apart1.now (slot 7 given.width (reached 7 given.height t)) given.width × Run 1073741824 together1.now (slot 7 given.width (reached 7 given.height t)) given.width }
    requires width_in_bounds { (given.width + 8 ≤ length whole.old) × (given.width + 8 ≤ length rest.old) }
    requires width_in_bounds_2 { (5 * given.width ≤ length apart.old) × (5 * given.width ≤ length together.old) × (5 * given.width ≤ length rests.old) }
    ensures apart_after { apart.new ≡ ring_row_laid 5 7 given t apart.old (apart_row given apart1.now apart2.now together2.now) }
    ensures together_after { together.new ≡ ring_row_laid 5 7 given t together.old (together_row given together1.now apart2.now together2.now) }
    ensures rests_after { rests.new ≡ ring_row_laid 5 7 given t rests.old (rest_row given apart2.now together2.now) }
    ensures as_long { AsLong whole.old whole.new × AsLong rest.old rest.new }
{
    if let Some(r) = rings::row_made(t, 7, given.height) {
        let starts = rings::five_slots(given, 9, 2, r);
        let n = given.width;
        merging::cross(
            apart2,
            together2,
            starts,
            n,
            whole,
            nested_floor::whole_part,
        );
        merging::cross(apart2, together2, starts, n, rest, nested_floor::rest_part);
        let from = r % 7 * n;
        let at = r % 5 * n;
        merging::merge_along(
            whole, rest, apart1, together1, from, n, apart, together, rests, at,
        );
    }
}

// A row of the plane, from five rows of the merged parts and of the rests. The line is scratch. The ends go one by one, as in
// `nested_floor::settle`. Lent lists go one by one (docs/DECISIONS.md, "Lent lists").
pub fn settled_stage(
    own: &mut [i32],
    given: rings::Given,
    t: usize,
    apart: &[i32],
    together: &[i32],
    rests: &[i32],
    line: &mut [i32],
    least: i32,
    most: i32,
)
    requires sizes { Sizes 1 given.width given.height × (given.width + 8 ≤ length line.old) }
    requires run { Working 9 given.height t → Run reach own.old (row_at given (reached 9 given.height t)) given.width × Crossing 163577856 apart.now together.now (five_slots 5 1 given (reached 9 given.height t)) given.width × Runs 174762 rests.now (five_slots 5 1 given (reached 9 given.height t)) given.width }
    ensures own_after { own.new ≡ row_laid 9 given t own.old (row_at given (reached 9 given.height t)) (settled_row given least most own.old apart.now together.now rests.now (reached 9 given.height t)) }
    ensures as_long { AsLong line.old line.new }
{
    if let Some(r) = rings::row_made(t, 9, given.height) {
        let starts = rings::five_slots(given, 5, 1, r);
        let n = given.width;
        lines::join_low(rests, starts, n, line, 0);
        let row = given.at + r * n;
        merging::settle_line(own, row, apart, together, starts, line, n, least, most);
    }
}
