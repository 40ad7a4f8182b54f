// Inner: the projection of a plane on the details of a guide at two levels, in one sweep over the rows. Each of six stages lags behind those that it
// needs, so that every row is still in a ring; the plane is read and written once. No sum needs more than 32 bits.
#![tactic(auto)]

ghost use Rattle.std.specs.Prelude.{◌≡◌, ◌+◌, ◌*◌, ◌≤◌, length};
ghost use Rattle.filters.specs.Bank.{Distance};
ghost use Rattle.rings.specs.Planes.{Projectable};
ghost use Rattle.rings.specs.Stages.{AsLong};
ghost use Rattle.two_level_rows.specs.TwoLevels.{with_projected};

// The plane's details at the first level held within the guide's ± given.limit, band 1's within ± second_limit, and the plane brought back to
// least..most. The ends go one by one, as in `nested_floor::settle`. The rings and lines are scratch. Lent lists
// go one by one (docs/DECISIONS.md, "Lent lists").
pub fn project_rows(
    own: &mut [i32],
    guide: &[u16],
    given: rings::Given,
    second_limit: i32,
    least: i32,
    most: i32,
    differences: &mut [i32],
    band: &mut [i32],
    apart1: &mut [i32],
    together1: &mut [i32],
    apart2: &mut [i32],
    together2: &mut [i32],
    apart: &mut [i32],
    together: &mut [i32],
    rests: &mut [i32],
    low: &mut [i32],
    high: &mut [i32],
    parts: &mut [i32],
    minus: &mut [i32],
    plus: &mut [i32],
)
    requires projectable { Projectable given own.old guide.now × Distance second_limit }
    requires width_in_bounds { (3 * given.width ≤ length differences.old) × (5 * given.width ≤ length band.old) × (7 * given.width ≤ length apart1.old) × (7 * given.width ≤ length together1.old) × (9 * given.width ≤ length apart2.old) × (9 * given.width ≤ length together2.old) }
    requires width_in_bounds_2 { (5 * given.width ≤ length apart.old) × (5 * given.width ≤ length together.old) × (5 * given.width ≤ length rests.old) }
    requires width_in_bounds_3 { (given.width + 8 ≤ length low.old) × (given.width + 8 ≤ length high.old) × (given.width + 8 ≤ length parts.old) × (given.width + 8 ≤ length minus.old) × (given.width + 8 ≤ length plus.old) }
    ensures own_after { own.new ≡ with_projected given second_limit least most own.old guide.now }
    ensures as_long { AsLong differences.old differences.new × AsLong band.old band.new × AsLong apart1.old apart1.new × AsLong together1.old together1.new × AsLong apart2.old apart2.new × AsLong together2.old together2.new × AsLong apart.old apart.new × AsLong together.old together.new × AsLong rests.old rests.new }
    ensures as_long_2 { AsLong low.old low.new × AsLong high.old high.new × AsLong parts.old parts.new × AsLong minus.old minus.new × AsLong plus.old plus.new }
{
    let first = rings::Level {
        spacing: 1,
        limit: given.limit,
        source: 3,
        slots: 7,
        lag: 1,
    };
    let second = rings::Level {
        spacing: 2,
        limit: second_limit,
        source: 5,
        slots: 9,
        lag: 3,
    };
    let steps = given.height + 9;
    for t in 0..steps {
        rings::difference_stage(own, guide, given, t, differences);
        rings::parts_stage(
            differences,
            given,
            first,
            t,
            low,
            high,
            parts,
            minus,
            plus,
            apart1,
            together1,
        );
        second_level::band_stage(low, given, t, band);
        rings::parts_stage(
            band, given, second, t, low, high, parts, minus, plus, apart2, together2,
        );
        second_level::merged_stage(
            apart2, together2, apart1, together1, given, t, low, high, apart, together, rests,
        );
        second_level::settled_stage(own, given, t, apart, together, rests, low, least, most);
    }
}
