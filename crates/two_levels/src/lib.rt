// Inner: the rounds of a colour at two levels of the bank, with rings that are declared once for all of them.
#![tactic(auto)]

ghost use Rattle.std.specs.Prelude.{◌≡◌, true, ◌+◌, ◌*◌, ◌≤◌, length};
ghost use Rattle.filters.specs.Bank.{Distance};
ghost use Rattle.rings.specs.Planes.{Projectable};
ghost use Rattle.two_level_rows.specs.TwoLevels.{with_projected};

use rings::{FIVE_ROWS, LINE, NINE_ROWS, SEVEN_ROWS, THREE_ROWS};
use working_plane::{Colour, Depth};

// What a sweep of two levels keeps from step to step: the rows that are needed again, and scratch. The lines stand in the order of those of one level
// (`sweep`), and for the same reason.
#[derive(Drop)]
struct Rings {
    differences: [i32; THREE_ROWS],
    // band 1 of the differences
    band: [i32; FIVE_ROWS],
    // the joined parts of the first level, of the second, and of both merged, with the rests
    apart1: [i32; SEVEN_ROWS],
    together1: [i32; SEVEN_ROWS],
    apart2: [i32; NINE_ROWS],
    together2: [i32; NINE_ROWS],
    apart: [i32; FIVE_ROWS],
    together: [i32; FIVE_ROWS],
    rests: [i32; FIVE_ROWS],
    // what of the details lies outside the limit: of bands 3 and 4 the sum and the difference, and of band 2
    plus: [i32; LINE],
    minus: [i32; LINE],
    parts: [i32; LINE],
    // high and low along the columns
    high: [i32; LINE],
    low: [i32; LINE],
    // room for the widest frame, which a projection asks
    ghost differences_room: { 3 * 2048 ≤ length differences },
    ghost band_room: { 5 * 2048 ≤ length band },
    ghost levels_room: { (7 * 2048 ≤ length apart1) × (7 * 2048 ≤ length together1) × (9 * 2048 ≤ length apart2) × (9 * 2048 ≤ length together2) },
    ghost merged_room: { (5 * 2048 ≤ length apart) × (5 * 2048 ≤ length together) × (5 * 2048 ≤ length rests) },
    ghost outside_room: { (2048 + 8 ≤ length plus) × (2048 + 8 ≤ length minus) × (2048 + 8 ≤ length parts) },
    ghost lines_room: { (2048 + 8 ≤ length high) × (2048 + 8 ≤ length low) },
}

// The projection at two levels, with what it keeps.
fn project(
    own: &mut [i32],
    guide: &[u16],
    given: rings::Given,
    second_limit: i32,
    least: i32,
    most: i32,
    kept: &mut Rings,
)
    requires { Projectable given own.old guide.now × Distance second_limit }
    ensures { own.new ≡ with_projected given second_limit least most own.old guide.now }
{
    two_level_rows::project_rows(
        own,
        guide,
        given,
        second_limit,
        least,
        most,
        &mut kept.differences,
        &mut kept.band,
        &mut kept.apart1,
        &mut kept.together1,
        &mut kept.apart2,
        &mut kept.together2,
        &mut kept.apart,
        &mut kept.together,
        &mut kept.rests,
        &mut kept.low,
        &mut kept.high,
        &mut kept.parts,
        &mut kept.minus,
        &mut kept.plus,
    );
}

// Two levels of the bank.
pub struct Two;

impl Depth for Two {
    ghost two = { true };

    fn run(colour: Colour, top: u16, rounds: u8, mosaic: &[u16], green: &[u16], work: &mut [i32]) {
        let given = working_plane::given_of(colour);
        let second_limit = 256 * i32::from(colour.threshold);
        let least = working_plane::least_kept(top);
        let most = working_plane::most_kept(top);
        let mut kept = Rings {
            differences: [0; THREE_ROWS],
            band: [0; FIVE_ROWS],
            apart1: [0; SEVEN_ROWS],
            together1: [0; SEVEN_ROWS],
            apart2: [0; NINE_ROWS],
            together2: [0; NINE_ROWS],
            apart: [0; FIVE_ROWS],
            together: [0; FIVE_ROWS],
            rests: [0; FIVE_ROWS],
            plus: [0; LINE],
            minus: [0; LINE],
            parts: [0; LINE],
            high: [0; LINE],
            low: [0; LINE],
        };
        for n in 0..rounds {
            project(work, green, given, second_limit, least, most, &mut kept);
            working_plane::put_observed(colour, mosaic, work);
        }
    }
}
