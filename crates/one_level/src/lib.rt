// Inner: the rounds of red and of blue at one level of the bank.
#![tactic(auto)]

ghost use Rattle.std.specs.Prelude.{false};

use working_plane::{Colour, Depth};

// One level of the bank.
pub struct One;

impl Depth for One {
    ghost two = { false };

    fn run(colour: Colour, top: u16, rounds: u8, mosaic: &[u16], green: &[u16], work: &mut [i32]) {
        let given = working_plane::given_of(colour);
        let least = working_plane::least_kept(top);
        let most = working_plane::most_kept(top);
        for n in 0..rounds {
            sweep::project(work, green, given, filters::Range { least, most });
            working_plane::put_observed(colour, mosaic, work);
        }
    }
}
