// Inner: one colour of a spot, smoothed from frame to frame.
#![tactic(auto)]

ghost use Rattle.std.specs.Prelude.{◌≡◌};
ghost use Rattle.smoothing.specs.Smoothing.{smooth};

// old + (new − old) · 0.125, each operation rounded once.
pub fn smoothed(old: f64, new: f64) -> f64
    ensures { result ≡ smooth old new }
{
    old + (new - old) * 0.125
}
