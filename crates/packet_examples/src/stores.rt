// The stores that the examples start from.
ghost use Rattle.std.specs.Prelude.{◌<◌};

// The packet of a frame 2 wide and 2 high, layout 0, 8 rounds, threshold 0.
pub(crate) const TWO_BY_TWO: [u8; 20] = [
    100, 0, 50, 0, 50, 0, 20, 0, 2, 0, 2, 0, 0, 8, 0, 0, 20, 0, 0, 0,
];

// The same packet with one byte replaced.
pub(crate) fn with(place: usize, value: u8) -> [u8; 20]
    requires { place < 20 }
{
    let mut store = TWO_BY_TWO;
    store[place] = value;
    store
}

// The same packet behind three bytes that are not its own.
pub(crate) const BEHIND_THREE: [u8; 23] = [
    255, 255, 255, 100, 0, 50, 0, 50, 0, 20, 0, 2, 0, 2, 0, 0, 8, 0, 0, 20, 0, 0, 0,
];

// The packet of a frame 3 wide and 2 high, layout 1, 64 rounds, threshold 4095.
pub(crate) const THREE_BY_TWO: [u8; 24] = [
    0, 0, 1, 0, 255, 0, 0, 1, 254, 15, 255, 15, 3, 0, 2, 0, 1, 64, 255, 15, 24, 0, 0, 0,
];
