ghost use Rattle.std.specs.Prelude.{◌≤◌};

/// The most streams.
pub const MOST_STREAMS: usize = 16;

/// How many streams and lanes there are, 1 to 16 of each.
#[derive(Clone, Copy, PartialEq, Eq)]
pub struct Sizes {
    pub streams: u8,
    pub lanes: u8,
    ghost lawful: { (1 ≤ streams) × (streams ≤ 16) × (1 ≤ lanes) × (lanes ≤ 16) },
}
