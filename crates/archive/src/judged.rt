ghost use Rattle.std.specs.Prelude.{◌≤◌};

use ranking::finder::Finding;
use record::sizes::MOST_STREAMS;

/// What is found of a record's own pairing: the lane of each stream, 255 for nobody, and what the finder answers.
#[derive(Clone, Copy)]
pub struct Judged {
    pub(crate) streams: u8,
    // with the count beside it: nothing is allocated
    pub(crate) lanes: [u8; MOST_STREAMS],
    pub(crate) finding: Finding,
    ghost few: { streams ≤ 16 },
}
