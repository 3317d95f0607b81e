ghost use Rattle.std.specs.Prelude.{◌≡◌, ℕ, ◌+◌, ◌<◌, ◌≤◌, map, length, IfOk, slice_index_or};
ghost use Rattle.std.specs.List.{AllByRecursion};
ghost use Rattle.record.specs.Refusals.{refused_by};
ghost use Rattle.record.specs.Format.{Content, Records, Rising};
ghost use Rattle.record.specs.Faults.{middle, pair_of, record_fault};
ghost use Rattle.archive.specs.Pairs.{lane_of};
ghost use Rattle.archive.specs.Judging.{JudgedOf};

use crate::judged::Judged;
use ranking::finder::{Finding, find};
use ranking::listing::Listing;
use ranking::pairing::NOBODY;
use record::refusal::Refusal;
use record::sizes::MOST_STREAMS;
use record::word::{low_byte, middle_byte};

// The lane of each stream by a record's pair words, 255 for nobody.
fn lanes_of(pairs: &[u32]) -> [u8; MOST_STREAMS]
    requires streams_rise { Rising (map middle pairs.now) }
    requires streams_are_few { AllByRecursion (λ x. x < 16) (map middle pairs.now) }
    ensures has_every_pair { (i : ℕ) → i < 16 → slice_index_or result i 255 ≡ lane_of (map pair_of pairs.now) i }
    ensures is_whole { length result ≡ 16 }
{
    let mut lanes = [NOBODY; MOST_STREAMS];
    for &word in pairs {
        lanes[middle_byte(word) as usize] = low_byte(word);
    }
    lanes
}

/// Reads a record and finds whether its own pairing is stable under its own rankings. Refuses what reading refuses.
pub fn judge(words: &[u32]) -> Result<Judged, Refusal>
    ensures refused_as_told { refused_by result ≡ record_fault words.now }
    ensures judged_by_the_content { IfOk result (λ j. ((c : Content) × (Records words.now c × JudgedOf c j))) }
{
    let mut listing = Listing::new();
    let parts = listing.fill(words)?;
    let streams = parts.sizes.streams;
    let lanes = lanes_of(parts.pairs.words);
    let finding = find(&listing, &lanes[..streams as usize])?;
    Ok(Judged {
        streams,
        lanes,
        finding,
    })
}
