ghost use Rattle.std.specs.Prelude.{◌≡◌, ℕ, ◌<◌, ◌≤◌, ◌&&◌, length, take, nat_lt, slice_index};
ghost use Rattle.ranking.specs.Places.{DistinctPlaces, SmallPlaces, Enterable, Entered};

use crate::interface::Ranking;
use record::parts::Parts;
use record::read::read;
use record::refusal::Refusal;
use record::sizes::Sizes;
use record::word::{high_byte, low_byte, middle_byte};

// A row for each party, streams first and then lanes, and in it the place that the party gives each of the other side.
type Places = [[Option<u8>; 16]; 32];

// What a record's choices say: the sizes, and the place that each party gives each of the other side.
#[derive(Clone, Copy)]
struct PlaceTable {
    sizes: Sizes,
    places: Places,
    ghost strict: { DistinctPlaces places },
    ghost small: { SmallPlaces places },
}

/// A ranking filled once from a record, whose ranks are the record's places.
#[derive(Clone, Copy)]
pub struct Listing {
    table: Option<PlaceTable>,
}

// The table of the places that a record's choices give.
fn places_of(choices: &[u32]) -> Places
    requires choices_of_a_record { (k : ℕ) → k < length choices.now → Enterable (take k choices.now) (slice_index choices.now k) }
    ensures has_every_place { Entered result choices.now }
    ensures has_small_places { SmallPlaces result }
{
    let mut places = [[None; 16]; 32];
    for &word in choices {
        let owner = high_byte(word) as usize;
        let ranked = low_byte(word) as usize;
        places[owner][ranked] = Some(middle_byte(word));
    }
    places
}

impl PlaceTable {
    // Whether there are such a stream and such a lane. Both questions for a rank test this and then read a row of their own:
    // one function for both would take the row beside the stream and the lane, and be no plainer.
    fn has(&self, stream: u8, lane: u8) -> bool
        ensures are_within_the_sizes { result ≡ (nat_lt stream self.now.sizes.streams && nat_lt lane self.now.sizes.lanes) }
    {
        stream < self.sizes.streams && lane < self.sizes.lanes
    }
}

impl Listing {
    ghost use Rattle.std.specs.Prelude.{true, false, List, is_some, IfOk, OnErr, OnOk};
    ghost use Rattle.record.specs.Refusals.{refused_by};
    ghost use Rattle.record.specs.Format.{Content};
    ghost use Rattle.record.specs.Reading.{ReadAs};
    ghost use Rattle.ranking.specs.Listings.{listed, unlisted, content_meaning, fill_fault};

    /// A listing of one stream and one lane where nobody ranks anybody.
    pub fn new() -> Listing
        ensures ranks_nobody { listed result ≡ unlisted }
        ensures not_filled { is_some result.table ≡ false }
    {
        Listing { table: None }
    }

    /// Fills a new listing from the words of a record, and answers the record's parts.
    /// Refuses what reading refuses, then 11 where it was filled before.
    pub fn fill<'a>(&mut self, words: &'a [u32]) -> Result<Parts<'a>, Refusal>
        ensures refused_as_told { refused_by result ≡ fill_fault words.now (is_some self.old.table) }
        ensures ranks_by_the_content { IfOk result (λ p. ((c : Content) × (ReadAs words.now p c × (listed self.new ≡ content_meaning c)))) }
        ensures filled_once { OnOk result (is_some self.new.table ≡ true) }
        ensures refused_changes_nothing { OnErr result (self.new ≡ self.old) }
    {
        let parts = read(words)?;
        if self.table.is_some() {
            return Err(Refusal::Filled);
        }
        let sizes = parts.sizes;
        let places = places_of(parts.choices.words);
        self.table = Some(PlaceTable { sizes, places });
        Ok(parts)
    }
}

impl Ranking for Listing {
    ghost use Rattle.std.proofs.Common.{rules};
    ghost use Rattle.ranking.specs.Listings.{listed};
    ghost use Rattle.ranking.specs.TableLaws.{filled_strict, filled_bounded};

    ghost meaning = { listed };

    ghost sized = { Prim.search rules };

    ghost bounded = { λ x. filled_bounded x.table };

    ghost strict = { λ x. filled_strict x.table };

    fn streams(&self) -> u8 {
        self.table.as_ref().map_or(1, |table| table.sizes.streams)
    }

    fn lanes(&self) -> u8 {
        self.table.as_ref().map_or(1, |table| table.sizes.lanes)
    }

    fn rank_by_stream(&self, stream: u8, lane: u8) -> Option<u16> {
        let table = self.table.as_ref()?;
        // no `then`, here and below: the place in the table is read only where there are such a stream and lane
        if table.has(stream, lane) {
            table.places[stream as usize][lane as usize].map(u16::from)
        } else {
            None
        }
    }

    fn rank_by_lane(&self, lane: u8, stream: u8) -> Option<u16> {
        let table = self.table.as_ref()?;
        if table.has(stream, lane) {
            table.places[(table.sizes.streams + lane) as usize][stream as usize].map(u16::from)
        } else {
            None
        }
    }
}
