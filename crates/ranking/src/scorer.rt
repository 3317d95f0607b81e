ghost use Rattle.std.specs.Prelude.{◌≡◌, ◌<◌, ◌≤◌, map, length, IfOk};
ghost use Rattle.record.specs.Refusals.{refused_by};
ghost use Rattle.ranking.specs.Figures.{stream_figured, lane_figured, figured_at, score, score_between, small, Small, side_fault, some_figures, lists_fault, figures_fault, figures_meaning};

use crate::figures::{LaneFigures, PartyFigures, StreamFigures};
use crate::interface::Ranking;
use record::refusal::Refusal;

/// The largest figure.
pub const MOST_FIGURE: u16 = 1023;

// The figures of one side, 1 to 16 parties.
#[derive(Clone, Copy)]
struct Side {
    // beside the figures, as nothing is allocated
    count: u8,
    figures: [PartyFigures; 16],
    ghost few: { (1 ≤ count) × (count ≤ 16) },
    ghost small: { Small figures },
}

// The figures of both sides.
#[derive(Clone, Copy)]
struct Sides {
    streams: Side,
    lanes: Side,
}

/// A ranking worked out from figures, filled once.
#[derive(Clone, Copy)]
pub struct Scoring {
    sides: Option<Sides>,
}

impl PartyFigures {
    // Whether no figure is over 1,023.
    fn is_small(self) -> bool
        ensures is_the_rule { result ≡ small self }
    {
        self.own <= MOST_FIGURE && self.wish <= MOST_FIGURE && self.reach <= MOST_FIGURE
    }

    // The rank that this party gives a party of the other side, with these figures and this number.
    fn score(self, ranked: PartyFigures, number: u8) -> Option<u16>
        requires small_figures { (self.wish ≤ 1023) × (ranked.own ≤ 1023) }
        ensures is_the_score { result ≡ score self ranked number }
    {
        let distance = ranked.own.abs_diff(self.wish);
        (distance <= self.reach).then_some(16 * distance + u16::from(number))
    }
}

// Whether a list has 1 to 16 records.
fn some_figures(count: usize) -> bool
    ensures is_the_rule { result ≡ some_figures count }
{
    (1..=16).contains(&count)
}

impl Side {
    ghost use Rattle.ranking.specs.Scorings.{SideOf};

    // The figures of one side, read record by record. `first` is its first party's number.
    fn of<F: Into<PartyFigures> + Copy>(records: &[F], first: u8) -> Result<Side, Refusal>
        ghost figured: { F → PartyFigures }
        requires converted_as_told { (x : F) (y : PartyFigures) → F.converts x y → y ≡ figured x }
        requires few { (1 ≤ length records.now) × (length records.now ≤ 16) × (first ≤ 16) }
        ensures refused_as_told { refused_by result ≡ side_fault first (map figured records.now) }
        ensures figures_as_given { IfOk result (λ x. SideOf x (map figured records.now)) }
    {
        let mut figures = [PartyFigures::default(); 16];
        for (k, &record) in records.iter().enumerate() {
            let party: PartyFigures = record.into();
            if !party.is_small() {
                return Err(Refusal::Figure(first + k as u8));
            }
            figures[k] = party;
        }
        Ok(Side {
            count: records.len() as u8,
            figures,
        })
    }

    // The rank that number `of` of this side gives number `number` of the other.
    fn score(&self, of: u8, ranked: &Side, number: u8) -> Option<u16>
        ensures is_the_score { result ≡ score_between self.now.count ranked.now.count (figured_at self.now.figures) (figured_at ranked.now.figures) of number }
    {
        // no `then`: the figures are read only where there are both parties
        if of < self.count && number < ranked.count {
            self.figures[of as usize].score(ranked.figures[number as usize], number)
        } else {
            None
        }
    }
}

impl Sides {
    ghost use Rattle.ranking.specs.Scorings.{SideOf};

    // The figures of both sides, of 1 to 16 records each.
    fn of(streams: &[StreamFigures], lanes: &[LaneFigures]) -> Result<Sides, Refusal>
        ensures refused_as_told { refused_by result ≡ lists_fault (map stream_figured streams.now) (map lane_figured lanes.now) }
        ensures figures_as_given { IfOk result (λ x. SideOf x.streams (map stream_figured streams.now) × SideOf x.lanes (map lane_figured lanes.now)) }
    {
        if !some_figures(streams.len()) || !some_figures(lanes.len()) {
            return Err(Refusal::Figure(255));
        }
        let stream_side = Side::of(streams, 0)?;
        let lane_side = Side::of(lanes, streams.len() as u8)?;
        Ok(Sides {
            streams: stream_side,
            lanes: lane_side,
        })
    }
}

impl Scoring {
    ghost use Rattle.std.specs.Prelude.{true, false, is_some, OnErr, OnOk};
    ghost use Rattle.ranking.specs.Listings.{unlisted};
    ghost use Rattle.ranking.specs.Scorings.{scored};

    /// A scoring of one stream and one lane where nobody ranks anybody.
    pub fn new() -> Scoring
        ensures ranks_nobody { scored result ≡ unlisted }
        ensures not_filled { is_some result.sides ≡ false }
    {
        Scoring { sides: None }
    }

    /// Fills a new scoring from the figures of the streams and of the lanes. Refuses 5 for the lists' lengths, then for the
    /// lowest party with a figure over 1,023, streams first, and then 11 where it was filled before.
    pub fn fill(&mut self, streams: &[StreamFigures], lanes: &[LaneFigures]) -> Result<(), Refusal>
        ensures refused_as_told { refused_by result ≡ figures_fault (map stream_figured streams.now) (map lane_figured lanes.now) (is_some self.old.sides) }
        ensures ranks_by_the_figures { OnOk result (scored self.new ≡ figures_meaning (map stream_figured streams.now) (map lane_figured lanes.now)) }
        ensures filled_once { OnOk result (is_some self.new.sides ≡ true) }
        ensures refused_changes_nothing { OnErr result (self.new ≡ self.old) }
    {
        let sides = Sides::of(streams, lanes)?;
        if self.sides.is_some() {
            return Err(Refusal::Filled);
        }
        self.sides = Some(sides);
        Ok(())
    }
}

impl Ranking for Scoring {
    ghost use Rattle.std.proofs.Common.{rules};
    ghost use Rattle.ranking.specs.Scorings.{scored};

    ghost meaning = { scored };

    ghost sized = { Prim.search rules };

    ghost bounded = { Prim.search rules };

    ghost strict = { Prim.search rules };

    fn streams(&self) -> u8 {
        self.sides.as_ref().map_or(1, |sides| sides.streams.count)
    }

    fn lanes(&self) -> u8 {
        self.sides.as_ref().map_or(1, |sides| sides.lanes.count)
    }

    fn rank_by_stream(&self, stream: u8, lane: u8) -> Option<u16> {
        let sides = self.sides.as_ref()?;
        sides.streams.score(stream, &sides.lanes, lane)
    }

    fn rank_by_lane(&self, lane: u8, stream: u8) -> Option<u16> {
        let sides = self.sides.as_ref()?;
        sides.lanes.score(lane, &sides.streams, stream)
    }
}
