ghost use Rattle.std.specs.Prelude.{◌≡◌, ℕ, ◌+◌, ◌<◌, ◌≤◌};
ghost use Rattle.ranking.specs.Market.{market_of};
ghost use Rattle.sets.specs.Sets.{has};
ghost use Rattle.board.specs.Sides.{party_count, across};
ghost use Rattle.board.specs.RankTables.{table_of};
ghost use Rattle.record.specs.Refusals.{refused_by};
ghost use Rattle.board.specs.Meaning.{market_in};
ghost use Rattle.board.specs.Calls.{party_fault};

use crate::rank_table::RankTable;
use crate::rows::MOST_PARTIES;
use ranking::interface::Ranking;
use record::refusal::Refusal;
use record::sizes::Sizes;
use sets::Members;

// The ranks of a ranking by party numbers. Every question is put once, and only of a stream and a lane that there are.
// By their numbers, and into rows that are there: with `array::from_fn` each row is made apart and then copied.
fn ranks_of<R: Ranking>(ranking: &R, sizes: Sizes) -> [[Option<u16>; MOST_PARTIES]; MOST_PARTIES]
    requires its_sizes { (sizes.streams ≡ (R.meaning ranking.now).streams) × (sizes.lanes ≡ (R.meaning ranking.now).lanes) }
    ensures is_its_table { result ≡ table_of (market_of (R.meaning ranking.now)) }
{
    let mut table = [[None; MOST_PARTIES]; MOST_PARTIES];
    for stream in 0..sizes.streams {
        for lane in 0..sizes.lanes {
            let party = sizes.streams + lane;
            table[stream as usize][party as usize] = ranking.rank_by_stream(stream, lane);
            table[party as usize][stream as usize] = ranking.rank_by_lane(lane, stream);
        }
    }
    table
}

impl RankTable {
    /// The sizes and ranks of a ranking.
    pub(crate) fn of<R: Ranking>(ranking: &R) -> RankTable
        ensures is_its_market { market_in result ≡ market_of (R.meaning ranking.now) }
    {
        let sizes = Sizes {
            streams: ranking.streams(),
            lanes: ranking.lanes(),
        };
        let table = ranks_of(ranking, sizes);
        RankTable { sizes, table }
    }

    /// How many parties there are.
    pub(crate) fn parties(&self) -> u8
        ensures is_the_count { (result ≡ party_count (market_in self.now)) × (result ≤ 32) }
    {
        self.sizes.streams + self.sizes.lanes
    }

    /// The parties of the other side of a party's; nobody for a number that is no party's.
    pub(crate) fn other_side(&self, party: u8) -> Members
        ensures is_the_other_side { (j : ℕ) → has result.0 j ≡ across (market_in self.now) party j }
    {
        if party < self.sizes.streams {
            Members::range(self.sizes.streams, self.parties())
        } else if party < self.parties() {
            Members::range(0, self.sizes.streams)
        } else {
            Members::none()
        }
    }

    /// Refuses 6 where a party is not below s + g.
    pub(crate) fn check_party(&self, party: u8) -> Result<(), Refusal>
        ensures refused_as_told { refused_by result ≡ party_fault (market_in self.now) party }
    {
        // `if` and `else` say it in fewer words than methods of Option and Result
        if party < self.parties() {
            Ok(())
        } else {
            Err(Refusal::Party(party))
        }
    }

    /// The rank that a party gives another, by party numbers.
    #[tactic(auto, unfolding(crate::specs::RankTables::rank_in))]
    pub(crate) fn rank(&self, party: u8, other: u8) -> Option<u16>
        requires have_rows { (party < 32) × (other < 32) }
        ensures is_the_rank { result ≡ (market_in self.now).rank party other }
    {
        self.table[party as usize][other as usize]
    }
}
