ghost use Rattle.std.specs.Prelude.{◌≡◌};
ghost use Rattle.ranking.specs.Market.{Meaning, Sized, BoundedRanks, StrictRanks, market_of};

/// The ranks of 1 to 16 streams and 1 to 16 lanes: each side ranks the other, and a lower rank is better.
pub trait Ranking {
    /// What the ranking means: its sizes and its two tables of ranks.
    ghost meaning: { Self → Meaning };

    /// The number of streams.
    fn streams(&self) -> u8
        ensures is_the_stream_count { result ≡ (meaning self.now).streams };

    /// The number of lanes.
    fn lanes(&self) -> u8
        ensures is_the_lane_count { result ≡ (meaning self.now).lanes };

    /// The rank that a stream gives a lane, or none.
    fn rank_by_stream(&self, stream: u8, lane: u8) -> Option<u16>
        ensures is_the_streams_rank { result ≡ (meaning self.now).by_stream stream lane };

    /// The rank that a lane gives a stream, or none.
    fn rank_by_lane(&self, lane: u8, stream: u8) -> Option<u16>
        ensures is_the_lanes_rank { result ≡ (meaning self.now).by_lane lane stream };

    // There are 1 to 16 streams and 1 to 16 lanes.
    ghost sized: { (x : Self) → Sized (meaning x) };

    // A rank is given only to a lane or a stream that there is, and is at most 65,535.
    ghost bounded: { (x : Self) → BoundedRanks (meaning x) };

    // Nobody gives two others the same rank.
    ghost strict: { (x : Self) → StrictRanks (meaning x) };
}

/// The rank that a party gives another, by party numbers: stream i is party i, and lane j is party s + j.
pub fn rank_between<R: Ranking>(ranking: &R, party: u8, other: u8) -> Option<u16>
    ensures is_the_rank { result ≡ (market_of (R.meaning ranking.now)).rank party other }
{
    let streams = ranking.streams();
    match (party.checked_sub(streams), other.checked_sub(streams)) {
        (None, Some(lane)) => ranking.rank_by_stream(party, lane),
        (Some(lane), None) => ranking.rank_by_lane(lane, other),
        _ => None,
    }
}
