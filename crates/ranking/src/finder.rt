ghost use Rattle.std.specs.Prelude.{◌≡◌, ◌&&◌, ◌↔◌, is_some, IfOk, None, Ok, MatchOption};
ghost use Rattle.record.specs.Refusals.{refused_by};
ghost use Rattle.ranking.specs.Market.{market_of, prefers};
ghost use Rattle.ranking.specs.Pairings.{pairing_fault, holding_of};
ghost use Rattle.ranking.specs.Stability.{rank_of, Stable, RankedBelow, UnblockedBelow, FirstUnranked, FirstBlocking, Found};

use crate::interface::Ranking;
use crate::pairing::CheckedPairing;
use record::refusal::Refusal;

/// What the finder answers of a pairing.
#[derive(Clone, Copy, PartialEq, Eq, Debug)]
pub enum Finding {
    /// The pairing is stable.
    Stable,
    /// The lowest stream that holds a lane where one of the two does not rank the other.
    Unranked(u8),
    /// The first stream and lane that block the pairing, by the stream and then by the lane.
    Blocked(u8, u8),
}

/// Whether the first rank is better than the second: any rank is better than none, and of two the lower.
pub fn is_better(first: Option<u16>, second: Option<u16>) -> bool
    ensures is_the_preference { result ≡ prefers first second }
{
    first.is_some_and(|rank| second.is_none_or(|other| rank < other))
}

// Whether a stream and a lane rank each other.
fn rank_each_other<R: Ranking>(ranking: &R, stream: u8, lane: u8) -> bool
    ensures each_ranks_the_other { result ≡ (is_some ((R.meaning ranking.now).by_stream stream lane) && is_some ((R.meaning ranking.now).by_lane lane stream)) }
{
    ranking.rank_by_stream(stream, lane).is_some() && ranking.rank_by_lane(lane, stream).is_some()
}

// Whether a stream ranks a lane better than `held`, the rank of the lane that it has, and the lane ranks
// the stream better than `lane_has`, the stream that it has, if any.
fn want_each_other<R: Ranking>(
    ranking: &R,
    stream: u8,
    lane: u8,
    held: Option<u16>,
    lane_has: Option<u8>,
) -> bool
    ensures each_prefers_the_other { result ≡ (prefers ((R.meaning ranking.now).by_stream stream lane) held && prefers ((R.meaning ranking.now).by_lane lane stream) (rank_of ((R.meaning ranking.now).by_lane lane) lane_has)) }
{
    is_better(ranking.rank_by_stream(stream, lane), held)
        && is_better(
            ranking.rank_by_lane(lane, stream),
            lane_has.and_then(|has| ranking.rank_by_lane(lane, has)),
        )
}

impl<R: Ranking> CheckedPairing<'_, R> {
    // The lowest stream that holds a lane where one of the two does not rank the other.
    fn first_unranked(&self) -> Option<u8>
        ensures is_the_first_unranked { let m = market_of (R.meaning self.now.ranking.now) in let h = holding_of m self.now.pairing.now in MatchOption result (RankedBelow m h m.streams) (FirstUnranked m h) }
    {
        let lanes = self.ranking.lanes();
        for (index, &lane) in self.pairing.iter().enumerate() {
            let stream = index as u8;
            if lane < lanes && !rank_each_other(self.ranking, stream, lane) {
                return Some(stream);
            }
        }
        None
    }

    // The first stream and lane that block the pairing, by the stream and then by the lane.
    // The byte 255, for nobody, has no rank, as it is past the sizes.
    fn first_blocking(&self) -> Option<(u8, u8)>
        ensures is_the_first_blocking { let m = market_of (R.meaning self.now.ranking.now) in let h = holding_of m self.now.pairing.now in MatchOption result (UnblockedBelow m h m.streams) (λ p. FirstBlocking m h p.0 p.1) }
    {
        let lanes = self.ranking.lanes();
        let mut found = None;
        // A labelled break, by choice: it leaves both loops at the first pair that blocks.
        'search: for (index, &has) in self.pairing.iter().enumerate() {
            let stream = index as u8;
            let held = self.ranking.rank_by_stream(stream, has);
            // By the number, by which the ranking is asked.
            for lane in 0..lanes {
                let lane_has = self.lane_streams[lane as usize];
                if want_each_other(self.ranking, stream, lane, held, lane_has) {
                    found = Some((stream, lane));
                    break 'search;
                }
            }
        }
        found
    }
}

/// Finds whether a pairing is stable under a ranking, and if not the first reason.
/// Refuses 8 where the list is no pairing of the ranking's streams and lanes.
pub fn find<R: Ranking>(ranking: &R, pairing: &[u8]) -> Result<Finding, Refusal>
    ensures refused_as_told { refused_by result ≡ pairing_fault (market_of (R.meaning ranking.now)) pairing.now }
    ensures found_as_told { let m = market_of (R.meaning ranking.now) in IfOk result (Found m (holding_of m pairing.now)) }
    ensures stable_exactly_when { let m = market_of (R.meaning ranking.now) in (result ≡ Ok Finding.Stable ↔ (pairing_fault m pairing.now ≡ None) × Stable m (holding_of m pairing.now)) }
{
    let paired = CheckedPairing::new(ranking, pairing)?;
    if let Some(stream) = paired.first_unranked() {
        return Ok(Finding::Unranked(stream));
    }
    // A `match` shows both answers side by side; `map_or` is no plainer.
    match paired.first_blocking() {
        Some((stream, lane)) => Ok(Finding::Blocked(stream, lane)),
        None => Ok(Finding::Stable),
    }
}
