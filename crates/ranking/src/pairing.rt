ghost use Rattle.std.specs.Prelude.{◌≡◌, None, IfOk};
ghost use Rattle.std.proofs.Props.{props};
ghost use Rattle.record.specs.Refusals.{refused_by};
ghost use Rattle.ranking.specs.Market.{market_of};
ghost use Rattle.ranking.specs.Pairings.{pairing_fault, TableOf};

use crate::interface::Ranking;
use record::refusal::Refusal;

/// The byte that stands for nobody in a pairing, whose form the project gives.
pub const NOBODY: u8 = 255;

/// The place of a refusal of the list's length, by the project's table of refusals.
const WHOLE_LIST: u8 = 255;

/// The most lanes.
pub const MOST_LANES: usize = 16;

// A ranking with a pairing of its streams and lanes that is not refused, and the stream of each lane.
pub(crate) struct CheckedPairing<'a, R: Ranking> {
    pub(crate) ranking: &'a R,
    pub(crate) pairing: &'a [u8],
    pub(crate) lane_streams: [Option<u8>; MOST_LANES],
    ghost not_refused: { pairing_fault (market_of (R.meaning ranking.now)) pairing.now ≡ None } by { Prim.hlevel props },
    ghost names_each_lanes_stream: { TableOf pairing.now lane_streams },
}

// By hand: a derive would ask that the ranking, which is only lent, may be dropped.
impl<R: Ranking> Drop for CheckedPairing<'_, R> {
    fn drop(self) {
        let CheckedPairing {
            ranking: _,
            pairing: _,
            lane_streams: _,
        } = self;
    }
}

impl<'a, R: Ranking> CheckedPairing<'a, R> {
    // Refuses 8 where the list is no pairing of the ranking's streams and lanes.
    pub(crate) fn new(ranking: &'a R, pairing: &'a [u8]) -> Result<CheckedPairing<'a, R>, Refusal>
        ensures refused_as_told { refused_by result ≡ pairing_fault (market_of (R.meaning ranking.now)) pairing.now }
        ensures of_this_ranking_and_pairing { IfOk result (λ p. (p.ranking.now ≡ ranking.now) × (p.pairing.now ≡ pairing.now)) }
    {
        let streams = ranking.streams();
        let lanes = ranking.lanes();
        if pairing.len() != streams as usize {
            return Err(Refusal::Pairing(WHOLE_LIST));
        }
        let mut lane_streams = [None; MOST_LANES];
        for (index, &lane) in pairing.iter().enumerate() {
            let stream = index as u8;
            if lane < lanes {
                if lane_streams[lane as usize].is_some() {
                    return Err(Refusal::Pairing(stream));
                }
                lane_streams[lane as usize] = Some(stream);
            } else if lane != NOBODY {
                return Err(Refusal::Pairing(stream));
            }
        }
        Ok(CheckedPairing {
            ranking,
            pairing,
            lane_streams,
        })
    }
}

/// Refuses 8 where the list is no pairing of the ranking's streams and lanes.
pub fn check_pairing<R: Ranking>(ranking: &R, pairing: &[u8]) -> Result<(), Refusal>
    ensures refused_as_told { refused_by result ≡ pairing_fault (market_of (R.meaning ranking.now)) pairing.now }
{
    CheckedPairing::new(ranking, pairing)?;
    Ok(())
}
