//! The procedure over a board's tables: offers, chains, turns and questions.

ghost use Rattle.std.specs.Prelude.{◌≡◌, ℕ, ◌+◌, ◌*◌, ◌<◌, ◌≤◌, Bool, true, false, ◌&&◌, take, is_some, IfSome, Decides, MatchOption, unwrap_or, if◌then◌else◌, nat_le, nat_lt, slice_index};
ghost use Rattle.ranking.specs.Market.{market_of};
ghost use Rattle.board.specs.Sides.{party_count, across};
ghost use Rattle.ranking.specs.Stability.{held_rank, Stable};
ghost use Rattle.ranking.specs.Pairings.{LawfulPairing, holding_of};
ghost use Rattle.board.specs.State.{new_state, Content, Standstill, Best};
ghost use Rattle.board.specs.Offer.{offered, takes, wronged};
ghost use Rattle.board.specs.Turn.{Chain, Owed, Turn};
ghost use Rattle.board.specs.Kept.{Kept};
ghost use Rattle.board.specs.Calls.{market_at, state_at, Sought, BestOpen, answer_to, tally_of, lane_byte, pairing_at};
ghost use Rattle.board.specs.Meaning.{state_of, market_in};

use crate::rank_table::RankTable;
use crate::rows::Rows;
use crate::soundness::Unchecked;
use crate::tables::Tables;
use crate::turned::Turned;
use ranking::finder::is_better;
use ranking::interface::Ranking;
use ranking::pairing::NOBODY;
use record::sizes::MOST_STREAMS;

/// Above every rank.
const NO_RANK: u32 = 65536;

// Whom a stream holds as a byte of a pairing: the number of its lane, or 255 for nobody.
fn lane_byte(held: Option<u8>, streams: u8) -> u8
    requires is_a_lane { IfSome held (λ q. streams ≤ q) }
    ensures is_the_byte { result ≡ lane_byte streams held }
{
    held.map_or(NOBODY, |lane| lane - streams)
}

/// What an offer of p to q came to.
// Two named cases: of an `Option` of the two wronged parties, none would read as no offer.
#[derive(Clone, Copy)]
pub(crate) enum Offered {
    /// q did not take p.
    NotTaken,
    /// q took p. Each may have wronged the party that it left.
    Taken {
        wronged_by_p: Option<u8>,
        wronged_by_q: Option<u8>,
    },
}

impl Tables {
    /// The tables of a new board over a ranking.
    pub(crate) fn new<R: Ranking>(ranking: &R) -> Tables
        ensures goes_by_the_ranking { market_at result ≡ market_of (R.meaning ranking.now) }
        ensures is_new { state_at result ≡ new_state (market_of (R.meaning ranking.now)) }
    {
        let ranks = RankTable::of(ranking);
        let rows = Rows::new(&ranks);
        Tables { ranks, rows }
    }

    /// Tables over a ranking and given rows; none where the rows do not keep what every board keeps.
    pub(crate) fn from_rows<R: Ranking>(ranking: &R, rows: Rows) -> Option<Tables>
        ensures only_kept_rows { let m = market_of (R.meaning ranking.now) in MatchOption result (Kept m (state_of rows) → ⊥) (λ t. (market_at t ≡ m) × (t.rows ≡ rows)) }
    {
        let ranks = RankTable::of(ranking);
        let unchecked = Unchecked {
            ranks: &ranks,
            rows: &rows,
        };
        // no `then_some`, since `Tables` are made only once the rows are known to be kept
        if unchecked.is_kept() {
            Some(Tables { ranks, rows })
        } else {
            None
        }
    }

    // The best ranked member of a party's open set.
    fn best_open(&self, party: u8) -> Option<u8>
        requires is_a_party { party < party_count (market_at self.now) }
        ensures is_the_best { BestOpen (market_at self.now) (state_at self.now) party result }
    {
        let mut open = self.rows.row(party).open_set;
        let mut found = None;
        // a number, and no `Option`: that a member was found already is one test more for each
        let mut lowest = NO_RANK;
        while let Some(other) = open.pop_first() {
            if let Some(rank) = self.ranks.rank(party, other) {
                if u32::from(rank) < lowest {
                    lowest = u32::from(rank);
                    found = Some(other);
                }
            }
        }
        found
    }

    // Whom a party makes an offer to: the best ranked member of its open set; nobody where it is content.
    fn best(&self, party: u8) -> Option<u8>
        requires is_a_party { party < party_count (market_at self.now) }
        ensures best_or_content { Sought (market_at self.now) (state_at self.now) party result }
    {
        let found = self.best_open(party)?;
        (self.rows.row(party).holding != Some(found)).then_some(found)
    }

    // The rank that a party gives its holding; none where it holds nobody.
    fn held_rank(&self, party: u8) -> Option<u16>
        requires has_a_row { party < 32 }
        ensures is_the_rank { result ≡ held_rank (market_at self.now) (state_at self.now).holding party }
    {
        let held = self.rows.row(party).holding?;
        self.ranks.rank(party, held)
    }

    // Whether q takes p, while somebody is waiting or nobody.
    fn takes_offer(&self, waiting: Option<u8>, p: u8, q: u8) -> bool
        requires have_rows { (p < 32) × (q < 32) }
        ensures is_the_rule { result ≡ takes (market_at self.now) waiting (state_at self.now) p q }
    {
        waiting != Some(q) && is_better(self.ranks.rank(q, p), self.held_rank(q))
    }

    // The party that y wrongs by leaving its holding.
    fn wronged_by(&self, y: u8) -> Option<u8>
        requires has_a_row { y < 32 }
        ensures is_the_wronged { result ≡ wronged (state_at self.now) true y }
    {
        let held = self.rows.row(y).holding?;
        self.rows.row(held).bidders.contains(y).then_some(held)
    }

    // Here and below `ranks_unchanged` says that the market stays: rows lent apart from the ranks would have to be proved kept again.
    // An offer of p to q, whom p seeks best, while somebody is waiting or nobody.
    fn make_offer(&mut self, waiting: Option<u8>, p: u8, q: u8) -> Offered
        requires goes_to_the_best { Best (market_at self.old) (state_at self.old) p q }
        ensures taken_by_the_rule { result ≡ answer_to (market_at self.old) waiting (state_at self.old) p q }
        ensures board_after_it { state_at self.new ≡ offered (state_at self.old) p q (takes (market_at self.old) waiting (state_at self.old) p q) }
        ensures ranks_unchanged { self.new.ranks ≡ self.old.ranks }
    {
        if !self.takes_offer(waiting, p, q) {
            self.rows.refuse(p, q);
            return Offered::NotTaken;
        }
        let wronged_by_p = self.wronged_by(p);
        let wronged_by_q = self.wronged_by(q);
        self.rows.accept(p, q);
        Offered::Taken {
            wronged_by_p,
            wronged_by_q,
        }
    }

    // The chain of a party, while somebody is waiting or nobody: how many offers it has.
    fn chain(&mut self, waiting: Option<u8>, first: u8) -> u16
        requires is_a_party { first < party_count (market_at self.old) }
        ensures ran { Chain (market_at self.old) waiting (state_at self.old) first (state_at self.new) result }
        ensures has_few_offers { result ≤ (market_at self.old).streams * (market_at self.old).lanes }
        ensures ranks_unchanged { self.new.ranks ≡ self.old.ranks }
    {
        let mut party = first;
        let mut offers: u16 = 0;
        while let Some(other) = self.best(party) {
            offers += 1;
            match self.make_offer(waiting, party, other) {
                Offered::NotTaken => {}
                Offered::Taken {
                    wronged_by_q: Some(wronged),
                    ..
                } => party = wronged,
                Offered::Taken {
                    wronged_by_q: None,
                    ..
                } => return offers,
            }
        }
        offers
    }

    // The chain that a wronged party is owed, if there is one: how many offers it has.
    fn owed(&mut self, waiting: Option<u8>, wronged: Option<u8>) -> Option<u16>
        requires is_a_party { IfSome wronged (λ x. x < party_count (market_at self.old)) }
        ensures ran { Owed (market_at self.old) waiting wronged (state_at self.old) (state_at self.new) (unwrap_or result 0) (if is_some result then 1 else 0) }
        ensures has_few_offers { unwrap_or result 0 ≤ (market_at self.old).streams * (market_at self.old).lanes }
        ensures ranks_unchanged { self.new.ranks ≡ self.old.ranks }
    {
        let party = wronged?;
        Some(self.chain(waiting, party))
    }

    /// The turn of a party.
    pub(crate) fn turn(&mut self, party: u8) -> Turned
        requires is_a_party { party < party_count (market_at self.old) }
        ensures turned { Turn (market_at self.old) (state_at self.old) party (state_at self.new) (tally_of result) }
        ensures has_few_offers { (tally_of result).offers ≤ 2 * ((market_at self.old).streams * (market_at self.old).lanes) + 1 }
        ensures has_few_chains { (tally_of result).chains ≤ 2 }
        ensures ranks_unchanged { self.new.ranks ≡ self.old.ranks }
        ensures idle_changes_nothing { result ≡ Turned.Idle → self.new ≡ self.old }
    {
        let Some(other) = self.best(party) else {
            return Turned::Idle;
        };
        match self.make_offer(None, party, other) {
            Offered::NotTaken => Turned::Moved {
                offers: 1,
                chains: 0,
            },
            Offered::Taken {
                wronged_by_p,
                wronged_by_q,
            } => {
                let first = self.owed(wronged_by_p, wronged_by_q);
                let second = self.owed(None, wronged_by_p);
                Turned::Moved {
                    offers: 1 + (first.unwrap_or(0) + second.unwrap_or(0)),
                    chains: u8::from(first.is_some()) + u8::from(second.is_some()),
                }
            }
        }
    }

    /// Whether a party is content.
    pub(crate) fn is_content(&self, party: u8) -> bool
        requires is_a_party { party < party_count (market_at self.now) }
        ensures says_whether { Decides result (Content (market_at self.now) (state_at self.now) party) }
    {
        self.best(party).is_none()
    }

    /// Whether every party is content.
    pub(crate) fn is_standstill(&self) -> bool
        ensures says_whether { Decides result (Standstill (market_at self.now) (state_at self.now)) }
        ensures standstill_is_stable { let m = market_at self.now in (result ≡ true → Stable m (holding_of m (pairing_at m (state_at self.now)))) }
    {
        (0..self.ranks.parties()).all(|party| self.is_content(party))
    }

    /// The board's pairing: for each stream the lane that it holds, 255 for nobody, and 255 past the streams.
    pub(crate) fn pairing(&self) -> [u8; MOST_STREAMS]
        ensures is_the_pairing { let m = market_at self.now in take m.streams result ≡ pairing_at m (state_at self.now) }
        ensures has_nobody_past_the_streams { (i : ℕ) → (market_at self.now).streams ≤ i → i < 16 → slice_index result i ≡ 255 }
        ensures is_a_lawful_pairing { let m = market_at self.now in LawfulPairing m (take m.streams result) }
        ensures holds_as_the_board { let m = market_at self.now in holding_of m (take m.streams result) ≡ (state_at self.now).holding }
    {
        let streams = self.ranks.sizes.streams;
        let mut lanes = [NOBODY; MOST_STREAMS];
        // over the numbers of the streams, which are their places too; the places past them stay as they are
        for stream in 0..streams {
            lanes[stream as usize] = lane_byte(self.rows.row(stream).holding, streams);
        }
        lanes
    }
}
