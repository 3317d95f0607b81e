ghost use Rattle.std.specs.Prelude.{◌≡◌, ℕ, ◌+◌, ◌*◌, ◌<◌, ◌≤◌, Bool, true, false, length, take, IfOk, Decides, MatchOption, OnErr, slice_index};
ghost use Rattle.sets.specs.Sets.{has};
ghost use Rattle.record.specs.Refusals.{refused_by};
ghost use Rattle.ranking.specs.Market.{market_of};
ghost use Rattle.ranking.specs.Pairings.{LawfulPairing, holding_of};
ghost use Rattle.ranking.specs.Stability.{Stable};
ghost use Rattle.board.specs.State.{new_state, Content, Standstill};
ghost use Rattle.board.specs.Turn.{Turn};
ghost use Rattle.board.specs.Outcome.{OneOutcome, TurnAsComputed};
ghost use Rattle.board.specs.Kept.{Kept};
ghost use Rattle.board.specs.Meaning.{state_in, state_of};
ghost use Rattle.board.specs.Calls.{party_fault, tally_of, pairing_at};

use crate::rows::Rows;
use crate::tables::Tables;
use crate::turned::Turned;
use ranking::interface::Ranking;
use record::refusal::Refusal;
use record::sizes::MOST_STREAMS;
use sets::Members;
use std::marker::Model;

// A board's ranking and the tables that it took from it. A caller sees the ranking and the rows.
#[derive(Drop)]
struct Parts<R: Ranking> {
    ranking: R,
    tables: Tables,
}

impl<R: Ranking> Model for Parts<R> {
    ghost use Rattle.std.specs.Prelude.{◌≡◌};
    ghost use Rattle.ranking.specs.Market.{market_of};
    ghost use Rattle.board.specs.Calls.{market_at};
    ghost use Rattle.board.specs.Seen.{Seen};

    ghost Value = { Seen R };

    ghost view = { λ b. record { ranking = b.ranking; rows = b.tables.rows.rows } };

    ghost invariant = { λ b. market_at b.tables ≡ market_of (R.meaning b.ranking) };
}

/// A board over any ranking, which it holds by value. What every board keeps is in the type.
// A struct around the one with the model: a model's value names no member of a bound, so it can't carry a fact of the ranking's meaning.
#[derive(Drop)]
pub struct Board<R: Ranking> {
    parts: Parts<R>,
    ghost kept: { Kept (market_of (R.meaning parts.ranking)) (state_in parts.rows) },
    ghost one_each: { length parts.rows ≡ 32 },
}

// `keeps_what_every_board_keeps` stands in every call for callers that read contracts alone: a proof has it of any board by its type.
impl<R: Ranking> Board<R> {
    /// A new board: nobody holds anybody, every open set is the whole other side, and there are no bidders.
    pub fn new(ranking: R) -> Board<R>
        ensures holds_its_ranking { result.parts.ranking ≡ ranking }
        ensures is_new { state_in result.parts.rows ≡ new_state (market_of (R.meaning ranking)) }
        ensures keeps_what_every_board_keeps { Kept (market_of (R.meaning result.parts.ranking)) (state_in result.parts.rows) }
    {
        let tables = Tables::new(&ranking);
        Board {
            parts: Parts { ranking, tables },
        }
    }

    /// The ranking that the board was made with.
    pub fn ranking(&self) -> &R
        ensures is_its_ranking { result.now ≡ self.now.parts.ranking }
        ensures keeps_what_every_board_keeps { Kept (market_of (R.meaning self.now.parts.ranking)) (state_in self.now.parts.rows) }
    {
        &self.parts.ranking
    }

    // The three questions of one party have one shape: one function that takes what to ask of the row would be as long as one of them,
    // and each would still state its own answer.
    /// Whom a party holds. Refuses 6 where it is not below s + g, as all questions of one party do.
    pub fn holding(&self, party: u8) -> Result<Option<u8>, Refusal>
        ensures refused_as_told { refused_by result ≡ party_fault (market_of (R.meaning self.now.parts.ranking)) party }
        ensures is_the_holding { IfOk result (λ h. h ≡ (state_in self.now.parts.rows).holding party) }
        ensures keeps_what_every_board_keeps { Kept (market_of (R.meaning self.now.parts.ranking)) (state_in self.now.parts.rows) }
    {
        self.parts.tables.ranks.check_party(party)?;
        Ok(self.parts.tables.rows.row(party).holding)
    }

    /// A party's open set: those to whom it may still make an offer.
    pub fn open_set(&self, party: u8) -> Result<Members, Refusal>
        ensures refused_as_told { refused_by result ≡ party_fault (market_of (R.meaning self.now.parts.ranking)) party }
        ensures is_the_open_set { IfOk result (λ o. (j : ℕ) → has o.0 j ≡ (state_in self.now.parts.rows).opens party j) }
        ensures keeps_what_every_board_keeps { Kept (market_of (R.meaning self.now.parts.ranking)) (state_in self.now.parts.rows) }
    {
        self.parts.tables.ranks.check_party(party)?;
        Ok(self.parts.tables.rows.row(party).open_set)
    }

    /// A party's bidders: those who ever made it an offer.
    pub fn bidders(&self, party: u8) -> Result<Members, Refusal>
        ensures refused_as_told { refused_by result ≡ party_fault (market_of (R.meaning self.now.parts.ranking)) party }
        ensures is_the_set_of_bidders { IfOk result (λ b. (j : ℕ) → has b.0 j ≡ (state_in self.now.parts.rows).bidder party j) }
        ensures keeps_what_every_board_keeps { Kept (market_of (R.meaning self.now.parts.ranking)) (state_in self.now.parts.rows) }
    {
        self.parts.tables.ranks.check_party(party)?;
        Ok(self.parts.tables.rows.row(party).bidders)
    }

    /// Whether a party is content.
    pub fn is_content(&self, party: u8) -> Result<bool, Refusal>
        ensures refused_as_told { refused_by result ≡ party_fault (market_of (R.meaning self.now.parts.ranking)) party }
        ensures says_whether { IfOk result (λ b. Decides b (Content (market_of (R.meaning self.now.parts.ranking)) (state_in self.now.parts.rows) party)) }
        ensures keeps_what_every_board_keeps { Kept (market_of (R.meaning self.now.parts.ranking)) (state_in self.now.parts.rows) }
    {
        self.parts.tables.ranks.check_party(party)?;
        Ok(self.parts.tables.is_content(party))
    }

    /// Whether every party is content. The board's pairing is stable then.
    pub fn is_standstill(&self) -> bool
        ensures says_whether { Decides result (Standstill (market_of (R.meaning self.now.parts.ranking)) (state_in self.now.parts.rows)) }
        ensures standstill_is_stable { let m = market_of (R.meaning self.now.parts.ranking) in (result ≡ true → Stable m (holding_of m (pairing_at m (state_in self.now.parts.rows)))) }
        ensures keeps_what_every_board_keeps { Kept (market_of (R.meaning self.now.parts.ranking)) (state_in self.now.parts.rows) }
    {
        self.parts.tables.is_standstill()
    }

    /// The board's pairing: for each stream the lane that it holds, 255 for nobody, and 255 past the streams.
    pub fn pairing(&self) -> [u8; MOST_STREAMS]
        ensures is_the_pairing { let m = market_of (R.meaning self.now.parts.ranking) in take m.streams result ≡ pairing_at m (state_in self.now.parts.rows) }
        ensures has_nobody_past_the_streams { (i : ℕ) → (market_of (R.meaning self.now.parts.ranking)).streams ≤ i → i < 16 → slice_index result i ≡ 255 }
        ensures keeps_what_every_board_keeps { Kept (market_of (R.meaning self.now.parts.ranking)) (state_in self.now.parts.rows) }
        ensures is_a_lawful_pairing { let m = market_of (R.meaning self.now.parts.ranking) in LawfulPairing m (take m.streams result) }
        ensures holds_as_the_board { let m = market_of (R.meaning self.now.parts.ranking) in holding_of m (take m.streams result) ≡ (state_in self.now.parts.rows).holding }
    {
        self.parts.tables.pairing()
    }

    /// The turn of a party. Refuses 6 where it is not below s + g.
    pub fn turn(&mut self, party: u8) -> Result<Turned, Refusal>
        ensures refused_as_told { refused_by result ≡ party_fault (market_of (R.meaning self.old.parts.ranking)) party }
        ensures turned_as_told { IfOk result (λ t. Turn (market_of (R.meaning self.old.parts.ranking)) (state_in self.old.parts.rows) party (state_in self.new.parts.rows) (tally_of t)) }
        ensures has_few_offers { IfOk result (λ t. (tally_of t).offers ≤ 2 * ((market_of (R.meaning self.old.parts.ranking)).streams * (market_of (R.meaning self.old.parts.ranking)).lanes) + 1) }
        ensures has_few_chains { IfOk result (λ t. (tally_of t).chains ≤ 2) }
        ensures refused_changes_nothing { OnErr result (self.new ≡ self.old) }
        ensures ranking_unchanged { self.new.parts.ranking ≡ self.old.parts.ranking }
        ensures keeps_what_every_board_keeps { Kept (market_of (R.meaning self.new.parts.ranking)) (state_in self.new.parts.rows) }
        ensures has_one_outcome { OneOutcome }
        ensures has_a_computed_form { TurnAsComputed }
    {
        self.parts.tables.ranks.check_party(party)?;
        Ok(self.parts.tables.turn(party))
    }
}

impl<R: Ranking + Drop> Board<R> {
    /// A board over given rows, to take up a board again; none where they do not keep what every board keeps.
    pub fn resume(ranking: R, rows: Rows) -> Option<Board<R>>
        ensures resumed_exactly_when_kept { let m = market_of (R.meaning ranking) in MatchOption result (Kept m (state_of rows) → ⊥) (λ b. (b.parts.ranking ≡ ranking) × (b.parts.rows ≡ rows.rows) × Kept m (state_of rows)) }
    {
        let tables = Tables::from_rows(&ranking, rows)?;
        Some(Board {
            parts: Parts { ranking, tables },
        })
    }
}
