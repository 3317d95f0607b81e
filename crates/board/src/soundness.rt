//! Whether rows keep what every board keeps.

ghost use Rattle.std.specs.Prelude.{◌≡◌, ℕ, ◌+◌, ◌<◌, ◌≤◌, Bool, true, false, not, ◌&&◌, ◌||◌, is_some, Decides};
ghost use Rattle.ranking.specs.Stability.{holds};
ghost use Rattle.board.specs.Kept.{offer_between, held_right, open_right, sides_right, kept_at, Kept};
ghost use Rattle.board.specs.Meaning.{state_of, market_in};

use crate::rank_table::RankTable;
use crate::rows::Rows;

/// Ranks, and rows of which it is not known yet whether they keep what every board keeps.
#[derive(Clone, Copy)]
pub(crate) struct Unchecked<'a> {
    pub(crate) ranks: &'a RankTable,
    pub(crate) rows: &'a Rows,
}

impl Unchecked<'_> {
    // Whether one of two parties has made the other an offer.
    fn offer_between(self, a: u8, b: u8) -> bool
        requires have_rows { (a < 32) × (b < 32) }
        ensures is_the_test { result ≡ offer_between (state_of self.entry.rows.now) a b }
    {
        self.rows.row(a).bidders.contains(b) || self.rows.row(b).bidders.contains(a)
    }

    // Whether b, whom a holds, holds a, is ranked by a, is in its open set, and one has made the other an offer.
    fn partner_is_right(self, a: u8, b: u8) -> bool
        requires have_rows { (a < 32) × (b < 32) }
        ensures is_the_test { let σ = state_of self.entry.rows.now in result ≡ (holds σ.holding b a && (is_some ((market_in self.entry.ranks.now).rank a b) && (σ.opens a b && offer_between σ a b))) }
    {
        self.rows.row(b).holding == Some(a)
            && self.ranks.rank(a, b).is_some()
            && self.rows.row(a).open_set.contains(b)
            && self.offer_between(a, b)
    }

    // Whether a party's holding is right.
    fn holding_is_right(self, a: u8) -> bool
        requires has_a_row { a < 32 }
        ensures says_whether { Decides result ((b : ℕ) → held_right (market_in self.entry.ranks.now) (state_of self.entry.rows.now) a b ≡ true) }
    {
        // a `match`: tried with `is_none_or`, where it stayed open that its `true` says `held_right` of every party
        match self.rows.row(a).holding {
            Some(b) => b < 32 && self.partner_is_right(a, b),
            None => true,
        }
    }

    // Whether one of a stream and a lane is in the other's open set, and if the second is missing from the first's, one has
    // made the other an offer.
    fn pair_is_right(self, a: u8, b: u8) -> bool
        requires have_rows { (a < 32) × (b < 32) }
        ensures is_the_test { let σ = state_of self.entry.rows.now in result ≡ ((σ.opens a b || σ.opens b a) && (σ.opens a b || offer_between σ a b)) }
    {
        self.rows.row(a).open_set.contains(b)
            || (self.rows.row(b).open_set.contains(a) && self.offer_between(a, b))
    }

    // Whether the members of a party's open set and its bidders stand on the other side.
    fn sets_are_right(self, a: u8) -> bool
        requires has_a_row { a < 32 }
        ensures says_whether { Decides result ((b : ℕ) → sides_right (market_in self.entry.ranks.now) (state_of self.entry.rows.now) a b ≡ true) }
    {
        let others = self.ranks.other_side(a);
        let row = self.rows.row(a);
        row.open_set.is_within(others) && row.bidders.is_within(others)
    }

    // Whether a party's pairs with all parties of the other side are right.
    fn pairs_are_right(self, a: u8) -> bool
        requires has_a_row { a < 32 }
        ensures says_whether { Decides result ((b : ℕ) → open_right (market_in self.entry.ranks.now) (state_of self.entry.rows.now) a b ≡ true) }
    {
        let others = self.ranks.other_side(a);
        (0..self.ranks.parties()).all(|b| !others.contains(b) || self.pair_is_right(a, b))
    }

    // Whether everything that every board keeps is right of a party.
    fn party_is_right(self, a: u8) -> bool
        requires has_a_row { a < 32 }
        ensures says_whether { Decides result ((b : ℕ) → kept_at (market_in self.entry.ranks.now) (state_of self.entry.rows.now) a b ≡ true) }
    {
        self.holding_is_right(a) && self.pairs_are_right(a) && self.sets_are_right(a)
    }

    /// Whether the rows keep what every board keeps.
    pub(crate) fn is_kept(self) -> bool
        ensures says_whether { Decides result (Kept (market_in self.entry.ranks.now) (state_of self.entry.rows.now)) }
    {
        (0..32).all(|a| self.party_is_right(a))
    }
}
