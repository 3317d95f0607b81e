ghost use Rattle.std.specs.Prelude.{◌≡◌, ℕ, ◌+◌, ◌<◌, ◌≤◌, true, false, length, IfSome};
ghost use Rattle.board.specs.State.{new_state};
ghost use Rattle.board.specs.Offer.{with_holding, joins, loses, leaves, pairs_up, offered};

use crate::rank_table::RankTable;
use sets::Members;

/// The most parties.
pub const MOST_PARTIES: usize = 32;

/// What a board holds of one party: whom it holds, its open set, and its bidders.
#[derive(Clone, Copy, Default)]
pub struct Row {
    pub holding: Option<u8>,
    pub open_set: Members,
    pub bidders: Members,
}

/// A row for each party, by party number.
#[derive(Drop)]
pub struct Rows {
    pub rows: [Row; MOST_PARTIES],
    ghost one_each: { length rows ≡ 32 },
}

impl Rows {
    ghost use Rattle.board.specs.Meaning.{row_of, state_of, market_in};

    /// The rows of a new board: nobody holds anybody, every open set is the whole other side, and there are no bidders.
    pub(crate) fn new(ranks: &RankTable) -> Rows
        ensures are_new { state_of result ≡ new_state (market_in ranks.now) }
    {
        let mut rows = [Row::default(); MOST_PARTIES];
        // a loop: with `array::from_fn` the proof did not learn what its closure got from `other_side`
        for party in 0..ranks.parties() {
            rows[party as usize].open_set = ranks.other_side(party);
        }
        Rows { rows }
    }

    // That a number is below 32 is asked here and where rows are changed: sets, rows and callers hold bare numbers, and a type for
    // them would be unwrapped at each.
    /// A party's row.
    pub(crate) fn row(&self, party: u8) -> Row
        requires has_a_row { party < 32 }
        ensures is_the_row { result ≡ row_of self.now party }
    {
        self.rows[party as usize]
    }

    // p joins q's open set and q's bidders.
    fn join(&mut self, p: u8, q: u8)
        requires have_rows { (p < 32) × (q < 32) }
        ensures joined { state_of self.new ≡ joins (state_of self.old) p q }
    {
        let row = &mut self.rows[q as usize];
        row.open_set.insert(p);
        row.bidders.insert(p);
    }

    // q leaves p's open set.
    fn lose(&mut self, p: u8, q: u8)
        requires have_rows { (p < 32) × (q < 32) }
        ensures lost { state_of self.new ≡ loses (state_of self.old) p q }
    {
        let row = &mut self.rows[p as usize];
        row.open_set.remove(q);
    }

    // p leaves the party that it held, if there is one: that one loses p from its open set and holds nobody.
    fn leave(&mut self, p: u8, held: Option<u8>)
        requires have_rows { (p < 32) × IfSome held (λ x. x < 32) }
        ensures left { state_of self.new ≡ leaves (state_of self.old) p held }
    {
        if let Some(x) = held {
            let row = &mut self.rows[x as usize];
            row.open_set.remove(p);
            row.holding = None;
        }
    }

    // p holds somebody else, or nobody.
    fn set_holding(&mut self, p: u8, held: Option<u8>)
        requires has_a_row { p < 32 }
        ensures holds_that { state_of self.new ≡ record (state_of self.old) { holding = with_holding (state_of self.old).holding p held } }
    {
        self.rows[p as usize].holding = held;
    }

    // p and q hold each other.
    fn pair_up(&mut self, p: u8, q: u8)
        requires have_rows { (p < 32) × (q < 32) }
        ensures paired { state_of self.new ≡ pairs_up (state_of self.old) p q }
    {
        self.set_holding(q, Some(p));
        self.set_holding(p, Some(q));
    }

    /// An offer of p to q that is not taken.
    pub(crate) fn refuse(&mut self, p: u8, q: u8)
        requires have_rows { (p < 32) × (q < 32) }
        ensures is_not_taken { state_of self.new ≡ offered (state_of self.old) p q false }
    {
        self.join(p, q);
        self.lose(p, q);
    }

    /// An offer of p to q that is taken.
    pub(crate) fn accept(&mut self, p: u8, q: u8)
        requires have_rows { (p < 32) × (q < 32) }
        requires partners_have_rows { IfSome ((state_of self.old).holding p) (λ x. x < 32) × IfSome ((state_of self.old).holding q) (λ x. x < 32) }
        ensures is_taken { state_of self.new ≡ offered (state_of self.old) p q true }
    {
        let held_by_p = self.row(p).holding;
        let held_by_q = self.row(q).holding;
        self.join(p, q);
        self.leave(p, held_by_p);
        self.leave(q, held_by_q);
        self.pair_up(p, q);
    }
}
