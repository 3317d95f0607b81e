ghost use Rattle.board.specs.Kept.{Kept};
ghost use Rattle.board.specs.Meaning.{state_of, market_in};

use crate::rank_table::RankTable;
use crate::rows::Rows;

/// What a board is made of besides its ranking: the ranks that it took from it, and for each party its holding, its open set
/// and its bidders. What every board keeps is in the type.
#[derive(Drop)]
pub struct Tables {
    pub(crate) ranks: RankTable,
    pub(crate) rows: Rows,
    ghost kept: { Kept (market_in ranks) (state_of rows) },
}
