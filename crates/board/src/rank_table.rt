ghost use Rattle.board.specs.RankTables.{table_market, RanksAcross, RanksBounded, RanksStrict};

use crate::rows::MOST_PARTIES;
use record::sizes::Sizes;

/// The sizes and the ranks that a board took from its ranking when it was made: for each party a row with the ranks that it
/// gives the others, by party numbers.
#[derive(Drop)]
pub struct RankTable {
    pub(crate) sizes: Sizes,
    pub(crate) table: [[Option<u16>; MOST_PARTIES]; MOST_PARTIES],
    ghost sides: { RanksAcross (table_market sizes.streams sizes.lanes table) },
    ghost bounded: { RanksBounded (table_market sizes.streams sizes.lanes table) },
    ghost strict: { RanksStrict (table_market sizes.streams sizes.lanes table) },
}
