use crate::{AGREED, MEDIAN, ONE_SIDED, SQUARE, WITHDRAWAL};
use board::board::Board;
use board::rows::{Row, Rows};
use board::turned::Turned;
use ranking::figures::{LaneFigures, StreamFigures};
use ranking::interface::Ranking;
use ranking::listing::Listing;
use ranking::scorer::Scoring;
use record::refusal::Refusal;
use sets::Members;
use std::process::Abort;
use std::test::Fail;

// A new board over the listing of a record.
fn board_of(words: &[u32]) -> Result<Board<Listing>, Fail> {
    let mut listing = Listing::new();
    listing.fill(words)?;
    Ok(Board::new(listing))
}

// Gives the parties their turns, each of which must have one offer and no chain.
fn one_offer_each<R: Ranking>(rt: &impl Abort, board: &mut Board<R>, parties: &[u8]) {
    let one = Turned::Moved {
        offers: 1,
        chains: 0,
    };
    for party in parties {
        assert!(rt; board.turn(*party) == Ok(one), "the turn of {party}");
    }
}

// The lanes that the first three streams hold, and whether the board is at a standstill.
fn ends_with<R: Ranking>(rt: &impl Abort, board: &Board<R>, lanes: [u8; 3], still: bool) {
    let got = board.pairing();
    assert!(rt;
        &got[..3] == lanes.as_slice(),
        "the lanes of the streams are {got:?}"
    );
    assert_eq!(rt; board.is_standstill(), still);
}

#[test]
fn square_board_in_rotation(rt: HostRuntime) -> Result<(), Fail> {
    let mut board = board_of(&SQUARE)?;
    assert!(rt; !board.is_standstill());
    one_offer_each(&rt, &mut board, &[0, 1, 2, 3]);
    assert!(rt; board.turn(0) == Ok(Turned::Idle));
    ends_with(&rt, &board, [0, 1, 255], true);
    assert!(rt; board.turn(4) == Err(Refusal::Party(4)));
    assert!(rt; board.is_content(4) == Err(Refusal::Party(4)));
    assert!(rt; board.holding(255) == Err(Refusal::Party(255)));
    Ok(())
}

#[test]
fn square_board_lanes_first(rt: HostRuntime) -> Result<(), Fail> {
    let mut board = board_of(&SQUARE)?;
    one_offer_each(&rt, &mut board, &[2, 3, 0, 1]);
    ends_with(&rt, &board, [1, 0, 255], true);
    Ok(())
}

#[test]
fn median_board(rt: HostRuntime) -> Result<(), Fail> {
    let mut board = board_of(&MEDIAN)?;
    one_offer_each(&rt, &mut board, &[0, 3, 1, 4, 2, 5, 0, 1, 2]);
    ends_with(&rt, &board, [1, 2, 0], true);
    Ok(())
}

#[test]
fn withdrawal_board(rt: HostRuntime) -> Result<(), Fail> {
    let mut board = board_of(&WITHDRAWAL)?;
    one_offer_each(&rt, &mut board, &[3, 1, 0, 3, 4, 1, 5, 0]);
    ends_with(&rt, &board, [255, 0, 2], false);
    let two = Turned::Moved {
        offers: 2,
        chains: 1,
    };
    assert!(rt; board.turn(4) == Ok(two));
    ends_with(&rt, &board, [0, 1, 2], true);
    Ok(())
}

#[test]
fn one_sided_board(rt: HostRuntime) -> Result<(), Fail> {
    let mut board = board_of(&ONE_SIDED)?;
    one_offer_each(&rt, &mut board, &[0]);
    assert!(rt; board.holding(0) == Ok(None));
    // the offer was not taken: S0 is open to L0 and among its bidders, and L0 is gone from S0's open set
    let mut only_stream = Members::none();
    only_stream.insert(0);
    assert!(rt; board.open_set(1) == Ok(only_stream));
    assert!(rt; board.bidders(1) == Ok(only_stream));
    assert!(rt; board.open_set(0) == Ok(Members::none()));
    ends_with(&rt, &board, [255, 255, 255], true);
    Ok(())
}

// Rows of four parties: whom each holds, and its bidders as one number or nobody; all open sets are full.
fn four_rows(holdings: [u8; 4], bidders: [u8; 4]) -> Rows {
    let mut rows = [Row::default(); 32];
    for (k, row) in rows[..4].iter_mut().enumerate() {
        let mut set = Members::none();
        set.insert(bidders[k]);
        *row = Row {
            holding: Some(holdings[k]),
            open_set: if k < 2 {
                Members::range(2, 4)
            } else {
                Members::range(0, 2)
            },
            bidders: set,
        };
    }
    Rows { rows }
}

#[test]
fn two_chains_in_one_turn(rt: HostRuntime) -> Result<(), Fail> {
    let mut listing = Listing::new();
    listing.fill(&AGREED)?;
    // S0 holds L0 and is among its bidders; S1 holds L1, which is among S1's bidders
    let rows = four_rows([2, 3, 0, 1], [255, 3, 0, 255]);
    let Some(mut board) = Board::resume(listing, rows) else {
        assert!(rt; false, "the rows are kept");
        return Ok(());
    };
    let three = Turned::Moved {
        offers: 3,
        chains: 2,
    };
    assert!(rt; board.turn(0) == Ok(three));
    ends_with(&rt, &board, [1, 0, 255], true);
    // nobody made an offer in the pair S1 and L1
    let broken = four_rows([2, 3, 0, 1], [255, 255, 0, 255]);
    assert!(rt; Board::resume(listing, broken).is_none());
    Ok(())
}

#[test]
fn board_over_a_scoring(rt: HostRuntime) -> Result<(), Fail> {
    let mut scoring = Scoring::new();
    let stream = StreamFigures {
        rate: 100,
        wish: 500,
        reach: 10,
    };
    let near = LaneFigures {
        wear: 510,
        wish: 100,
        reach: 0,
    };
    let far = LaneFigures {
        wear: 489,
        wish: 100,
        reach: 0,
    };
    scoring.fill(&[stream], &[far, near])?;
    let mut board = Board::new(scoring);
    one_offer_each(&rt, &mut board, &[0, 1]);
    assert!(rt; board.holding(0) == Ok(Some(2)));
    assert!(rt; board.is_standstill());
    Ok(())
}
