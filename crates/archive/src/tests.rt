use crate::judge::judge;
use crate::say::{TEXT_ROOM, judged_text, refusal_text};
use ranking::figures::{LaneFigures, StreamFigures};
use ranking::finder::{Finding, find};
use ranking::interface::Ranking;
use ranking::listing::Listing;
use ranking::pairing::check_pairing;
use ranking::scorer::Scoring;
use record::refusal::Refusal;
use std::test::Fail;

// The square board with the pairs S0 L0 and S1 L1.
const SQUARE: [u32; 12] = [
    0x1000_0202,
    0x2000_0000,
    0x2000_0101,
    0x2001_0001,
    0x2001_0100,
    0x2002_0001,
    0x2002_0100,
    0x2003_0000,
    0x2003_0101,
    0x4000_0000,
    0x4000_0101,
    0x5000_000b,
];

// Pairings of the square board, and what the finder answers of each.
const FINDINGS: [([u8; 2], Finding); 5] = [
    ([0, 1], Finding::Stable),
    ([1, 0], Finding::Stable),
    ([0, 255], Finding::Blocked(1, 0)),
    ([255, 255], Finding::Blocked(0, 0)),
    ([255, 0], Finding::Blocked(0, 1)),
];

#[test]
fn finder_on_the_square_board(rt: HostRuntime) -> Result<(), Fail> {
    let mut listing = Listing::new();
    listing.fill(&SQUARE)?;
    for (pairing, finding) in FINDINGS {
        assert!(rt; find(&listing, &pairing) == Ok(finding));
    }
    assert!(rt; find(&listing, &[0]) == Err(Refusal::Pairing(255)));
    assert!(rt; find(&listing, &[0, 1, 255]) == Err(Refusal::Pairing(255)));
    assert!(rt; find(&listing, &[2, 0]) == Err(Refusal::Pairing(0)));
    assert!(rt; check_pairing(&listing, &[0, 254]) == Err(Refusal::Pairing(1)));
    assert!(rt; check_pairing(&listing, &[1, 1]) == Err(Refusal::Pairing(1)));
    Ok(())
}

// The ranks of a lane or a stream 0 to 3 by stream or lane 0 to 3, 9 for none.
const BY_STREAM: [[u16; 3]; 3] = [[0, 1, 9], [1, 0, 9], [9, 9, 9]];

const BY_LANE: [[u16; 3]; 3] = [[1, 0, 9], [0, 1, 9], [9, 9, 9]];

#[test]
fn listing_answers_by_its_places(rt: HostRuntime) -> Result<(), Fail> {
    let mut listing = Listing::new();
    assert!(rt; listing.streams() == 1 && listing.rank_by_stream(0, 0) == None);
    listing.fill(&SQUARE)?;
    for (i, (by_stream, by_lane)) in (0..3u8).zip(BY_STREAM.iter().zip(BY_LANE)) {
        for (j, (lane_rank, stream_rank)) in (0..3u8).zip(by_stream.iter().zip(by_lane)) {
            assert!(rt; listing.rank_by_stream(i, j).unwrap_or(9) == *lane_rank);
            assert!(rt; listing.rank_by_lane(i, j).unwrap_or(9) == stream_rank);
        }
    }
    assert!(rt; listing.rank_by_lane(255, 255) == None);
    Ok(())
}

#[test]
fn listing_is_filled_once(rt: HostRuntime) -> Result<(), Fail> {
    let mut listing = Listing::new();
    assert!(rt; listing.fill(&SQUARE[0..11]).is_err() && listing.streams() == 1);
    listing.fill(&SQUARE)?;
    match listing.fill(&[0x1000_0101, 0x5000_0001]) {
        Ok(_) => Err(Fail::new("filled twice")),
        Err(refusal) => {
            assert!(rt; refusal == Refusal::Filled && listing.streams() == 2);
            Ok(())
        },
    }
}

const STREAM: StreamFigures = StreamFigures {
    rate: 100,
    wish: 500,
    reach: 10,
};

const LANE: LaneFigures = LaneFigures {
    wear: 489,
    wish: 100,
    reach: 0,
};

// A lane of this wear, which wishes the rate 100.
fn lane_of(wear: u16) -> LaneFigures {
    LaneFigures {
        wear,
        wish: 100,
        reach: 0,
    }
}

// The ranks of lanes 0 to 4 by the stream, 9 for none.
const SCORES: [u16; 5] = [9, 161, 2, 163, 9];

#[test]
fn scoring_ranks_by_distance(rt: HostRuntime) {
    let mut scoring = Scoring::new();
    assert!(rt; scoring.rank_by_stream(0, 0) == None);
    let lanes = [lane_of(489), lane_of(510), lane_of(500), lane_of(490)];
    assert!(rt; scoring.fill(&[STREAM], &lanes) == Ok(()));
    for (lane, score) in (0..5u8).zip(SCORES) {
        assert!(rt; scoring.rank_by_stream(0, lane).unwrap_or(9) == score);
    }
    assert!(rt; scoring.rank_by_lane(3, 0) == Some(0) && scoring.rank_by_lane(0, 1) == None);
    assert!(rt; scoring.fill(&[STREAM], &lanes) == Err(Refusal::Filled) && scoring.lanes() == 4);
}

#[test]
fn scoring_refuses_figures(rt: HostRuntime) {
    let mut scoring = Scoring::new();
    assert!(rt; scoring.fill(&[], &[LANE]) == Err(Refusal::Figure(255)));
    assert!(rt; scoring.fill(&[STREAM], &[LANE; 17]) == Err(Refusal::Figure(255)));
    assert!(rt; scoring.fill(&[STREAM; 2], &[LANE, lane_of(1024)]) == Err(Refusal::Figure(3)));
    assert!(rt; scoring.fill(&[STREAM; 16], &[lane_of(1023); 16]) == Ok(()));
}

#[test]
fn text_of_a_record(rt: HostRuntime) -> Result<(), Fail> {
    let mut text = [7u8; TEXT_ROOM];
    let judged = judge(&SQUARE)?;
    let length = judged_text(&judged, &mut text)?;
    assert!(rt; length == 19 && text[19] == 7);
    assert!(rt; &text[0..19] == b"S0 L0\nS1 L1\nstable\n".as_slice());
    Ok(())
}

#[test]
fn text_of_a_refusal(rt: HostRuntime) -> Result<(), Fail> {
    let mut text = [7u8; TEXT_ROOM];
    let length = refusal_text(Refusal::Turns(65535), &mut text)?;
    assert!(rt; length == 20 && text[20] == 7);
    assert!(rt; &text[0..20] == b"refused 10 at 65535\n".as_slice());
    let mut short = [7u8; 511];
    assert!(rt; refusal_text(Refusal::Filled, &mut short) == Err(Refusal::Room(512)));
    assert!(rt; short[0] == 7);
    Ok(())
}
