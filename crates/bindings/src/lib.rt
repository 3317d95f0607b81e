//! The calls that the comparison with Rust makes: boards are played, and every answer and table is written out.
#![tactic(auto)]

use board::board::Board;
use board::rows::{MOST_PARTIES, Row, Rows};
use board::turned::Turned;
use ranking::figures::{LaneFigures, StreamFigures};
use ranking::interface::Ranking;
use ranking::listing::Listing;
use ranking::pairing::NOBODY;
use ranking::scorer::Scoring;
use record::refusal::Refusal;
use sets::Members;

/// What a call answers that could not play: the record or the start is refused, or the trace is too short.
// A number, as the caller in C and Rust takes one; so a refusal is turned into it wherever a call answers.
const REFUSED: u32 = 0xffff_ffff;

/// The words of a trace for one board: three of the answer, four for each party, the standstill, and the pairing.
const BLOCK: usize = 148;

/// The words of a given start: 32 holdings, 32 open sets, 32 sets of bidders.
const START: usize = 96;

// The rows of a given start, if it has 96 words and every holding is a byte; 255 is nobody.
fn rows_of(start: &[u32]) -> Option<Rows> {
    if start.len() != START {
        return None;
    }
    let mut rows = [Row::default(); MOST_PARTIES];
    // the three lists of the caller's words by the party's number
    for (party, row) in rows.iter_mut().enumerate() {
        let held = u8::try_from(start[party]).ok()?;
        *row = Row {
            holding: (held != NOBODY).then_some(held),
            open_set: Members::from(start[32 + party]),
            bidders: Members::from(start[64 + party]),
        };
    }
    Some(Rows { rows })
}

// What the board answers of a party: its holding, 255 for nobody, its open set, its bidders, and whether it is content.
fn party_words<R: Ranking>(board: &Board<R>, party: u8) -> Result<[u32; 4], Refusal> {
    Ok([
        board.holding(party)?.unwrap_or(NOBODY).into(),
        board.open_set(party)?.into(),
        board.bidders(party)?.into(),
        board.is_content(party)?.into(),
    ])
}

// The three words of an answer, numbers for a caller in C.
fn answer_words(answer: Result<Turned, Refusal>) -> [u32; 3] {
    match answer {
        Ok(Turned::Idle) => [0, 0, 0],
        Ok(Turned::Moved { offers, chains }) => [1, offers.into(), chains.into()],
        Err(refusal) => [2, refusal.number().into(), refusal.place().into()],
    }
}

// Writes a block of the trace, whose 148 words are given.
fn put_block<R: Ranking>(board: &Board<R>, answer: [u32; 3], block: &mut [u32]) {
    if block.len() != BLOCK {
        return;
    }
    block[..3].copy_from_slice(&answer);
    for party in 0..32u8 {
        let at = 3 + 4 * usize::from(party);
        let told = party_words(board, party).unwrap_or([REFUSED; 4]);
        block[at..at + 4].copy_from_slice(&told);
    }
    block[131] = board.is_standstill().into();
    for (word, lane) in block[132..].iter_mut().zip(board.pairing()) {
        *word = lane.into();
    }
}

// Gives the turns and writes the trace.
fn play<R: Ranking + Drop>(mut board: Board<R>, turns: &[u8], trace: &mut [u32]) -> u32 {
    if turns.len() > 100_000 || trace.len() < BLOCK * (turns.len() + 1) {
        return REFUSED;
    }
    let (first, blocks) = trace.split_at_mut(BLOCK);
    put_block(&board, [3, 0, 0], first);
    for (party, block) in turns.iter().zip(blocks.chunks_exact_mut(BLOCK)) {
        let answer = board.turn(*party);
        put_block(&board, answer_words(answer), block);
    }
    (BLOCK * (turns.len() + 1)) as u32
}

// Plays on a new board, or on one from a given start.
fn play_from<R: Ranking + Drop>(ranking: R, start: &[u32], turns: &[u8], trace: &mut [u32]) -> u32 {
    if start.is_empty() {
        return play(Board::new(ranking), turns, trace);
    }
    rows_of(start)
        .and_then(|rows| Board::resume(ranking, rows))
        .map_or(REFUSED, |board| play(board, turns, trace))
}

/// Plays turns on a board over the ranking of a record, and writes a trace.
#[unsafe(no_mangle)]
pub extern "C" fn play_listing(
    words: &[u32],
    start: &[u32],
    turns: &[u8],
    trace: &mut [u32],
) -> u32 {
    let mut listing = Listing::new();
    if listing.fill(words).is_err() {
        return REFUSED;
    }
    play_from(listing, start, turns, trace)
}

// Writes a record of each three figures, as many as both lists have.
fn read_figures<F: Drop, M: Fn(u16, u16, u16) -> F>(figures: &[u16], make: M, records: &mut [F])
    requires may_be_called { M.IsAlwaysCallable make }
{
    for (place, three) in records.iter_mut().zip(figures.chunks_exact(3)) {
        if let &[own, wish, reach] = three {
            *place = make(own, wish, reach);
        }
    }
}

// The scoring of figures: three for each party, streams first.
fn scoring_of(figures: &[u16], streams: u8) -> Option<Scoring> {
    let parties = figures.len() / 3;
    let split = streams as usize;
    if figures.len() % 3 != 0 || parties < split || split > 16 || parties - split > 16 {
        return None;
    }
    // arrays with their counts beside, as nothing is allocated
    let (first, others) = figures.split_at(3 * split);
    let mut of_streams = [StreamFigures::default(); 16];
    read_figures(
        first,
        |rate, wish, reach| StreamFigures { rate, wish, reach },
        &mut of_streams,
    );
    let mut of_lanes = [LaneFigures::default(); 16];
    read_figures(
        others,
        |wear, wish, reach| LaneFigures { wear, wish, reach },
        &mut of_lanes,
    );
    let mut scoring = Scoring::new();
    scoring
        .fill(&of_streams[..split], &of_lanes[..parties - split])
        .ok()?;
    Some(scoring)
}

/// Plays turns on a board over a scoring, and writes a trace.
#[unsafe(no_mangle)]
pub extern "C" fn play_scoring(
    figures: &[u16],
    streams: u8,
    start: &[u32],
    turns: &[u8],
    trace: &mut [u32],
) -> u32 {
    scoring_of(figures, streams).map_or(REFUSED, |scoring| play_from(scoring, start, turns, trace))
}

// Gives turns in rotation until all parties were idle in a row, and answers the number of turns.
fn settle<R: Ranking>(board: &mut Board<R>, parties: u8) -> u64 {
    let mut turns = 0u64;
    let mut idle = 0u8;
    for _ in 0..1_000_000u32 {
        for party in 0..parties {
            if idle == parties {
                return turns;
            }
            turns = turns.saturating_add(1);
            match board.turn(party) {
                Ok(Turned::Idle) => idle = idle.saturating_add(1),
                Ok(Turned::Moved { .. }) => idle = 0,
                // no party is refused here; the caller takes a number
                Err(_) => return turns,
            }
        }
    }
    turns
}

/// Settles as many new boards over the ranking of a record, and answers the number of turns in all.
#[unsafe(no_mangle)]
pub extern "C" fn settle_listing(words: &[u32], boards: u32) -> u64 {
    let mut listing = Listing::new();
    if listing.fill(words).is_err() {
        return 0;
    }
    let parties = listing.streams().saturating_add(listing.lanes());
    let mut turns = 0u64;
    for _ in 0..boards {
        let mut board = Board::new(listing);
        turns = turns.saturating_add(settle(&mut board, parties));
    }
    turns
}
