use crate::bytes::words_of;
use crate::read::read;
use crate::refusal::Refusal;
use std::process::Abort;
use std::test::Fail;

// The number and the place of a refusal, as the documents write them, or two zeroes where nothing is refused.
fn code<T: Drop>(answer: Result<T, Refusal>) -> (u8, u16) {
    match answer {
        Ok(_) => (0, 0),
        Err(refusal) => (refusal.number(), refusal.place()),
    }
}

// Words, and the number and the place that they are refused with, or two zeroes where they are read.
type Case = (&'static [u32], u8, u16);

fn check_cases(rt: &impl Abort, cases: &[Case]) {
    for (words, number, place) in cases {
        let (got_number, got_place) = code(read(words));
        assert_eq!(rt; got_number, *number, "the number, for the words {words:?}");
        assert_eq!(rt; got_place, *place, "the place, for the words {words:?}");
    }
}

// A record and what it says.
struct Reading {
    words: &'static [u32],
    streams: u8,
    lanes: u8,
    choices: &'static [u32],
    turns_at: usize,
    turns: &'static [u32],
    pairs_at: usize,
    pairs: &'static [u32],
}

const READINGS: &[Reading] = &[
    // two streams and two lanes that all rank one another, and two pairs
    Reading {
        words: &[
            0x10000202, 0x20000000, 0x20000101, 0x20010001, 0x20010100, 0x20020001, 0x20020100,
            0x20030000, 0x20030101, 0x40000000, 0x40000101, 0x5000000B,
        ],
        streams: 2,
        lanes: 2,
        choices: &[
            0x20000000, 0x20000101, 0x20010001, 0x20010100, 0x20020001, 0x20020100, 0x20030000,
            0x20030101,
        ],
        turns_at: 9,
        turns: &[],
        pairs_at: 9,
        pairs: &[0x40000000, 0x40000101],
    },
    // the shortest record
    Reading {
        words: &[0x10000101, 0x50000001],
        streams: 1,
        lanes: 1,
        choices: &[],
        turns_at: 1,
        turns: &[],
        pairs_at: 1,
        pairs: &[],
    },
    // the largest sizes, and the highest numbers that they allow
    Reading {
        words: &[0x10001010, 0x201F000F, 0x3000001F, 0x40000F0F, 0x50000004],
        streams: 16,
        lanes: 16,
        choices: &[0x201F000F],
        turns_at: 2,
        turns: &[0x3000001F],
        pairs_at: 3,
        pairs: &[0x40000F0F],
    },
    // turns alone, of sizes that differ
    Reading {
        words: &[0x10000203, 0x30000004, 0x30000004, 0x30000000, 0x50000004],
        streams: 2,
        lanes: 3,
        choices: &[],
        turns_at: 1,
        turns: &[0x30000004, 0x30000004, 0x30000000],
        pairs_at: 4,
        pairs: &[],
    },
];

#[test]
fn records_have_their_parts(rt: HostRuntime) -> Result<(), Fail> {
    for reading in READINGS {
        let parts = read(reading.words)?;
        assert_eq!(rt; parts.sizes.streams, reading.streams);
        assert_eq!(rt; parts.sizes.lanes, reading.lanes);
        assert_eq!(rt; parts.choices.at, 1);
        assert!(rt; parts.choices.words == reading.choices);
        assert_eq!(rt; parts.turns.at, reading.turns_at);
        assert!(rt; parts.turns.words == reading.turns);
        assert_eq!(rt; parts.pairs.at, reading.pairs_at);
        assert!(rt; parts.pairs.words == reading.pairs);
    }
    Ok(())
}

const KINDS: &[Case] = &[
    // a first word that is no head
    (&[0x00000101, 0x50000001], 2, 0),
    (&[0x20000000, 0x50000001], 2, 0),
    (&[0x30000000, 0x50000001], 2, 0),
    (&[0x40000000, 0x50000001], 2, 0),
    (&[0x50000000, 0x50000001], 2, 0),
    (&[0x60000101, 0x50000001], 2, 0),
    (&[0xF0000101, 0x50000001], 2, 0),
    // an unknown kind
    (&[0x10000101, 0x00000000, 0x50000002], 2, 1),
    (&[0x10000101, 0x60000000, 0x50000002], 2, 1),
    (&[0x10000101, 0xF0000000, 0x50000002], 2, 1),
    (
        &[
            0x10000101, 0x20000000, 0x30000000, 0x40000000, 0x00000000, 0x50000005,
        ],
        2,
        4,
    ),
    (
        &[
            0x10000101, 0x20000000, 0x30000000, 0x40000000, 0x60000000, 0x50000005,
        ],
        2,
        4,
    ),
    // a head or an end in the middle
    (&[0x10000101, 0x10000101, 0x50000002], 2, 1),
    (
        &[
            0x10000101, 0x20000000, 0x30000000, 0x40000000, 0x10000101, 0x50000005,
        ],
        2,
        4,
    ),
    (&[0x10000101, 0x50000001, 0x50000002], 2, 1),
    (
        &[
            0x10000101, 0x20000000, 0x30000000, 0x40000000, 0x50000004, 0x50000005,
        ],
        2,
        4,
    ),
    // a last word that is no end
    (&[0x10000101, 0x00000001], 2, 1),
    (&[0x10000101, 0x10000101], 2, 1),
    (&[0x10000101, 0x20000000], 2, 1),
    (&[0x10000101, 0x30000000], 2, 1),
    (&[0x10000101, 0x40000000], 2, 1),
    (&[0x10000101, 0x60000001], 2, 1),
    (&[0x10000101, 0x20000000, 0x30000000, 0x40000000], 2, 3),
    // kinds that fall
    (&[0x10000101, 0x30000000, 0x20000000, 0x50000003], 2, 2),
    (
        &[0x10000101, 0x20000000, 0x30000000, 0x20010000, 0x50000004],
        2,
        3,
    ),
    (&[0x10000101, 0x40000000, 0x30000000, 0x50000003], 2, 2),
    (
        &[
            0x10000101, 0x20000000, 0x30000000, 0x40000000, 0x30000000, 0x50000005,
        ],
        2,
        4,
    ),
    (&[0x10000101, 0x40000000, 0x20000000, 0x50000003], 2, 2),
    (
        &[
            0x10000101, 0x20000000, 0x30000000, 0x40000000, 0x20010000, 0x50000005,
        ],
        2,
        4,
    ),
];

const LIMITS: &[Case] = &[
    // a head: unnamed bits 16 to 27, and sizes of 1 to 16
    (&[0x10010101, 0x50000001], 3, 0),
    (&[0x18000101, 0x50000001], 3, 0),
    (&[0x10000001, 0x50000001], 3, 0),
    (&[0x10001101, 0x50000001], 3, 0),
    (&[0x1000FF01, 0x50000001], 3, 0),
    (&[0x10000100, 0x50000001], 3, 0),
    (&[0x10000111, 0x50000001], 3, 0),
    (&[0x100001FF, 0x50000001], 3, 0),
    (&[0x10001001, 0x50000001], 0, 0),
    (&[0x10000110, 0x50000001], 0, 0),
    // a choice: unnamed bits 24 to 27
    (&[0x10000202, 0x21000000, 0x50000002], 3, 1),
    (&[0x10000202, 0x28000000, 0x50000002], 3, 1),
    (
        &[0x10000202, 0x20000000, 0x20000101, 0x24010000, 0x50000004],
        3,
        3,
    ),
    // an owner that is no party
    (&[0x10000202, 0x20040000, 0x50000002], 3, 1),
    (&[0x10000202, 0x20FF0000, 0x50000002], 3, 1),
    (&[0x10001010, 0x20200000, 0x50000002], 3, 1),
    (
        &[0x10000202, 0x20000000, 0x20030000, 0x20040000, 0x50000004],
        3,
        3,
    ),
    // a ranked party that is not of the other side: two streams and three lanes, then three and two
    (&[0x10000203, 0x20010003, 0x50000002], 3, 1),
    (&[0x10000203, 0x20010002, 0x50000002], 0, 0),
    (&[0x10000203, 0x20020002, 0x50000002], 3, 1),
    (&[0x10000203, 0x20020001, 0x50000002], 0, 0),
    (&[0x10000302, 0x20020002, 0x50000002], 3, 1),
    (&[0x10000302, 0x20020001, 0x50000002], 0, 0),
    (&[0x10000302, 0x20030003, 0x50000002], 3, 1),
    (&[0x10000302, 0x20030002, 0x50000002], 0, 0),
    (&[0x10001010, 0x20000010, 0x50000002], 3, 1),
    (
        &[0x10000203, 0x20000000, 0x20000102, 0x20000203, 0x50000004],
        3,
        3,
    ),
    (
        &[0x10000203, 0x20000000, 0x20040000, 0x20040102, 0x50000004],
        3,
        3,
    ),
    // a turn: unnamed bits 8 to 27, and a party that is none
    (&[0x10000202, 0x30000100, 0x50000002], 3, 1),
    (&[0x10000202, 0x30100000, 0x50000002], 3, 1),
    (&[0x10000202, 0x38000000, 0x50000002], 3, 1),
    (
        &[0x10000202, 0x20000000, 0x30000003, 0x30080001, 0x50000004],
        3,
        3,
    ),
    (&[0x10000202, 0x30000004, 0x50000002], 3, 1),
    (&[0x10000202, 0x300000FF, 0x50000002], 3, 1),
    (&[0x10001010, 0x30000020, 0x50000002], 3, 1),
    (
        &[0x10000202, 0x20000000, 0x30000003, 0x30000004, 0x50000004],
        3,
        3,
    ),
    // a pair: unnamed bits 16 to 27, then its stream and its lane
    (&[0x10000203, 0x40010000, 0x50000002], 3, 1),
    (&[0x10000203, 0x48000000, 0x50000002], 3, 1),
    (&[0x10000203, 0x40000000, 0x40800101, 0x50000003], 3, 2),
    (&[0x10000203, 0x40000200, 0x50000002], 3, 1),
    (&[0x10000203, 0x40000003, 0x50000002], 3, 1),
    (&[0x10000203, 0x40000102, 0x50000002], 0, 0),
    (&[0x10001010, 0x40001000, 0x50000002], 3, 1),
    (&[0x10001010, 0x40000010, 0x50000002], 3, 1),
    (&[0x10000203, 0x40000000, 0x40000201, 0x50000003], 3, 2),
    (&[0x10000203, 0x40000000, 0x40000103, 0x50000003], 3, 2),
];

const ORDERS: &[Case] = &[
    // a place that is not the owner's next
    (&[0x10000202, 0x20000100, 0x50000002], 4, 1),
    (&[0x10000202, 0x2000FF00, 0x50000002], 4, 1),
    (&[0x10000202, 0x20000000, 0x20010101, 0x50000003], 4, 2),
    (&[0x10000202, 0x20000000, 0x20000201, 0x50000003], 4, 2),
    (&[0x10000202, 0x20000000, 0x20000001, 0x50000003], 4, 2),
    (
        &[0x10000202, 0x20000000, 0x20000101, 0x2003FF00, 0x50000004],
        4,
        3,
    ),
    // an owner that falls; an owner may be left out
    (&[0x10000202, 0x20010000, 0x20000000, 0x50000003], 4, 2),
    (
        &[0x10000202, 0x20000000, 0x20010000, 0x20000101, 0x50000004],
        4,
        3,
    ),
    (
        &[0x10000202, 0x20000000, 0x20030000, 0x20020000, 0x50000004],
        4,
        3,
    ),
    (&[0x10000202, 0x20000000, 0x20030000, 0x50000003], 0, 0),
    // a party named twice by one owner; two owners may name the same
    (&[0x10000202, 0x20000000, 0x20000100, 0x50000003], 4, 2),
    (&[0x10001010, 0x201F000F, 0x201F010F, 0x50000003], 4, 2),
    (
        &[0x10000203, 0x20000000, 0x20000102, 0x20000200, 0x50000004],
        4,
        3,
    ),
    (&[0x10000202, 0x20000000, 0x20010000, 0x50000003], 0, 0),
    // streams of pairs that do not rise; a stream may be left out
    (&[0x10000202, 0x40000000, 0x40000001, 0x50000003], 4, 2),
    (&[0x10000202, 0x40000100, 0x40000001, 0x50000003], 4, 2),
    (
        &[0x10000303, 0x40000000, 0x40000101, 0x40000102, 0x50000004],
        4,
        3,
    ),
    (
        &[0x10000303, 0x40000000, 0x40000201, 0x40000102, 0x50000004],
        4,
        3,
    ),
    (&[0x10000303, 0x40000001, 0x40000200, 0x50000003], 0, 0),
    // a lane given twice
    (&[0x10000202, 0x40000000, 0x40000100, 0x50000003], 4, 2),
    (&[0x10001010, 0x4000000F, 0x40000F0F, 0x50000003], 4, 2),
    (
        &[0x10000303, 0x40000002, 0x40000101, 0x40000202, 0x50000004],
        4,
        3,
    ),
    // an end whose number is not the number of words before it
    (&[0x10000101, 0x50000000], 4, 1),
    (&[0x10000101, 0x50000002], 4, 1),
    (&[0x10000101, 0x51000001], 4, 1),
    (&[0x10000101, 0x58000001], 4, 1),
    (
        &[0x10000101, 0x20000000, 0x30000000, 0x40000000, 0x50000003],
        4,
        4,
    ),
    (
        &[0x10000101, 0x20000000, 0x30000000, 0x40000000, 0x50000005],
        4,
        4,
    ),
];

const TWO_FAULTS: &[Case] = &[
    // in two words: the earlier word decides
    (&[0x20000202, 0x20040000, 0x50000002], 2, 0),
    (&[0x10001102, 0x60000000, 0x50000002], 3, 0),
    (&[0x10000202, 0x20040000, 0x60000000, 0x50000003], 3, 1),
    (&[0x10000202, 0x20000100, 0x10000202, 0x50000003], 4, 1),
    (&[0x10000202, 0x20000100, 0x20040000, 0x50000003], 4, 1),
    (&[0x10000202, 0x2000FF00, 0x60000000], 4, 1),
    (&[0x10000202, 0x30000004, 0x20000000, 0x50000003], 3, 1),
    (&[0x10000202, 0x40000000, 0x40000000, 0x50000004], 4, 2),
    // in one word: 2 before 3
    (&[0x2F000000, 0x50000001], 2, 0),
    (&[0x10000101, 0x10000000, 0x50000002], 2, 1),
    (&[0x10000101, 0x30000000, 0x20FF0000, 0x50000003], 2, 2),
    (&[0x10000101, 0x2FFFFFFF], 2, 1),
    // 2 before 4
    (&[0x10000101, 0x50000009, 0x50000002], 2, 1),
    (&[0x10000202, 0x40000000, 0x40000000], 2, 2),
    // 3 before 4
    (&[0x10000202, 0x21000100, 0x50000002], 3, 1),
    (&[0x10000202, 0x2004FF00, 0x50000002], 3, 1),
    (&[0x10000202, 0x20010000, 0x20000002, 0x50000003], 3, 2),
    (&[0x10000202, 0x40000000, 0x40010000, 0x50000003], 3, 2),
    (&[0x10000202, 0x40000000, 0x40000002, 0x50000003], 3, 2),
];

// Lengths outside 2 to 8,192 words, and the most words, which are refused for what they say.
const LENGTHS: &[Case] = &[
    (&[], 1, 0),
    (&[0x10000101], 1, 0),
    (&[0x50000000], 1, 0),
    (&[0; 8192], 2, 0),
    (&[0; 8193], 1, 0),
];

#[test]
fn faulty_words_are_refused(rt: HostRuntime) {
    check_cases(&rt, LENGTHS);
    check_cases(&rt, KINDS);
    check_cases(&rt, LIMITS);
    check_cases(&rt, ORDERS);
    check_cases(&rt, TWO_FAULTS);
}

// Bytes, and the number and the place that they are refused with where there is room for two words, or two zeroes.
type BytesCase = (&'static [u8], u8, u16);

const BYTES: &[BytesCase] = &[
    (&[], 1, 0),
    (&[0x10, 0x00, 0x01], 1, 0),
    (&[0x10, 0x00, 0x01, 0x01], 1, 0),
    (&[0x10, 0x00, 0x01, 0x01, 0x50, 0x00, 0x00], 1, 0),
    (
        &[0x10, 0x00, 0x01, 0x01, 0x50, 0x00, 0x00, 0x01, 0x00],
        1,
        0,
    ),
    (&[0; 12], 9, 3),
    (&[0; 14], 1, 0),
    (&[0; 32_768], 9, 8192),
    (&[0; 32_771], 1, 0),
    (&[0; 32_772], 1, 0),
];

#[test]
fn bytes_become_words(rt: HostRuntime) -> Result<(), Fail> {
    for (bytes, number, place) in BYTES {
        let mut words = [7, 8];
        assert_eq!(rt; code(words_of(bytes, &mut words)), (*number, *place));
        assert_eq!(rt; words, [7, 8]);
    }
    let bytes = [0x12, 0x34, 0x56, 0x78, 0x9A, 0xBC, 0xDE, 0xF0];
    let mut exact = [7, 8];
    assert_eq!(rt; words_of(&bytes, &mut exact)?, 2);
    assert_eq!(rt; exact, [0x12345678, 0x9ABCDEF0]);
    let mut longer = [7, 8, 9];
    assert_eq!(rt; words_of(&bytes, &mut longer)?, 2);
    assert_eq!(rt; longer, [0x12345678, 0x9ABCDEF0, 9]);
    let mut shorter = [7];
    assert_eq!(rt; code(words_of(&bytes, &mut shorter)), (9, 2));
    assert_eq!(rt; shorter, [7]);
    Ok(())
}

fn front<'a>(rt: &impl Abort, words: &'a [u32], count: usize) -> &'a [u32] {
    assert!(rt; count <= words.len());
    &words[..count]
}

// The code of a record of one stream, one lane and so many turns, all the first stream's but for the last, which is `last`.
fn code_of_turns(rt: &impl Abort, turns: u16, last: u32) -> (u8, u16) {
    assert!(rt; turns <= 8000);
    let mut words = [0x30000000; 8192];
    let end = turns as usize + 1;
    words[0] = 0x10000101;
    words[turns as usize] = last;
    words[end] = 0x50000001 + turns as u32;
    code(read(front(rt, &words, end + 1)))
}

#[test]
fn turns_are_counted(rt: HostRuntime) {
    assert_eq!(rt; code_of_turns(&rt, 7600, 0x30000001), (0, 0));
    assert_eq!(rt; code_of_turns(&rt, 7600, 0x30000002), (3, 7600));
    assert_eq!(rt; code_of_turns(&rt, 7601, 0x30000001), (4, 7601));
    assert_eq!(rt; code_of_turns(&rt, 7601, 0x30000002), (3, 7601));
    assert_eq!(rt; code_of_turns(&rt, 7601, 0x60000001), (2, 7601));
}

// The longest record, of 8,130 words, and turns after it: everybody ranks the whole other side in the order of its numbers,
// there are 7,600 turns, and stream k has lane k.
fn longest() -> [u32; 8192] {
    let mut words = [0x3000001F; 8192];
    words[0] = 0x10001010;
    for (k, word) in words[1..513].iter_mut().enumerate() {
        *word = 0x20000000 + 0x10000 * (k / 16) as u32 + 0x101 * (k % 16) as u32;
    }
    for (stream, word) in words[8113..8129].iter_mut().enumerate() {
        *word = 0x40000000 + 0x101 * stream as u32;
    }
    words[8129] = 0x50000000 + 8129;
    words
}

#[test]
fn longest_record_is_read(rt: HostRuntime) -> Result<(), Fail> {
    let words = longest();
    let parts = read(front(&rt, &words, 8130))?;
    assert_eq!(rt; (parts.choices.at, parts.choices.words.len()), (1, 512));
    assert_eq!(rt; (parts.turns.at, parts.turns.words.len()), (513, 7600));
    assert_eq!(rt; (parts.pairs.at, parts.pairs.words.len()), (8113, 16));
    Ok(())
}
