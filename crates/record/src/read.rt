ghost use Rattle.std.specs.Prelude.{◌≡◌, ℕ, ◌+◌, ◌<◌, ◌≤◌, true, not, length, is_ok, IfOk, Some, None, MatchResult, slice_index};
ghost use Rattle.record.specs.Refusals.{refused_by, code_of};
ghost use Rattle.record.specs.Lists.{earliest};
ghost use Rattle.record.specs.Faults.{kind, middle, low, head_within, fault_at, record_fault};
ghost use Rattle.record.specs.Format.{Content, Records, OneContent, OneRecord};
ghost use Rattle.record.specs.Reading.{ReadTo, ReadAs};

use crate::bytes::{FEWEST_WORDS, MOST_WORDS};
use crate::part::read_part;
use crate::parts::{Part, Parts};
use crate::refusal::Refusal;
use crate::scan::{ChoiceScan, PairScan, TurnScan};
use crate::sizes::Sizes;
use crate::word::{Kind, low_byte, middle_byte, number_in};

// Whether a head has no unnamed bit, and both sizes are 1 to 16.
fn head_within(word: u32) -> bool
    ensures is_the_rule { result ≡ head_within word }
{
    let streams = middle_byte(word);
    let lanes = low_byte(word);
    (word >> 16) % 4096 == 0 && streams >= 1 && streams <= 16 && lanes >= 1 && lanes <= 16
}

// Reads the head.
fn read_head(words: &[u32]) -> Result<Sizes, Refusal>
    requires some { 2 ≤ length words.now }
    ensures sizes_or_first_fault { MatchResult result (λ z. ReadTo words.now 2 1 × ((z.streams ≡ middle (slice_index words.now 0)) × (z.lanes ≡ low (slice_index words.now 0)))) (λ f. earliest (fault_at words.now) (length words.now) ≡ Some (code_of f)) }
{
    let word = words[0];
    if Kind::of(word) != Some(Kind::Head) {
        return Err(Refusal::Kind(0));
    }
    if !head_within(word) {
        return Err(Refusal::Limit(0));
    }
    Ok(Sizes {
        streams: middle_byte(word),
        lanes: low_byte(word),
    })
}

// Reads the end, which has to be the last word and to count the words before it.
fn read_end(words: &[u32], at: usize) -> Result<(), Refusal>
    requires few { length words.now ≤ 8192 }
    requires read_so_far { ReadTo words.now 5 at }
    ensures end_or_first_fault { MatchResult result (λ _. (earliest (fault_at words.now) (length words.now) ≡ None) × (at + 1 ≡ length words.now)) (λ f. earliest (fault_at words.now) (length words.now) ≡ Some (code_of f)) }
{
    let word = words[at];
    if at + 1 != words.len() || Kind::of(word) != Some(Kind::End) {
        return Err(Refusal::Kind(at as u16));
    }
    if number_in(word) as usize != at {
        return Err(Refusal::Order(at as u16));
    }
    Ok(())
}

// Reads the parts, one after the other: the first fault found is the one answered.
fn read_parts(words: &[u32]) -> Result<Parts<'_>, Refusal>
    ensures refused_as_told { refused_by result ≡ record_fault words.now }
    ensures parts_of_the_content { IfOk result (λ p. ((c : Content) × ReadAs words.now p c)) }
{
    if words.len() < FEWEST_WORDS || words.len() > MOST_WORDS {
        return Err(Refusal::Length);
    }
    let sizes = read_head(words)?;
    let turns_at = read_part(words, sizes, 1, ChoiceScan::new())?;
    let pairs_at = read_part(words, sizes, turns_at, TurnScan::new())?;
    let end_at = read_part(words, sizes, pairs_at, PairScan::new())?;
    read_end(words, end_at)?;
    let choices = Part {
        at: 1,
        words: &words[1..turns_at],
    };
    let turns = Part {
        at: turns_at,
        words: &words[turns_at..pairs_at],
    };
    let pairs = Part {
        at: pairs_at,
        words: &words[pairs_at..end_at],
    };
    Ok(Parts {
        sizes,
        choices,
        turns,
        pairs,
    })
}

/// Reads a record in one pass over its words. Refuses 1 for its length, else 2, 3 or 4 for the earliest faulty word.
pub fn read(words: &[u32]) -> Result<Parts<'_>, Refusal>
    ensures refused_as_told { refused_by result ≡ record_fault words.now }
    ensures parts_of_the_content { IfOk result (λ p. ((c : Content) × ReadAs words.now p c)) }
    ensures reads_every_record { (c : Content) → Records words.now c → is_ok result ≡ true }
    ensures one_content_a_record { OneContent }
    ensures one_record_a_content { OneRecord }
{
    read_parts(words)
}
