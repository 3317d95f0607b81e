ghost use Rattle.std.specs.Prelude.{◌≡◌, ℕ, ◌+◌, ◌*◌, ◌/◌, ◌<◌, ◌≤◌, length, IfOk, MatchResult};
ghost use Rattle.record.specs.Refusals.{refused_by};
ghost use Rattle.record.specs.Bytes.{word_at, words_of, bytes_fault, WrittenFront};

use crate::refusal::Refusal;

/// The fewest words of a record: a head and an end.
pub const FEWEST_WORDS: usize = 2;

/// The most words of a record.
pub const MOST_WORDS: usize = 8192;

// Word `k` of the bytes. Its four bytes are named, as a slice of four would have to be made an array with a case for another length.
fn word_at(bytes: &[u8], k: usize) -> u32
    requires whole { k < length bytes.now / 4 }
    ensures is_the_word { result ≡ word_at bytes.now k }
{
    u32::from_be_bytes([
        bytes[4 * k],
        bytes[4 * k + 1],
        bytes[4 * k + 2],
        bytes[4 * k + 3],
    ])
}

/// Writes the words of `bytes` at the front of `words`, answers their count, and leaves the other words.
/// Refuses 1 where the bytes are no record's, then 9 where the list is too short.
pub fn words_of(bytes: &[u8], words: &mut [u32]) -> Result<usize, Refusal>
    ensures refused_as_told { refused_by result ≡ bytes_fault bytes.now (length words.old) }
    ensures within_the_list { IfOk result (λ n. n ≤ length words.old) }
    ensures words_or_unchanged { MatchResult result (λ n. WrittenFront (words_of bytes.now) words.old words.new n) (λ _. words.new ≡ words.old) }
{
    let count = bytes.len() / 4;
    if bytes.len() % 4 != 0 || count < FEWEST_WORDS || count > MOST_WORDS {
        return Err(Refusal::Length);
    }
    if words.len() < count {
        return Err(Refusal::Room(count as u16));
    }
    // By the number of the word: of a `zip` with `chunks_exact` the proof does not learn what was written. The count is the answer,
    // as the project's calls over a caller's list have it.
    for (k, word) in words[..count].iter_mut().enumerate() {
        *word = word_at(bytes, k);
    }
    Ok(count)
}
