ghost use Rattle.std.specs.Prelude.{◌≡◌, ℕ, ◌+◌, ◌*◌, ◌<◌, ◌≤◌, List, length, take, IfOk, MatchResult, nat_lt};
ghost use Rattle.record.specs.Refusals.{code_of, refused_by, refuse_if};
ghost use Rattle.record.specs.Bytes.{WrittenFront};
ghost use Rattle.archive.specs.Texts.{Wrote, line, refusal_text};
ghost use Rattle.archive.specs.Judging.{pair_lines, judged_text};

use crate::judged::Judged;
use crate::text::Cursor;
use ranking::finder::Finding;
use record::refusal::Refusal;

/// The bytes that a text is given: no text is longer.
pub const TEXT_ROOM: usize = 512;

impl Cursor<'_> {
    // Writes a line for each stream.
    fn put_pairs(&mut self, judged: &Judged)
        requires at_the_front { self.old.at ≡ 0 }
        requires there_is_room { 160 ≤ length self.old.bytes.now }
        ensures same_list { self.new.bytes.ghost_name ≡ self.old.bytes.ghost_name }
        ensures takes_at_most { self.new.at ≤ 160 }
        ensures wrote_the_lines { Wrote self.old.bytes.now 0 (pair_lines 0 (take judged.now.streams judged.now.lanes)) self.new.bytes.now self.new.at }
    {
        // By the number, which is printed: `enumerate` would count in another type, and cast back.
        for stream in 0..judged.streams {
            self.put_pair(stream, judged.lanes[stream as usize]);
        }
    }
}

/// Writes the text of a judged record at the front of the caller's bytes, answers its length, and leaves the other bytes.
/// Refuses 9 with place 512 where the list is shorter than that.
pub fn judged_text(judged: &Judged, text: &mut [u8]) -> Result<usize, Refusal>
    ensures refused_as_told { refused_by result ≡ refuse_if (nat_lt (length text.old) 512) (9, 512) }
    ensures within_the_list { IfOk result (λ n. n ≤ length text.old) }
    ensures text_or_unchanged { MatchResult result (λ n. WrittenFront (judged_text judged.now) text.old text.new n) (λ _. text.new ≡ text.old) }
{
    if text.len() < TEXT_ROOM {
        return Err(Refusal::Room(TEXT_ROOM as u16));
    }
    let mut cursor = Cursor { bytes: text, at: 0 };
    cursor.put_pairs(judged);
    cursor.put_finding(judged.finding);
    Ok(cursor.at)
}

/// Writes the line of a refusal at the front of the caller's bytes, answers its length, and leaves the other bytes.
/// Refuses 9 with place 512 where the list is shorter than that.
pub fn refusal_text(refusal: Refusal, text: &mut [u8]) -> Result<usize, Refusal>
    ensures refused_as_told { refused_by result ≡ refuse_if (nat_lt (length text.old) 512) (9, 512) }
    ensures within_the_list { IfOk result (λ n. n ≤ length text.old) }
    ensures text_or_unchanged { MatchResult result (λ n. WrittenFront (line (refusal_text (code_of refusal))) text.old text.new n) (λ _. text.new ≡ text.old) }
{
    if text.len() < TEXT_ROOM {
        return Err(Refusal::Room(TEXT_ROOM as u16));
    }
    let mut cursor = Cursor { bytes: text, at: 0 };
    cursor.put_refusal(refusal);
    Ok(cursor.at)
}

impl Judged {
    /// What the finder answered of the record's pairing.
    pub fn finding(&self) -> Finding
        ensures is_the_answer { result ≡ self.now.finding }
    {
        self.finding
    }
}
