ghost use Rattle.std.specs.Prelude.{◌≡◌, ℕ, ◌+◌, ◌<◌, ◌≤◌, List, [], ◌∷◌, ◌++◌, length, codes, decimal};
ghost use Rattle.archive.specs.Texts.{Wrote, line, stream_text, lane_text, holding_text, pair_line, finding_text, refusal_text};
ghost use Rattle.record.specs.Refusals.{code_of};

use ranking::finder::Finding;
use ranking::pairing::NOBODY;
use record::refusal::Refusal;

/// A text that is being written into a caller's bytes, and the place where it goes on.
// Each method says that it keeps the list that was lent, since a struct that holds a `&mut` does not say so by its type.
// `fmt` and `write!` would need no cursor: tried, and it stayed open that they answer no `Err` where there is room.
#[derive(Drop)]
pub(crate) struct Cursor<'a> {
    pub(crate) bytes: &'a mut [u8],
    pub(crate) at: usize,
}

impl Cursor<'_> {
    /// Writes the bytes.
    pub(crate) fn put(&mut self, bytes: &[u8])
        requires there_is_room { self.old.at + length bytes.now ≤ length self.old.bytes.now }
        ensures same_list { self.new.bytes.ghost_name ≡ self.old.bytes.ghost_name }
        ensures wrote_the_bytes { Wrote self.old.bytes.now self.old.at bytes.now self.new.bytes.now self.new.at }
    {
        let end = self.at + bytes.len();
        self.bytes[self.at..end].copy_from_slice(bytes);
        self.at = end;
    }

    // Writes one byte: no slice is made and copied for it.
    fn push(&mut self, byte: u8)
        requires there_is_room { self.old.at + 1 ≤ length self.old.bytes.now }
        ensures same_list { self.new.bytes.ghost_name ≡ self.old.bytes.ghost_name }
        ensures wrote_the_byte { Wrote self.old.bytes.now self.old.at (byte ∷ []) self.new.bytes.now self.new.at }
    {
        self.bytes[self.at] = byte;
        self.at += 1;
    }

    /// Writes a number in decimal.
    pub(crate) fn put_number(&mut self, number: u16)
        requires there_is_room { self.old.at + length (decimal number) ≤ length self.old.bytes.now }
        ensures same_list { self.new.bytes.ghost_name ≡ self.old.bytes.ghost_name }
        ensures takes_at_most_five { self.new.at ≤ self.old.at + 5 }
        ensures wrote_the_number { Wrote self.old.bytes.now self.old.at (decimal number) self.new.bytes.now self.new.at }
    {
        let last = 48 + (number % 10) as u8;
        if number < 10 {
            self.push(last);
            return;
        }
        self.put_number(number / 10);
        self.push(last);
    }

    // Writes a letter and a number.
    fn put_party(&mut self, letter: u8, number: u8)
        requires there_is_room { self.old.at + 4 ≤ length self.old.bytes.now }
        ensures same_list { self.new.bytes.ghost_name ≡ self.old.bytes.ghost_name }
        ensures takes_at_most_four { self.new.at ≤ self.old.at + 4 }
        ensures wrote_the_party { Wrote self.old.bytes.now self.old.at (letter ∷ decimal number) self.new.bytes.now self.new.at }
    {
        self.push(letter);
        self.put_number(number as u16);
    }

    // Writes a stream's holding: its lane, or - for nobody.
    fn put_holding(&mut self, lane: u8)
        requires there_is_room { self.old.at + 4 ≤ length self.old.bytes.now }
        ensures same_list { self.new.bytes.ghost_name ≡ self.old.bytes.ghost_name }
        ensures takes_at_most_four { self.new.at ≤ self.old.at + 4 }
        ensures wrote_the_holding { Wrote self.old.bytes.now self.old.at (holding_text lane) self.new.bytes.now self.new.at }
    {
        if lane == NOBODY {
            self.put(b"-");
        } else {
            self.put_party(b'L', lane);
        }
    }

    /// Writes the line of a stream and its lane, 255 for nobody.
    pub(crate) fn put_pair(&mut self, stream: u8, lane: u8)
        requires there_is_room { self.old.at + 10 ≤ length self.old.bytes.now }
        ensures same_list { self.new.bytes.ghost_name ≡ self.old.bytes.ghost_name }
        ensures takes_at_most_ten { self.new.at ≤ self.old.at + 10 }
        ensures wrote_the_line { Wrote self.old.bytes.now self.old.at (pair_line stream lane) self.new.bytes.now self.new.at }
    {
        self.put_party(b'S', stream);
        self.put(b" ");
        self.put_holding(lane);
        self.put(b"\n");
    }

    // Writes a stream and a lane.
    fn put_both(&mut self, stream: u8, lane: u8)
        requires there_is_room { self.old.at + 9 ≤ length self.old.bytes.now }
        ensures same_list { self.new.bytes.ghost_name ≡ self.old.bytes.ghost_name }
        ensures takes_at_most_nine { self.new.at ≤ self.old.at + 9 }
        ensures wrote_both { Wrote self.old.bytes.now self.old.at (stream_text stream ++ (codes " " ++ lane_text lane)) self.new.bytes.now self.new.at }
    {
        self.put_party(b'S', stream);
        self.put(b" ");
        self.put_party(b'L', lane);
    }

    // Writes what the finder answered.
    fn put_answer(&mut self, finding: Finding)
        requires there_is_room { self.old.at + 20 ≤ length self.old.bytes.now }
        ensures same_list { self.new.bytes.ghost_name ≡ self.old.bytes.ghost_name }
        ensures takes_at_most_twenty { self.new.at ≤ self.old.at + 20 }
        ensures wrote_the_answer { Wrote self.old.bytes.now self.old.at (finding_text finding) self.new.bytes.now self.new.at }
    {
        match finding {
            Finding::Stable => self.put(b"stable"),
            Finding::Unranked(stream) => {
                self.put(b"unranked ");
                self.put_party(b'S', stream);
            }
            Finding::Blocked(stream, lane) => {
                self.put(b"blocked by ");
                self.put_both(stream, lane);
            }
        }
    }

    /// Writes the line of what the finder answered.
    pub(crate) fn put_finding(&mut self, finding: Finding)
        requires there_is_room { self.old.at + 21 ≤ length self.old.bytes.now }
        ensures same_list { self.new.bytes.ghost_name ≡ self.old.bytes.ghost_name }
        ensures takes_at_most_twenty_one { self.new.at ≤ self.old.at + 21 }
        ensures wrote_the_line { Wrote self.old.bytes.now self.old.at (line (finding_text finding)) self.new.bytes.now self.new.at }
    {
        self.put_answer(finding);
        self.put(b"\n");
    }

    /// Writes the line of a refusal.
    pub(crate) fn put_refusal(&mut self, refusal: Refusal)
        requires there_is_room { self.old.at + 23 ≤ length self.old.bytes.now }
        ensures same_list { self.new.bytes.ghost_name ≡ self.old.bytes.ghost_name }
        ensures takes_at_most_twenty_three { self.new.at ≤ self.old.at + 23 }
        ensures wrote_the_line { Wrote self.old.bytes.now self.old.at (line (refusal_text (code_of refusal))) self.new.bytes.now self.new.at }
    {
        self.put(b"refused ");
        self.put_number(refusal.number() as u16);
        self.put(b" at ");
        self.put_number(refusal.place());
        self.put(b"\n");
    }
}
