ghost use Rattle.std.specs.Prelude.{◌≡◌, ◌↔◌, Some};
ghost use Rattle.record.specs.Faults.{kind, high, middle, low, number};
ghost use Rattle.record.specs.Kinds.{kind_number};
ghost use Rattle.record.specs.declared.word.Kind.{Kind};

/// The kinds of words.
#[derive(Clone, Copy, PartialEq, Eq, Debug)]
pub enum Kind {
    /// 1: the sizes.
    Head,
    /// 2: a party's choice.
    Choice,
    /// 3: a party's turn.
    Turn,
    /// 4: a stream and its lane.
    Pair,
    /// 5: the number of the words before it.
    End,
}

impl Kind {
    /// The kind of a word, if its number is one's; the numbers are the format's.
    pub fn of(word: u32) -> Option<Kind>
        ensures is_the_kind { (k : Kind) → (result ≡ Some k) ↔ (kind word ≡ kind_number k) }
    {
        match kind_of(word) {
            1 => Some(Kind::Head),
            2 => Some(Kind::Choice),
            3 => Some(Kind::Turn),
            4 => Some(Kind::Pair),
            5 => Some(Kind::End),
            _ => None,
        }
    }

    /// The number of the kind, as the format gives it.
    pub fn number(self) -> u32
        ensures is_the_number { result ≡ kind_number self }
    {
        match self {
            Kind::Head => 1,
            Kind::Choice => 2,
            Kind::Turn => 3,
            Kind::Pair => 4,
            Kind::End => 5,
        }
    }
}

/// The number of a word's kind, its top four bits.
pub fn kind_of(word: u32) -> u32
    ensures is_the_kind { result ≡ kind word }
{
    word >> 28
}

// Three names of the format for three bytes: a const parameter for which would save nothing.
/// Bits 23 to 16: a choice's owner.
pub fn high_byte(word: u32) -> u8
    ensures is_the_high_byte { result ≡ high word }
{
    word.to_be_bytes()[1]
}

/// Bits 15 to 8: a head's streams, a choice's place, a pair's stream.
pub fn middle_byte(word: u32) -> u8
    ensures is_the_middle_byte { result ≡ middle word }
{
    word.to_be_bytes()[2]
}

/// Bits 7 to 0: a head's lanes, a choice's ranked party, a turn's party, a pair's lane.
pub fn low_byte(word: u32) -> u8
    ensures is_the_low_byte { result ≡ low word }
{
    word.to_be_bytes()[3]
}

/// Bits 27 to 0: an end's number.
pub(crate) fn number_in(word: u32) -> u32
    ensures is_the_number { result ≡ number word }
{
    word % 0x1000_0000
}
