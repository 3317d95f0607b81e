ghost use Rattle.std.specs.Prelude.{◌≡◌};
ghost use Rattle.record.specs.Refusals.{code_of};

/// Why a call of the library was refused, with the place as the case's value.
/// Every refusal has a number and a place; a refused call has changed nothing.
#[derive(Clone, Copy, PartialEq, Eq, Debug)]
pub enum Refusal {
    /// 1, place 0: a record outside its length, or bytes no multiple of four.
    Length,
    /// 2, at a word: a kind that is not allowed there.
    Kind(u16),
    /// 3, at a word: an unnamed bit, or a number outside its limit.
    Limit(u16),
    /// 4, at a word: a wrong place, order, repetition or count.
    Order(u16),
    /// 5, at a party: a figure over 1,023; at 255: a list without 1 to 16 records.
    Figure(u8),
    /// 6, at the party: not below s + g.
    Party(u8),
    /// 7, at n: the rule's n is not s + g.
    Rule(u8),
    /// 8, at a stream: a lane neither below g nor 255, or given before; at 255: not s bytes.
    Pairing(u8),
    /// 9, at the length needed: the caller's list is too short.
    Room(u16),
    /// 10, at a turn's index: no turn word of a party below n; at 65,535: n or the length outside its limit.
    Turns(u16),
    /// 11, place 0: the ranking was filled before.
    Filled,
    /// 12, at 16 × stream + lane: the target is not stable.
    Unstable(u8),
}

impl Refusal {
    // Number and place are the project's own table, so each has a `match`; a derive could give the first only.
    /// The refusal's number, 1 to 12.
    pub fn number(&self) -> u8
        ensures is_the_number { result ≡ (code_of self.now).0 }
    {
        match self {
            Refusal::Length => 1,
            Refusal::Kind(_) => 2,
            Refusal::Limit(_) => 3,
            Refusal::Order(_) => 4,
            Refusal::Figure(_) => 5,
            Refusal::Party(_) => 6,
            Refusal::Rule(_) => 7,
            Refusal::Pairing(_) => 8,
            Refusal::Room(_) => 9,
            Refusal::Turns(_) => 10,
            Refusal::Filled => 11,
            Refusal::Unstable(_) => 12,
        }
    }

    /// The refusal's place.
    pub fn place(&self) -> u16
        ensures is_the_place { result ≡ (code_of self.now).1 }
    {
        match *self {
            Refusal::Length => 0,
            Refusal::Kind(word) => word,
            Refusal::Limit(word) => word,
            Refusal::Order(word) => word,
            Refusal::Figure(party) => party as u16,
            Refusal::Party(party) => party as u16,
            Refusal::Rule(n) => n as u16,
            Refusal::Pairing(stream) => stream as u16,
            Refusal::Room(length) => length,
            Refusal::Turns(index) => index,
            Refusal::Filled => 0,
            Refusal::Unstable(pair) => pair as u16,
        }
    }
}
