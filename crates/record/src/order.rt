ghost use Rattle.std.specs.Prelude.{◌≡◌, ℕ, ◌+◌, ◌<◌, ◌≤◌, not, List, [], ◌∷◌, ◌++◌, None, OnErr};
ghost use Rattle.record.specs.Refusals.{refused_by, refuse_if, or_else};
ghost use Rattle.record.specs.Faults.{choice_within, choice_in_order, turn_within, turn_in_order, pair_within, pair_in_order, kind, high};
ghost use Rattle.record.specs.declared.word.Kind.{Kind};
ghost use Rattle.record.specs.Scans.{KindsBelow, OwnerSeen, ChoicesSeen, TurnsSeen, PairsSeen};

use crate::part::Scan;
use crate::refusal::Refusal;
use crate::scan::{ChoiceScan, PairScan, TurnScan};
use crate::sizes::Sizes;
use crate::word::{Kind, high_byte, low_byte, middle_byte};
use sets::Members;

/// The most turns of a record.
pub(crate) const MOST_TURNS: u16 = 7600;

// Whether a choice has no unnamed bit, and its owner and ranked party are parties of the two sides.
fn choice_within(sizes: Sizes, word: u32) -> bool
    ensures is_the_rule { result ≡ choice_within sizes.streams sizes.lanes word }
{
    let owner = high_byte(word) as u16;
    let ranked = low_byte(word);
    let streams = sizes.streams as u16;
    let parties = streams + sizes.lanes as u16;
    let facing = if owner < streams {
        sizes.lanes
    } else {
        sizes.streams
    };
    (word >> 24) % 16 == 0 && owner < parties && ranked < facing
}

impl ChoiceScan {
    /// Before the first choice.
    pub(crate) fn new() -> ChoiceScan
        ensures has_seen_no_choice { (before : List ℕ) → KindsBelow 2 before → ChoicesSeen result before }
    {
        ChoiceScan {
            owner: 0,
            next: 0,
            named: Members::none(),
        }
    }

    // The scan as an owner that is not below the last one meets it: a new owner has chosen nobody yet.
    fn at_owner(self, owner: u8) -> ChoiceScan
        requires not_below { self.owner ≤ owner }
        ensures is_the_owner { result.owner ≡ owner }
        ensures keeps_what_was_seen { (before : List ℕ) → ChoicesSeen self before → OwnerSeen result before }
    {
        if owner == self.owner {
            return self;
        }
        ChoiceScan {
            owner,
            next: 0,
            named: Members::none(),
        }
    }
}

impl Scan for ChoiceScan {
    ghost scans = { λ _. Kind.Choice };

    ghost sees = { ChoicesSeen };

    fn kind(&self) -> Kind {
        Kind::Choice
    }

    fn word(&mut self, sizes: Sizes, word: u32, at: u16) -> Result<(), Refusal> {
        let owner = high_byte(word);
        let ranked = low_byte(word);
        if !choice_within(sizes, word) {
            return Err(Refusal::Limit(at));
        }
        if owner < self.owner {
            return Err(Refusal::Order(at));
        }
        let mut scan = self.at_owner(owner);
        if middle_byte(word) as u16 != scan.next || scan.named.contains(ranked) {
            return Err(Refusal::Order(at));
        }
        scan.next += 1;
        scan.named.insert(ranked);
        *self = scan;
        Ok(())
    }
}

impl TurnScan {
    /// Before the first turn.
    pub(crate) fn new() -> TurnScan
        ensures has_seen_no_turn { (before : List ℕ) → KindsBelow 3 before → TurnsSeen result before }
    {
        TurnScan { count: 0 }
    }
}

impl Scan for TurnScan {
    ghost scans = { λ _. Kind.Turn };

    ghost sees = { TurnsSeen };

    fn kind(&self) -> Kind {
        Kind::Turn
    }

    fn word(&mut self, sizes: Sizes, word: u32, at: u16) -> Result<(), Refusal> {
        if (word >> 8) % 0x10_0000 != 0 || low_byte(word) >= sizes.streams + sizes.lanes {
            return Err(Refusal::Limit(at));
        }
        if self.count >= MOST_TURNS {
            return Err(Refusal::Order(at));
        }
        self.count += 1;
        Ok(())
    }
}

// Whether a pair has no unnamed bit, and its stream and lane are within their sides.
fn pair_within(sizes: Sizes, word: u32) -> bool
    ensures is_the_rule { result ≡ pair_within sizes.streams sizes.lanes word }
{
    (word >> 16) % 4096 == 0 && middle_byte(word) < sizes.streams && low_byte(word) < sizes.lanes
}

impl PairScan {
    /// Before the first pair.
    pub(crate) fn new() -> PairScan
        ensures has_seen_no_pair { (before : List ℕ) → KindsBelow 4 before → PairsSeen result before }
    {
        PairScan {
            floor: 0,
            given: Members::none(),
        }
    }
}

impl Scan for PairScan {
    ghost scans = { λ _. Kind.Pair };

    ghost sees = { PairsSeen };

    fn kind(&self) -> Kind {
        Kind::Pair
    }

    fn word(&mut self, sizes: Sizes, word: u32, at: u16) -> Result<(), Refusal> {
        let stream = middle_byte(word) as u16;
        let lane = low_byte(word);
        if !pair_within(sizes, word) {
            return Err(Refusal::Limit(at));
        }
        if stream < self.floor || self.given.contains(lane) {
            return Err(Refusal::Order(at));
        }
        self.floor = stream + 1;
        self.given.insert(lane);
        Ok(())
    }
}
