//! Sets of parties: a set of the numbers 0 to 31 as a bit mask. Nothing outside this crate speaks of bits.
#![tactic(auto)]

ghost use Rattle.std.specs.Prelude.{◌≡◌, ℕ, ◌-◌, ◌<◌, Bool, true, false, not, ◌&&◌, ◌||◌, Decides, IfSome, MatchOption, ◌==◌, nat_le, nat_lt};
ghost use Rattle.sets.specs.Sets.{has};

/// A set of numbers, 0 to 31: of parties, or of the parties of one side by their numbers within it.
#[derive(Clone, Copy, PartialEq, Eq, Default)]
pub struct Members(u32);

impl Members {
    /// The set with no member.
    pub fn none() -> Members
        ensures has_nobody { (j : ℕ) → has result.0 j ≡ false }
        ensures is_the_empty_mask { result.0 ≡ 0 }
    {
        Members(0)
    }

    /// The numbers from `from` on and below `end`; none above 31.
    pub fn range(from: u8, end: u8) -> Members
        ensures has_the_range { (j : ℕ) → has result.0 j ≡ (nat_le from j && (nat_lt j end && nat_lt j 32)) }
    {
        let mut members = Members::none();
        for k in from..end {
            members.insert(k);
        }
        members
    }

    /// Whether `k` is a member; no number above 31 is.
    pub fn contains(self, k: u8) -> bool
        ensures is_membership { result ≡ has self.0 k }
    {
        k < 32 && (self.0 >> k) % 2 == 1
    }

    /// Adds `k`; a number above 31 adds nobody.
    pub fn insert(&mut self, k: u8)
        ensures adds_one { (j : ℕ) → has self.new.0 j ≡ (nat_lt k 32 && j == k || has self.old.0 j) }
    {
        if k < 32 {
            self.0 |= 1u32 << k;
        }
    }

    /// Takes `k` away, if it is a member.
    pub fn remove(&mut self, k: u8)
        ensures takes_one_away { (j : ℕ) → has self.new.0 j ≡ (not (j == k) && has self.old.0 j) }
    {
        let mask = self.0;
        if k < 32 {
            self.0 = mask & !(1u32 << k);
        }
    }

    /// Takes the lowest member away and answers it, if there is one.
    pub fn pop_first(&mut self) -> Option<u8>
        ensures is_the_lowest { MatchOption result ((j : ℕ) → has self.old.0 j ≡ false) (λ k. (k < 32) × (has self.old.0 k ≡ true) × ((j : ℕ) → j < k → has self.old.0 j ≡ false)) }
        ensures takes_it_away { MatchOption result (self.new ≡ self.old) (λ k. (j : ℕ) → has self.new.0 j ≡ (not (j == k) && has self.old.0 j)) }
        ensures leaves_a_smaller_mask { IfSome result (λ _. self.new.0 < self.old.0) }
    {
        let mask = self.0;
        if mask == 0 {
            return None;
        }
        self.0 = mask & (mask - 1);
        Some(mask.trailing_zeros() as u8)
    }

    /// Whether every member of this set is a member of the other.
    pub fn is_within(self, other: Members) -> bool
        ensures says_whether { Decides result ((j : ℕ) → has self.0 j ≡ true → has other.0 j ≡ true) }
    {
        self.0 & !other.0 == 0
    }
}

impl From<u32> for Members {
    ghost from_gives = { λ mask members. members.0 ≡ mask };

    /// The set whose mask this is: bit k stands for member k.
    fn from(mask: u32) -> Members {
        Members(mask)
    }
}

impl From<Members> for u32 {
    ghost from_gives = { λ members mask. mask ≡ members.0 };

    /// The mask of a set.
    fn from(members: Members) -> u32 {
        members.0
    }
}
