ghost use Rattle.std.specs.Prelude.{◌≡◌, ℕ, ◌+◌, ◌<◌, ◌≤◌, true, not, List, [], ◌∷◌, ◌++◌, length, take, Some, None, OnErr, MatchResult, slice_index};
ghost use Rattle.record.specs.Refusals.{refused_by, refuse_if, or_else, code_of};
ghost use Rattle.record.specs.Lists.{earliest};
ghost use Rattle.record.specs.Kinds.{kind_number};
ghost use Rattle.record.specs.declared.word.Kind.{Kind};
ghost use Rattle.record.specs.Faults.{kind, middle, low, within, in_order, fault_at};
ghost use Rattle.record.specs.Reading.{ReadTo, PartRead};

use crate::refusal::Refusal;
use crate::sizes::Sizes;
use crate::word::Kind;

/// What a reader keeps while it goes through the words of one kind.
pub trait Scan {
    /// The kind of the words.
    ghost scans: { Self → Kind };

    /// What it keeps is right for the words before.
    ghost sees: { Self → List ℕ → Type 0 };

    /// The kind of the words.
    fn kind(&self) -> Kind
        ensures is_the_kind { result ≡ scans self.now };

    // Limits, a word and its place are three things that no fact ties, so they have no type of their own.
    /// Reads one more word of the kind, the word at `at`.
    fn word(&mut self, sizes: Sizes, word: u32, at: u16) -> Result<(), Refusal>
        requires of_the_kind { kind word ≡ kind_number (scans self.old) }
        ensures same_kind { scans self.new ≡ scans self.old }
        ensures refused_as_told { (before : List ℕ) → sees self.old before → refused_by result ≡ or_else (refuse_if (not (within sizes.streams sizes.lanes word)) (3, at)) (refuse_if (not (in_order before word)) (4, at)) }
        ensures refused_changes_nothing { OnErr result (self.new ≡ self.old) }
        ensures has_seen_one_more { (before : List ℕ) → sees self.old before → refused_by result ≡ None → sees self.new (before ++ word ∷ []) };
}

/// Reads the words of one kind from `from` on, and answers where they end.
pub(crate) fn read_part<S: Scan + Drop>(
    words: &[u32],
    sizes: Sizes,
    from: usize,
    scan: S,
) -> Result<usize, Refusal>
    requires few { length words.now ≤ 8192 }
    requires sizes_of_the_head { (sizes.streams ≡ middle (slice_index words.now 0)) × (sizes.lanes ≡ low (slice_index words.now 0)) }
    requires a_middle_kind { (2 ≤ kind_number (S.scans scan)) × (kind_number (S.scans scan) ≤ 4) }
    requires read_so_far { ReadTo words.now (kind_number (S.scans scan)) from }
    requires seen_so_far { S.sees scan (take from words.now) }
    ensures part_or_first_fault { MatchResult result (λ n. PartRead words.now (kind_number (S.scans scan)) from n) (λ f. earliest (fault_at words.now) (length words.now) ≡ Some (code_of f)) }
{
    let last = words.len() - 1;
    let kind = scan.kind();
    let mut scan = scan;
    // By the place, which each refusal tells and the answer is.
    for at in from..last {
        let word = words[at];
        if Kind::of(word) != Some(kind) {
            return Ok(at);
        }
        scan.word(sizes, word, at as u16)?;
    }
    Ok(last)
}
