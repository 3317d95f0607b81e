ghost use Rattle.std.specs.Prelude.{◌≡◌, ℕ, ◌≤◌, length, take, IfOk, MatchResult, nat_lt};
ghost use Rattle.record.specs.Refusals.{refused_by, refuse_if};
ghost use Rattle.record.specs.Bytes.{words_of};
ghost use Rattle.record.specs.Format.{Content, Records};
ghost use Rattle.archive.specs.Judging.{JudgedOf};
ghost use Rattle.pairs.specs.Telling.{input_fault, is_stable, Told};

use archive::judge::judge;
use archive::judged::Judged;
use archive::say::{judged_text, refusal_text};
use ranking::finder::Finding;
use record::bytes::{MOST_WORDS, words_of};
use record::refusal::Refusal;

/// How long the text is, and whether the input is a record whose pairing is stable.
// Both are said of every input, so an enum of two cases would have the length in each.
#[derive(Clone, Copy)]
pub struct Ended {
    pub length: usize,
    pub well: bool,
}

// Reads the bytes as a record and judges it.
fn judge_bytes(bytes: &[u8]) -> Result<Judged, Refusal>
    ensures refused_as_told { refused_by result ≡ input_fault bytes.now }
    ensures judged_by_the_content { IfOk result (λ j. ((c : Content) × (Records (words_of bytes.now) c × JudgedOf c j))) }
{
    let mut words = [0u32; MOST_WORDS];
    let count = words_of(bytes, &mut words)?;
    judge(&words[..count])
}

// Whether the finder answered stable.
fn is_stable(finding: Finding) -> bool
    ensures is_the_answer { result ≡ is_stable finding }
{
    finding == Finding::Stable
}

/// Writes what is told of the input's bytes at the front of the text.
pub fn tell(bytes: &[u8], text: &mut [u8]) -> Result<Ended, Refusal>
    ensures refused_as_told { refused_by result ≡ refuse_if (nat_lt (length text.old) 512) (9, 512) }
    ensures told_as_told { MatchResult result (λ e. Told bytes.now (input_fault bytes.now) (take e.length text.new) e.well) (λ _. text.new ≡ text.old) }
    ensures within_the_list { IfOk result (λ e. e.length ≤ length text.old) }
{
    match judge_bytes(bytes) {
        Ok(judged) => {
            let length = judged_text(&judged, text)?;
            Ok(Ended {
                length,
                well: is_stable(judged.finding()),
            })
        }
        Err(refusal) => {
            let length = refusal_text(refusal, text)?;
            Ok(Ended {
                length,
                well: false,
            })
        }
    }
}
