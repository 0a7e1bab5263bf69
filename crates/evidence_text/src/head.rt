//! The head.
ghost use Rattle.std.specs.Prelude.{◌≡◌, OnOk};
ghost use Rattle.evidence_text.specs.Reading.{at_line, head_at, head_words_at};
ghost use Rattle.evidence_text.specs.Lines.{words_of};
ghost use Rattle.evidence_text.specs.Cursors.{left_of, rest_of, ReadsLine, ReadsHead};

use crate::fields::read_counts;
use crate::lines::Lines;
use crate::offence::Offence;
use crate::version::Version;
use crate::words::first_word;
use gm_base::Problem;
use lrat_check::{Counts, Mismatch, Why};

/// The version of a text, by its head, which names the problem's numbers.
#[tactic(auto, unfolding(crate::specs::Reading::head_at))]
pub(crate) fn read_head(lines: &mut Lines<'_>, problem: &Problem) -> Result<Version, Offence>
    ensures head { ReadsHead result (left_of lines.new) (head_at problem.now (left_of lines.old).at (left_of lines.old).lines) }
    ensures rest { OnOk result (rest_of lines.new ≡ rest_of lines.old) }
{
    let at = lines.at;
    let Some(line) = lines.next() else {
        return Err(Offence {
            line: at,
            why: Why::Truncated,
        });
    };
    match head_of_line(line, problem) {
        Ok(version) => Ok(version),
        Err(why) => Err(Offence { line: at, why }),
    }
}

#[tactic(auto, unfolding(crate::specs::Reading::head_words_at))]
fn head_of_line(line: &[u8], problem: &Problem) -> Result<Version, Why>
    ensures { ReadsLine (λ version. version) result (head_words_at problem.now (words_of line.now)) }
{
    let (letter, words) = first_word(line);
    if letter != b'p' {
        return Err(Why::BadLine);
    }
    let (version, text) = read_counts(words)?;
    let problem = Counts {
        vars: u64::from(problem.vars()),
        groups: u64::from(problem.groups()),
        clauses: problem.len() as u64,
    };
    if text == problem {
        Ok(version)
    } else {
        Err(Why::OtherProblem(Mismatch { text, problem }))
    }
}
