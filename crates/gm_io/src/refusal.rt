//! The lines that tell why a file is refused, and why evidence is.
ghost use Rattle.std.specs.Prelude.{◌≡◌, IfOk};
ghost use Rattle.gm_io.specs.Refusals.{evidence_line, refusal_line, limit_text};

use crate::line_parts::put_counted;
use gcnf_text::{Limit, Offence};
use lrat_check::Why;
use std::alloc::{AllocError, Global};

fn text_of_limit(limit: Option<Limit>) -> &'static str
    ensures { result.now ≡ limit_text limit }
{
    match limit {
        None => "",
        Some(Limit::Vars) => " vars",
        Some(Limit::Clauses) => " clauses",
        Some(Limit::Groups) => " groups",
        Some(Limit::Literals) => " literals",
        Some(Limit::Bytes) => " bytes",
    }
}

/// The offence's number and name, the limit that it goes beyond, and its place.
#[tactic(auto, unfolding(crate::specs::Refusals::refusal_line))]
pub fn line_of_refusal(alloc: Global, offence: Offence) -> Result<Vec<u8>, AllocError>
    ensures { IfOk result (λ line. line.items ≡ refusal_line offence) }
{
    let mut line = Vec::new(alloc);
    put_counted(
        &mut line,
        b"gmus: input refused: ",
        u64::from(offence.number),
    )?;
    line.extend_from_slice(b" ")?;
    line.extend_from_slice(offence.name().as_bytes())?;
    line.extend_from_slice(text_of_limit(offence.limit).as_bytes())?;
    put_counted(&mut line, b" at line ", offence.line)?;
    put_counted(&mut line, b" byte ", offence.byte)?;
    line.extend_from_slice(b"\n")?;
    Ok(line)
}

/// The line of the evidence, and the number and the name of what it is refused for.
#[tactic(auto, unfolding(crate::specs::Refusals::evidence_line))]
pub fn line_of_evidence(alloc: Global, line: u64, why: &Why) -> Result<Vec<u8>, AllocError>
    ensures { IfOk result (λ text. text.items ≡ evidence_line (record { line = line; why = why.now })) }
{
    let mut text = Vec::new(alloc);
    put_counted(&mut text, b"gmus: evidence refused: line ", line)?;
    put_counted(&mut text, b": ", u64::from(why.number()))?;
    text.extend_from_slice(b" ")?;
    text.extend_from_slice(why.name().as_bytes())?;
    text.extend_from_slice(b"\n")?;
    Ok(text)
}
