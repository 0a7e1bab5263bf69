//! The clauses.
//!
//! What a clause may hold is bounded by the header and by the literals of the clauses before it, so each token is looked at
//! once, with the progress at hand. The forms of a text differ in what stands before a clause's literals and behind the
//! last clause, and agree in the literals. These are gathered in one scratch list, which serves all clauses, and are then
//! copied into a list of just their size.
ghost use Rattle.std.specs.Prelude.{◌≡◌, ◌≤◌, ◌<◌, ◌^◌, ℕ, [], ◌∷◌, pos, IfOk};
ghost use Rattle.token_text.specs.Kinds.{Number, OpenBrace, CloseBrace};
ghost use Rattle.sat_base.specs.Literals.{AreLiterals};
ghost use Rattle.gm_base.specs.Problem.{IsClause};
ghost use Rattle.gcnf_text.specs.Grammar.{clause_kinds, group_kinds, is_end_mark, max_literals};
ghost use Rattle.gcnf_text.specs.Table as table;
ghost use Rattle.gcnf_text.specs.declared.form.Form.TheVariants as form_is;
ghost use Rattle.gcnf_text.specs.Steps.{AreClausesRead, Ends, FitsNext, IsFresh, IsGroupOf, IsLiteralDue, Step, StepUnlessMemory, behind_clause, behind_group, behind_literal, behind_literals, literal_kind, literals_kinds, sofar};

use crate::form::Form;
use crate::offence::{
    BAD_TOKEN, GROUP_TOO_BIG, Limit, NO_GROUP, Offence, Stop, TOO_MANY_CLAUSES, TRUNCATED,
    VAR_TOO_BIG, refusal, too_large,
};
use crate::progress::Progress;
use gm_base::{Clause, Clauses, Lit, Lits};
use std::alloc::Global;
use token_text::{Found, Tokens};

/// The most literals in all clauses.
const MAX_LITERALS: u32 = 8_000_000;

/// Reads all clauses that the header counts, and then the end.
pub(crate) fn read_clauses(
    alloc: Global,
    tokens: &mut Tokens<'_>,
    header: Progress,
) -> Result<Clauses, Stop>
    requires { IsFresh header.form (sofar header) }
    ensures { AreClausesRead header.form (sofar header) tokens.old result }
{
    let mut progress = header;
    let mut scratch = Vec::new(alloc);
    let mut clauses = Clauses::new(alloc);
    'clauses: while progress.ended < progress.clauses {
        let clause = read_clause(alloc, tokens, &mut progress, &mut scratch)?;
        clauses.push(clause)?;
    }
    read_end(tokens, progress.form)?;
    Ok(clauses)
}

/// Reads a clause.
fn read_clause(
    alloc: Global,
    tokens: &mut Tokens<'_>,
    progress: &mut Progress,
    scratch: &mut Vec<Lit>,
) -> Result<Clause, Stop>
    requires small { progress.old.vars < 2 ^ 31 }
    requires unended { progress.old.ended < progress.old.clauses }
    requires own { progress.old.form ≡ form_is.Cnf → progress.old.groups ≡ progress.old.clauses }
    requires room { progress.old.literals ≤ max_literals }
    ensures step { StepUnlessMemory (table.Between progress.old.form (sofar progress.old)) (clause_kinds progress.old.form)
        (λ c. table.Between progress.old.form (behind_clause (sofar progress.old) c)) tokens.old tokens.new result }
    ensures counted { IfOk result (λ c. sofar progress.new ≡ behind_clause (sofar progress.old) c) }
    ensures form { progress.new.form ≡ progress.old.form }
    ensures room { progress.new.literals ≤ max_literals }
    ensures fits { IfOk result (IsClause progress.old.vars progress.old.groups) }
    ensures group { IfOk result (λ c. IsGroupOf progress.old.form (sofar progress.old) c.group) }
{
    let group = read_start(tokens, *progress)?;
    read_literals(tokens, progress, scratch)?;
    let lits = Lits::from_slice(alloc, scratch.as_slice())?;
    Ok(Clause { group, lits })
}

/// Reads what stands before a clause's literals: its group in GCNF. In CNF that is nothing, and the group is its place.
fn read_start(tokens: &mut Tokens<'_>, progress: Progress) -> Result<u32, Offence>
    requires unended { progress.ended < progress.clauses }
    requires own { progress.form ≡ form_is.Cnf → progress.groups ≡ progress.clauses }
    ensures step { Step (table.Between progress.form (sofar progress)) (group_kinds progress.form)
        (λ _. behind_group progress.form (sofar progress)) tokens.old tokens.new result }
    ensures fits { IfOk result (λ g. g ≤ progress.groups) }
    ensures group { IfOk result (IsGroupOf progress.form (sofar progress)) }
{
    match progress.form {
        Form::Gcnf => read_braces(tokens, progress),
        Form::Cnf => Ok(progress.ended + 1),
    }
}

/// Reads the group of a clause in braces.
fn read_braces(tokens: &mut Tokens<'_>, progress: Progress) -> Result<u32, Offence>
    requires { progress.ended < progress.clauses }
    ensures step { Step (table.Between form_is.Gcnf (sofar progress)) (group_kinds form_is.Gcnf)
        (λ _. table.Literals form_is.Gcnf (sofar progress)) tokens.old tokens.new result }
    ensures fits { IfOk result (λ g. g ≤ progress.groups) }
{
    read_open(tokens)?;
    let group = read_group(tokens, progress)?;
    read_close(tokens)?;
    Ok(group)
}

/// Reads the brace that a clause begins by.
fn read_open(tokens: &mut Tokens<'_>) -> Result<(), Offence>
    ensures { (s : table.Sofar) → s.ended < s.clauses
        → Step (table.Between form_is.Gcnf s) (λ _. OpenBrace ∷ []) (λ _. table.Group s) tokens.old tokens.new result }
{
    let answer = tokens.next();
    match answer.found {
        Found::OpenBrace => Ok(()),
        Found::Number(_) => Err(refusal(NO_GROUP, answer)),
        Found::End => Err(refusal(TRUNCATED, answer)),
        _ => Err(refusal(BAD_TOKEN, answer)),
    }
}

/// Reads the group of a clause.
fn read_group(tokens: &mut Tokens<'_>, progress: Progress) -> Result<u32, Offence>
    ensures step { Step (table.Group (sofar progress)) (λ g. Number (pos g) ∷ []) (λ _. table.Close (sofar progress)) tokens.old tokens.new result }
    ensures fits { IfOk result (λ g. g ≤ progress.groups) }
{
    let answer = tokens.next();
    let groups = i64::from(progress.groups);
    match answer.found {
        Found::Number(number) if number > groups => Err(refusal(GROUP_TOO_BIG, answer)),
        Found::Number(number) if number >= 0 => Ok(number as u32),
        Found::End => Err(refusal(TRUNCATED, answer)),
        _ => Err(refusal(BAD_TOKEN, answer)),
    }
}

/// Reads the brace behind the group of a clause.
fn read_close(tokens: &mut Tokens<'_>) -> Result<(), Offence>
    ensures { (s : table.Sofar) → Step (table.Close s) (λ _. CloseBrace ∷ []) (λ _. table.Literals form_is.Gcnf s) tokens.old tokens.new result }
{
    let answer = tokens.next();
    match answer.found {
        Found::CloseBrace => Ok(()),
        Found::End => Err(refusal(TRUNCATED, answer)),
        _ => Err(refusal(BAD_TOKEN, answer)),
    }
}

/// Reads the literals of a clause into `scratch`, and the 0 that ends it.
fn read_literals(
    tokens: &mut Tokens<'_>,
    progress: &mut Progress,
    scratch: &mut Vec<Lit>,
) -> Result<(), Stop>
    requires small { progress.old.vars < 2 ^ 31 }
    requires unended { progress.old.ended < progress.old.clauses }
    requires room { progress.old.literals ≤ max_literals }
    ensures step { StepUnlessMemory (behind_group progress.old.form (sofar progress.old)) (λ _. literals_kinds scratch.new.items)
        (λ _. table.Between progress.old.form (behind_literals (sofar progress.old) scratch.new.items)) tokens.old tokens.new result }
    ensures counted { IfOk result (λ _. sofar progress.new ≡ behind_literals (sofar progress.old) scratch.new.items) }
    ensures form { progress.new.form ≡ progress.old.form }
    ensures fits { IfOk result (λ _. AreLiterals progress.old.vars scratch.new.items) }
    ensures room { progress.new.literals ≤ max_literals }
{
    scratch.clear();
    let mut end_mark = end_mark_at_start(progress.form);
    'literals: while let Some(lit) = read_literal(tokens, *progress, end_mark)? {
        end_mark = BAD_TOKEN;
        scratch.push(lit)?;
        progress.literals += 1;
    }
    progress.ended += 1;
    Ok(())
}

/// The offence of an end mark where the first literal of a clause is due: in CNF a whole clause is still due there.
fn end_mark_at_start(form: Form) -> u32
    ensures { (s : table.Sofar) → s.ended < s.clauses → IsLiteralDue form s result (behind_group form s) }
{
    match form {
        Form::Gcnf => BAD_TOKEN,
        Form::Cnf => TRUNCATED,
    }
}

/// Reads a literal, or the 0 that ends the clause. An end mark has this offence.
fn read_literal(
    tokens: &mut Tokens<'_>,
    progress: Progress,
    end_mark: u32,
) -> Result<Option<Lit>, Offence>
    requires { progress.vars < 2 ^ 31 }
    ensures step { (due : table.Due) → IsLiteralDue progress.form (sofar progress) end_mark due
        → Step due literal_kind (behind_literal progress.form (sofar progress)) tokens.old tokens.new result }
    ensures fits { IfOk result (FitsNext (sofar progress)) }
{
    let answer = tokens.next();
    let vars = u64::from(progress.vars);
    let is_full = progress.literals >= MAX_LITERALS;
    match answer.found {
        Found::Number(0) => Ok(None),
        Found::Number(number) if number.unsigned_abs() > vars => Err(refusal(VAR_TOO_BIG, answer)),
        Found::Number(_) if is_full => Err(too_large(Limit::Literals, answer)),
        Found::Number(number) => Ok(Some(Lit::new(number as i32))),
        Found::End => Err(refusal(TRUNCATED, answer)),
        Found::Word(word) if is_end_mark(word) => Err(refusal(end_mark, answer)),
        _ => Err(refusal(BAD_TOKEN, answer)),
    }
}

/// Reads what stands behind the last clause.
fn read_end(tokens: &mut Tokens<'_>, form: Form) -> Result<(), Offence>
    ensures { (s : table.Sofar) → s.ended ≡ s.clauses → Ends form (table.Between form s) tokens.old result }
{
    match form {
        Form::Gcnf => read_gcnf_end(tokens),
        Form::Cnf => read_cnf_end(tokens),
    }
}

/// Reads the end of the text.
fn read_gcnf_end(tokens: &mut Tokens<'_>) -> Result<(), Offence>
    ensures { (s : table.Sofar) → s.ended ≡ s.clauses → Ends form_is.Gcnf (table.Between form_is.Gcnf s) tokens.old result }
{
    let answer = tokens.next();
    match answer.found {
        Found::End => Ok(()),
        Found::OpenBrace | Found::Number(_) => Err(refusal(TOO_MANY_CLAUSES, answer)),
        _ => Err(refusal(BAD_TOKEN, answer)),
    }
}

/// Reads the end of the text or an end mark, behind which nothing is read.
fn read_cnf_end(tokens: &mut Tokens<'_>) -> Result<(), Offence>
    ensures { (s : table.Sofar) → s.ended ≡ s.clauses → Ends form_is.Cnf (table.Between form_is.Cnf s) tokens.old result }
{
    let answer = tokens.next();
    match answer.found {
        Found::End => Ok(()),
        Found::Word(word) if is_end_mark(word) => Ok(()),
        Found::Number(_) => Err(refusal(TOO_MANY_CLAUSES, answer)),
        _ => Err(refusal(BAD_TOKEN, answer)),
    }
}

/// Whether a word begins with `%`.
fn is_end_mark(word: &[u8]) -> bool
    ensures { result ≡ is_end_mark word.now }
{
    word.first() == Some(&b'%')
}
