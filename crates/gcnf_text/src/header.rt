//! The header, whose numbers bound all that comes after it.
ghost use Rattle.std.specs.Prelude.{◌≡◌, ◌≤◌, ℕ, [], ◌∷◌, pos, IfOk};
ghost use Rattle.token_text.specs.Kinds.{Number};
ghost use Rattle.gcnf_text.specs.Grammar.{header_kinds, max_groups};
ghost use Rattle.gcnf_text.specs.Table as table;
ghost use Rattle.gcnf_text.specs.declared.form.Form.TheVariants as form_is;
ghost use Rattle.gcnf_text.specs.Steps.{AreCounts, IsFresh, IsNumberDue, Step, count_kinds, is_word, sofar, word_kinds};

use crate::form::Form;
use crate::offence::{BAD_HEADER, Limit, NO_HEADER, Offence, refusal, too_large};
use crate::progress::Progress;
use token_text::{Found, Tokens};

/// The greatest variable that a header may have.
const MAX_VARS: u32 = 4_194_304;

/// The most clauses.
const MAX_CLAUSES: u32 = 16_777_216;

/// The greatest group.
const MAX_GROUPS: u32 = 1_048_576;

/// Reads a header. Nothing behind it was read yet.
pub(crate) fn read_header(tokens: &mut Tokens<'_>) -> Result<Progress, Offence>
    ensures step { Step table.Start (λ p. header_kinds p.form p.vars p.clauses p.groups) (λ p. table.Between p.form (sofar p)) tokens.old tokens.new result }
    ensures fresh { IfOk result (λ p. IsFresh p.form (sofar p)) }
{
    let form = read_words(tokens)?;
    let vars = read_number(tokens, MAX_VARS, Limit::Vars)?;
    let (clauses, groups) = read_counts(tokens, form)?;
    Ok(Progress {
        form,
        vars,
        clauses,
        groups,
        ended: 0,
        literals: 0,
    })
}

/// Reads the two words that a text begins by.
fn read_words(tokens: &mut Tokens<'_>) -> Result<Form, Offence>
    ensures { Step table.Start word_kinds table.Vars tokens.old tokens.new result }
{
    let first = tokens.next();
    if !is_word(first.found, b"p") {
        return Err(refusal(NO_HEADER, first));
    }
    let second = tokens.next();
    if is_word(second.found, b"gcnf") {
        return Ok(Form::Gcnf);
    }
    if is_word(second.found, b"cnf") {
        return Ok(Form::Cnf);
    }
    Err(refusal(BAD_HEADER, second))
}

/// Whether this word was found.
fn is_word(found: Found<'_>, word: &[u8]) -> bool
    ensures { result ≡ is_word found.entry word.now }
{
    match found {
        Found::Word(bytes) => bytes == word,
        _ => false,
    }
}

/// Reads how many clauses there are, and the greatest group, which in CNF is the last clause's.
fn read_counts(tokens: &mut Tokens<'_>, form: Form) -> Result<(u32, u32), Offence>
    ensures step { (vars : ℕ) → Step (table.Clauses form vars) (λ c. count_kinds form c.0 c.1)
        (λ c. table.Between form (table.behind_header vars c.0 c.1)) tokens.old tokens.new result }
    ensures fit { IfOk result (λ c. AreCounts form c.0 c.1) }
{
    match form {
        Form::Gcnf => {
            let clauses = read_number(tokens, MAX_CLAUSES, Limit::Clauses)?;
            let groups = read_number(tokens, MAX_GROUPS, Limit::Groups)?;
            Ok((clauses, groups))
        }
        Form::Cnf => {
            let clauses = read_own_groups(tokens)?;
            Ok((clauses, clauses))
        }
    }
}

/// Reads how many clauses there are in CNF, where each is a group.
fn read_own_groups(tokens: &mut Tokens<'_>) -> Result<u32, Offence>
    ensures step { (vars : ℕ) → Step (table.Clauses form_is.Cnf vars) (λ n. Number (pos n) ∷ [])
        (λ n. table.Between form_is.Cnf (table.behind_header vars n n)) tokens.old tokens.new result }
    ensures fits { IfOk result (λ n. n ≤ max_groups) }
{
    let answer = tokens.next();
    match answer.found {
        Found::Number(number) if number > i64::from(MAX_CLAUSES) => {
            Err(too_large(Limit::Clauses, answer))
        }
        Found::Number(number) if number > i64::from(MAX_GROUPS) => {
            Err(too_large(Limit::Groups, answer))
        }
        Found::Number(number) if number >= 0 => Ok(number as u32),
        _ => Err(refusal(BAD_HEADER, answer)),
    }
}

/// Reads a number that has a limit.
fn read_number(tokens: &mut Tokens<'_>, most: u32, limit: Limit) -> Result<u32, Offence>
    ensures step { (due : table.Due) (next : ℕ → table.Due) → IsNumberDue due most limit next
        → Step due (λ n. Number (pos n) ∷ []) next tokens.old tokens.new result }
    ensures fits { IfOk result (λ n. n ≤ most) }
{
    let answer = tokens.next();
    match answer.found {
        Found::Number(number) if number > i64::from(most) => Err(too_large(limit, answer)),
        Found::Number(number) if number >= 0 => Ok(number as u32),
        _ => Err(refusal(BAD_HEADER, answer)),
    }
}
