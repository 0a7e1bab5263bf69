//! A script is played: its calls are handed on in their order, and what they answer is printed.
use crate::line::{Line, line_of};
use crate::step::Step;
use std::alloc::{AllocError, Global};
use std::rt::Files;
use std::{fs, io};

/// What the calls of a script are made of.
pub trait Player {
    /// A case begins: all is as it was at first.
    fn begin(&mut self, alloc: Global) -> Result<(), AllocError>;

    /// Makes a call, and adds what it answers to `out`, in lines that each have an end. Answers whether it knows the call.
    fn call(
        &mut self,
        alloc: Global,
        step: &Step<'_>,
        out: &mut String,
    ) -> Result<bool, AllocError>;
}

/// Plays the script that the file of this name has, and prints its cases and answers.
pub fn play<R: Files + Print + AllocGlobal, P: Player>(
    rt: &R,
    name: &str,
    player: &mut P,
) -> io::Result<()> {
    let script = fs::read_to_string(rt, name)?;
    play_lines(rt, script.as_str(), player)
}

fn play_lines<R: Print + AllocGlobal, P: Player>(
    rt: &R,
    script: &str,
    player: &mut P,
) -> io::Result<()> {
    let mut waiting = None;
    for line in script.split('\n') {
        play_line(rt, player, &mut waiting, line)?;
    }
    play_waiting(rt, player, &mut waiting)
}

/// Plays a line behind the call that waits for its text, if one does.
fn play_line<'a, R: Print + AllocGlobal, P: Player>(
    rt: &R,
    player: &mut P,
    waiting: &mut Option<Step<'a>>,
    line: &'a str,
) -> io::Result<()> {
    match line_of(line) {
        Line::Case(_) => begin_case(rt, player, waiting, line),
        Line::Call(words) => begin_call(rt, player, waiting, words),
        Line::Text(text, has_end) => match waiting {
            Some(step) => Ok(step.push_text(text, has_end)?),
            None => print_unknown(rt, line),
        },
        Line::Passed => Ok(()),
    }
}

fn begin_case<R: Print + AllocGlobal, P: Player>(
    rt: &R,
    player: &mut P,
    waiting: &mut Option<Step<'_>>,
    line: &str,
) -> io::Result<()> {
    play_waiting(rt, player, waiting)?;
    print_line(rt, line)?;
    Ok(player.begin(rt.alloc())?)
}

/// Has a call wait for its text, behind the one that waits.
fn begin_call<'a, R: Print + AllocGlobal, P: Player>(
    rt: &R,
    player: &mut P,
    waiting: &mut Option<Step<'a>>,
    words: &'a str,
) -> io::Result<()> {
    play_waiting(rt, player, waiting)?;
    *waiting = Some(Step::new(rt.alloc(), words)?);
    Ok(())
}

/// Makes the call that waits, if one does, and prints what it answers.
fn play_waiting<R: Print + AllocGlobal, P: Player>(
    rt: &R,
    player: &mut P,
    waiting: &mut Option<Step<'_>>,
) -> io::Result<()> {
    if let Some(step) = waiting {
        play_step(rt, player, step)?;
    }
    *waiting = None;
    Ok(())
}

/// Makes a call, and prints what it answers.
fn play_step<R: Print + AllocGlobal, P: Player>(
    rt: &R,
    player: &mut P,
    step: &Step<'_>,
) -> io::Result<()> {
    let mut out = String::new(rt.alloc());
    let is_known = player.call(rt.alloc(), step, &mut out)?;
    rt.print(out.as_str())?;
    if is_known {
        Ok(())
    } else {
        print_unknown(rt, step.line())
    }
}

/// Prints a line that is not known.
fn print_unknown<R: Print>(rt: &R, line: &str) -> io::Result<()> {
    rt.print("? ")?;
    print_line(rt, line)
}

fn print_line<R: Print>(rt: &R, line: &str) -> io::Result<()> {
    rt.print(line)?;
    rt.print("\n")
}
