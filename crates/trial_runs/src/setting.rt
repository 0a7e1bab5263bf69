//! What a case says of the world of its runs.
use crate::lines::first_line;
use crate::shelf::Shelf;
use std::alloc::{AllocError, Global};
use trial_script::Step;

/// What is read and written, in five kinds.
#[derive(Clone, Copy)]
pub enum Kind {
    Reads,
    Writes,
    Disk,
    Report,
    Errors,
}

/// The kind of this name.
pub fn kind_of(word: &str) -> Option<Kind> {
    match word {
        "reads" => Some(Kind::Reads),
        "writes" => Some(Kind::Writes),
        "disk" => Some(Kind::Disk),
        "report" => Some(Kind::Report),
        "errors" => Some(Kind::Errors),
        _ => None,
    }
}

/// How many bytes a call moves at most, and which calls fail.
#[derive(Drop)]
pub struct Moves {
    pub most: usize,
    pub failing: Vec<u64>,
}

impl Moves {
    fn new(alloc: Global, most: usize) -> Self {
        Moves {
            most,
            failing: Vec::new(alloc),
        }
    }
}

/// A file that may be written, and how far.
#[derive(Drop)]
pub struct Room {
    pub name: String,
    pub bytes: u64,
}

/// The world of a run: what is held, what may be written, what a call moves at most and which calls fail.
#[derive(Drop)]
pub struct Setting {
    pub held: Shelf,
    pub rooms: Vec<Room>,
    pub reads: Moves,
    pub writes: Moves,
    /// A disk has no greatest number of bytes.
    pub disk: Moves,
    /// What the disk holds.
    pub bytes: Vec<u8>,
    pub report: Moves,
    pub errors: Moves,
    pub is_sure: bool,
    pub meets: bool,
}

impl Setting {
    /// No file, and no call that fails.
    pub fn new(alloc: Global) -> Self {
        Setting {
            held: Shelf::new(alloc),
            rooms: Vec::new(alloc),
            reads: Moves::new(alloc, 1000),
            writes: Moves::new(alloc, 1000),
            disk: Moves::new(alloc, 1000),
            bytes: Vec::new(alloc),
            report: Moves::new(alloc, 1000),
            errors: Moves::new(alloc, 7),
            is_sure: false,
            meets: false,
        }
    }

    fn moves(&mut self, kind: Kind) -> &mut Moves {
        match kind {
            Kind::Reads => &mut self.reads,
            Kind::Writes => &mut self.writes,
            Kind::Disk => &mut self.disk,
            Kind::Report => &mut self.report,
            Kind::Errors => &mut self.errors,
        }
    }

    /// Has these calls of a kind fail.
    pub fn fail(&mut self, kind: Kind, numbers: Vec<u64>) {
        self.moves(kind).failing = numbers;
    }

    /// Does what a call says of the world. Answers whether it is one that does.
    pub fn set(
        &mut self,
        alloc: Global,
        shelf: &Shelf,
        step: &Step<'_>,
    ) -> Result<bool, AllocError> {
        match step.word(0) {
            "hold" => self.hold(alloc, shelf, step),
            "change" => self.change(alloc, step),
            "room" => self.add_room(alloc, step),
            "per" => Ok(self.set_most(step)),
            "fail" => self.set_failing(alloc, step),
            "byte" => self.add_bytes(alloc, step),
            "sure" => {
                self.is_sure = true;
                Ok(true)
            }
            "meet" => {
                self.meets = true;
                Ok(true)
            }
            _ => Ok(false),
        }
    }

    fn hold(&mut self, alloc: Global, shelf: &Shelf, step: &Step<'_>) -> Result<bool, AllocError> {
        let Some(text) = text_of(alloc, shelf, step)? else {
            return Ok(false);
        };
        self.held.put(alloc, step.word(1), text)?;
        Ok(true)
    }

    /// Holds a text under a name.
    pub fn hold_text(&mut self, alloc: Global, name: &str, text: &[u8]) -> Result<(), AllocError> {
        let text = Vec::from_slice(alloc, text)?;
        self.held.put(alloc, name, text)
    }

    fn change(&mut self, alloc: Global, step: &Step<'_>) -> Result<bool, AllocError> {
        let (Some(from), Some(count)) = (step.number(2), step.number(3)) else {
            return Ok(false);
        };
        let Some(text) = self.held.find(step.word(1)) else {
            return Ok(false);
        };
        let changed = changed_text(alloc, text, from, count, step.text())?;
        self.held.put(alloc, step.word(1), changed)?;
        Ok(true)
    }

    fn add_room(&mut self, alloc: Global, step: &Step<'_>) -> Result<bool, AllocError> {
        let Some(bytes) = step.amount(2) else {
            return Ok(false);
        };
        let name = String::from_str(alloc, step.word(1))?;
        self.rooms.push(Room { name, bytes })?;
        Ok(true)
    }

    fn set_most(&mut self, step: &Step<'_>) -> bool {
        let (Some(kind), Some(most)) = (kind_of(step.word(1)), step.amount(2)) else {
            return false;
        };
        self.moves(kind).most = most as usize;
        true
    }

    fn add_bytes(&mut self, alloc: Global, step: &Step<'_>) -> Result<bool, AllocError> {
        let Some(numbers) = step.numbers(alloc, 1)? else {
            return Ok(false);
        };
        for number in numbers {
            let Ok(byte) = u8::try_from(number) else {
                return Ok(false);
            };
            self.bytes.push(byte)?;
        }
        Ok(true)
    }

    fn set_failing(&mut self, alloc: Global, step: &Step<'_>) -> Result<bool, AllocError> {
        let Some(kind) = kind_of(step.word(1)) else {
            return Ok(false);
        };
        let Some(calls) = calls_of(alloc, step)? else {
            return Ok(false);
        };
        self.fail(kind, calls);
        Ok(true)
    }
}

/// The numbers of the calls that are to fail, if each is one.
fn calls_of(alloc: Global, step: &Step<'_>) -> Result<Option<Vec<u64>>, AllocError> {
    let Some(numbers) = step.numbers(alloc, 2)? else {
        return Ok(None);
    };
    let mut calls = Vec::new(alloc);
    for number in numbers {
        let Ok(call) = u64::try_from(number) else {
            return Ok(None);
        };
        calls.push(call)?;
    }
    Ok(Some(calls))
}

/// The texts that the call names, from its third word on, and the lines below it; nothing where there is no such text.
pub fn text_of(
    alloc: Global,
    shelf: &Shelf,
    step: &Step<'_>,
) -> Result<Option<Vec<u8>>, AllocError> {
    let mut text = Vec::new(alloc);
    for name in step.words().iter().skip(2) {
        let Some(part) = shelf.find(name) else {
            return Ok(None);
        };
        text.extend_from_slice(part)?;
    }
    text.extend_from_slice(step.text())?;
    Ok(Some(text))
}

/// The text, of which so many lines from this one on became others.
fn changed_text(
    alloc: Global,
    text: &[u8],
    from: i128,
    count: i128,
    lines: &[u8],
) -> Result<Vec<u8>, AllocError> {
    let until = from.saturating_add(count);
    let mut front = Vec::new(alloc);
    let mut behind = Vec::new(alloc);
    let mut rest = text;
    for at in 1..=text.len() {
        let Some((line, others)) = first_line(rest) else {
            break;
        };
        if (at as i128) < from {
            front.extend_from_slice(line)?;
        } else if at as i128 >= until {
            behind.extend_from_slice(line)?;
        }
        rest = others;
    }
    front.extend_from_slice(lines)?;
    front.extend_from_slice(behind.as_slice())?;
    Ok(front)
}
