//! What a seat knows.
//!
//! These types stand in proofs alone: the table keeps a view for each of its seats, and no value of one is ever made.
//! `LinkedList` is the plainest type that contracts see as a list.
use std::collections::LinkedList;

/// Where in a turn a seat is.
pub enum Stage {
    /// In none.
    Idle,
    /// It drew this ticket.
    Waits(u64),
    /// Its ticket is served, and the book is out with it.
    Holds(u64),
    /// It was joined into another seat, and is none any more.
    Spent,
}

/// What a seat knew when it was joined into another.
pub struct Note<E, O> {
    pub number: u32,
    pub seen: LinkedList<E>,
    pub mine: LinkedList<E>,
    pub opening: Option<O>,
}

/// What a seat knows.
pub struct View<E, O> {
    pub stage: Stage,
    pub number: u32,
    /// How many seats were made, at the first one, and 0 at each other.
    pub made: u64,
    /// The history, as far as the seat has seen it.
    pub seen: LinkedList<E>,
    /// Its own entries.
    pub mine: LinkedList<E>,
    /// What the seats that were joined into it knew, the last one first.
    pub joined: LinkedList<Note<E, O>>,
    /// What the book was opened with. None stands in a spent view alone.
    pub opening: Option<O>,
}
