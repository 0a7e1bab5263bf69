//! The moves of a turn, and the rule that each of them keeps.
//!
//! The table asks of each step that it keeps the table's rule, and gives back what the step tells. The types here name
//! the rule and the moves for it; no value of one is ever made. `specs/Rule.antt` has the rule and `specs/Moves.antt`
//! what each move tells.
ghost use Rattle.turn_lock.specs.Rule.{Kept};
ghost use Rattle.turn_lock.specs.Moves.{first_view, drawn, looked, passed, elder, younger, taken_in, spent_view};

use crate::book::Book;
use crate::view::View;
use atomic_table::{Join, Play, Split, TableRule};
use std::marker::PhantomData;
use std::snapshot::Snapshot;

/// The rule. Its key is the book as it was opened.
pub struct Ticketed<B> {
    book: PhantomData<B>,
}

impl<B: Book> TableRule<Option<B>, View<B::Entry, B::Opening>, Snapshot<B>> for Ticketed<B> {
    ghost holds = { λ key. Kept B.caller B.legal B.history B.opening (B.opening key.value) };

    ghost first = { λ key. first_view (B.opening key.value) };
}

/// A seat draws a ticket.
pub struct Draw;

impl<S, E, O> Play<S, View<E, O>> for Draw {
    ghost then = { drawn };
}

/// A seat looks which ticket is served, and takes the book out where it is its own.
pub struct Look<B> {
    book: PhantomData<B>,
}

impl<B: Book> Play<Option<B>, View<B::Entry, B::Opening>> for Look<B> {
    ghost then = { looked B.caller B.history B.opening };
}

/// A seat hands the book on to the next ticket.
pub struct Pass<B> {
    book: PhantomData<B>,
}

impl<B: Book> Play<Option<B>, View<B::Entry, B::Opening>> for Pass<B> {
    ghost then = { passed B.caller B.history };
}

/// The first seat makes another one.
pub struct Deal;

impl<E, O> Split<View<E, O>> for Deal {
    ghost left = { elder };

    ghost right = { younger };
}

/// A seat takes in another one.
pub struct Gather;

impl<E, O> Join<View<E, O>> for Gather {
    ghost both = { taken_in };

    ghost spent = { spent_view };
}
