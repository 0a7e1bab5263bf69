//! The seat.
//!
//! A seat is the right to make turns at one lock, one after the other. Between two turns it holds no slot of the
//! lock's table, so it lies here as a badge, whose type does not name the book: a worker that has a seat need not know
//! which book is under the lock, and can have a second seat at a lock with another one. A crate with one kind of book
//! gives its seats a short name, as `type Seat = turn_lock::Seat<Entry, Opening>`.
ghost use Rattle.std.specs.Prelude.{◌≡◌};
ghost use Rattle.turn_lock.specs.Seats.{SeatView};

use crate::view::View;
use atomic_table::Badge;
use std::marker::Model;

/// The right to make turns at one lock, whose book has entries `E` and was opened with an `O`.
///
/// Contracts see the seat's number, the history as far as the seat has seen it, and the seat's own entries.
#[derive(Drop)]
pub struct Seat<E, O> {
    pub(crate) number: u32,
    pub(crate) badge: Badge<View<E, O>>,
    // How many looks its turns have waited in all.
    pub(crate) looks: u64,
}

impl<E, O> Model for Seat<E, O> {
    ghost use Rattle.turn_lock.specs.Seats.{SeatView};
    ghost use Rattle.turn_lock.specs.Badges.{view_of, seat_view, IsResting};

    ghost Value = { SeatView E O };

    ghost view = { λ s. seat_view s.badge.table_id s.number (view_of s.badge.views) };

    ghost invariant = { λ s. IsResting s.number s.badge.views };
}

impl<E, O> Seat<E, O> {
    /// By which the lock's entries name the seat.
    pub fn number(&self) -> u32
        ensures { result ≡ self.now.number }
    {
        self.number
    }

    /// How many times in all it has looked and found that its turn had not come. No clause speaks of it.
    pub fn looks(&self) -> u64 {
        self.looks
    }
}
