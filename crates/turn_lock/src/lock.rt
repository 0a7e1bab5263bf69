//! The lock: how it is made with its seats, and how it ends.
ghost use Rattle.std.specs.Prelude.{◌≡◌, ◌<◌, ◌≤◌, ◌+◌, ℕ, [], map, All, IfOk, IfErr, length, slice_index_or, vec_capacity};
ghost use Rattle.turn_lock.specs.declared.view.Stage.TheVariants.{Idle};
ghost use Rattle.turn_lock.specs.Moves.{made_view, with_notes};
ghost use Rattle.turn_lock.specs.Seats.{SeatView, new_seat, AreNew, AreAll, HasAll};
ghost use Rattle.turn_lock.specs.Closings.{note_of, IfClosed};

use crate::book::Book;
use crate::moves::{Deal, Gather, Ticketed};
use crate::seat::Seat;
use crate::view::View;
use atomic_table::{Refused, Shared, Table};
use std::alloc::Global;
use std::marker::Model;
use std::snapshot::Snapshot;

// The word that has the next ticket.
pub(crate) const TICKET: usize = 0;

// The word that has the ticket whose turn it is.
pub(crate) const SERVING: usize = 1;

type Knows<B> = View<<B as Book>::Entry, <B as Book>::Opening>;

type Whole<B> = Table<Option<B>, Knows<B>, Snapshot<B>, Ticketed<B>, Global>;

pub(crate) type Top<B> = Shared<Option<B>, Knows<B>, Snapshot<B>, Ticketed<B>>;

pub(crate) type Place<B> = atomic_table::Seat<Option<B>, Knows<B>>;

/// A book, and the turns that are made at it.
#[derive(Drop)]
pub struct TurnLock<B: Book> {
    pub(crate) table: Whole<B>,
}

impl<B: Book> Model for TurnLock<B> {
    ghost use Rattle.std.specs.Prelude.{◌≡◌};
    ghost use Rattle.turn_lock.specs.Seats.{LockView};

    ghost Value = { LockView B.Opening };

    ghost view = { λ l. record { id = l.table.shared.table_id; opening = B.opening l.table.shared.key.value } };

    ghost invariant = { λ l. (l.table.shared.table_id.words ≡ 2) × (l.table.shared.table_id.slots ≡ 1) };
}

/// There was no memory for a lock. The book comes back.
#[derive(Drop)]
pub struct NoRoom<B> {
    pub book: B,
}

/// How a lock ends.
#[derive(Drop)]
pub enum LockClosing<B: Book> {
    /// The book is out.
    Closed(B),
    /// There was no memory for it: the lock goes on, with all its seats. `close` needs none, so this is never answered.
    Held(TurnLock<B>, Vec<Seat<B::Entry, B::Opening>>),
}

impl<B: Book> TurnLock<B> {
    /// A lock around a book that nobody has called, and its seats, numbered from 0 in the order of the list.
    pub fn start(
        alloc: Global,
        book: B,
        seats: u32,
    ) -> Result<(TurnLock<B>, Vec<Seat<B::Entry, B::Opening>>), NoRoom<B>>
        requires seats { 0 < seats }
        requires empty { B.history book ≡ [] }
        requires legal { B.legal (B.opening book) [] }
        ensures opening { IfOk result (λ r. r.0.opening ≡ B.opening book) }
        ensures seats { IfOk result (λ r. AreNew r.0 seats r.1.items) }
        ensures err { IfErr result (λ r. r.book ≡ book) }
    {
        let Ok(mut list) = Vec::with_capacity(alloc, seats as usize) else {
            return Err(NoRoom { book });
        };
        let Ok(mut slots) = Vec::with_capacity(alloc, 1) else {
            return Err(NoRoom { book });
        };
        let about = Snapshot::of(&book);
        slots.push_reserved(Some(book));
        match Whole::<B>::new(alloc, &[0, 0], slots, &about) {
            Ok((table, mut place)) => {
                deal(&table.shared, &mut place, &mut list, seats);
                let badge = place.into_badge();
                // The list was made with room for all seats.
                let Ok(()) = list.insert(
                    0,
                    Seat {
                        number: 0,
                        badge,
                        looks: 0,
                    },
                ) else {
                    unreachable!()
                };
                Ok((TurnLock { table }, list))
            }
            Err(Refused { mut slots }) => {
                let Some(Some(book)) = slots.pop() else {
                    unreachable!()
                };
                slots.destroy_empty();
                Err(NoRoom { book })
            }
        }
    }

    /// Ends the lock and gives its book. It takes all seats that `start` gave, in their order, and no memory.
    pub fn close(self, mut seats: Vec<Seat<B::Entry, B::Opening>>) -> LockClosing<B>
        requires { AreAll self seats.items }
        ensures opening { IfClosed result (λ book. B.opening book ≡ self.opening) }
        ensures history { IfClosed result (λ book. HasAll B.caller B.legal self.opening seats.items (B.history book)) }
    {
        let TurnLock { table } = self;
        let Seat {
            number: _,
            badge,
            looks: _,
        } = seats.remove(0);
        let mut place = badge.into_seat();
        gather(&table.shared, &mut place, &mut seats);
        seats.destroy_empty();
        let mut closed = table.close_with(place);
        let slot = closed.take(0);
        closed.free();
        match slot {
            Some(book) => LockClosing::Closed(book),
            None => unreachable!(),
        }
    }
}

// Makes the seats from the second on.
fn deal<B: Book>(
    top: &Top<B>,
    place: &mut Place<B>,
    list: &mut Vec<Seat<B::Entry, B::Opening>>,
    seats: u32,
)
    requires table { (place.old.table_id ≡ top.now.table_id) × (top.now.table_id.words ≡ 2) }
    requires first { place.old.me ≡ (made_view (B.opening top.now.key.value) 1, []) }
    requires room { (list.old.items ≡ []) × (0 < seats) × (seats ≤ vec_capacity list.old) }
    ensures same { (place.new.table_id ≡ place.old.table_id) × (place.new.id ≡ place.old.id) }
    ensures first { place.new.me ≡ (made_view (B.opening top.now.key.value) seats, []) }
    ensures others { (length list.new.items + 1 ≡ seats) × ((k : ℕ) (d : SeatView B.Entry B.Opening) → k < length list.new.items → slice_index_or list.new.items k d ≡ new_seat top.now.table_id (B.opening top.now.key.value) 0 (k + 1)) }
    ensures room { vec_capacity list.new ≡ vec_capacity list.old }
{
    for number in 1..seats {
        let badge = top.split_seat::<Deal>(place).into_badge();
        list.push_reserved(Seat {
            number,
            badge,
            looks: 0,
        });
    }
}

// Joins the other seats into the first, the last one first.
fn gather<B: Book>(top: &Top<B>, place: &mut Place<B>, others: &mut Vec<Seat<B::Entry, B::Opening>>)
    requires table { (place.old.table_id ≡ top.now.table_id) × (top.now.table_id.words ≡ 2) }
    requires first { (place.old.me.1 ≡ []) × (place.old.me.0.stage ≡ Idle) × (place.old.me.0.joined ≡ []) }
    requires others { All (λ s. s.lock ≡ top.now.table_id) others.old.items }
    ensures same { (place.new.table_id ≡ place.old.table_id) × (place.new.id ≡ place.old.id) }
    ensures joined { place.new.me ≡ (with_notes place.old.me.0 (map note_of others.old.items), []) }
    ensures empty { others.new.items ≡ [] }
{
    while let Some(seat) = others.pop() {
        let Seat {
            number: _,
            badge,
            looks: _,
        } = seat;
        top.join_seat::<Gather>(place, badge.into_seat());
    }
}
