//! A turn: draw a ticket, look until it is served and take the book out, apply the operation, pass the book on.
ghost use Rattle.std.specs.Prelude.{◌≡◌, ◌<◌, ◌^◌, [], ◌∷◌, ◌++◌, length, IfNone, IfSome, Some, None};
ghost use Rattle.turn_lock.specs.declared.view.Stage.TheVariants.{Idle, Waits, Holds};
ghost use Rattle.turn_lock.specs.Moves.{at_stage, holding, after_turn, GoesOn};
ghost use Rattle.turn_lock.specs.Seats.{IsSeatOf, IsSameSeat, IsTurn};

use crate::book::Book;
use crate::lock::{Place, SERVING, TICKET, Top, TurnLock};
use crate::moves::{Draw, Look, Pass};
use crate::seat::Seat;
use atomic_table::Badge;
use std::sync::Wait;
use std::{mem, thread};

impl<B: Book> TurnLock<B> {
    /// Makes one turn: applies `op` once to the book, as the last turn left it, and passes the book on.
    ///
    /// It may wait for other seats' turns. It takes no memory but what `apply` takes.
    pub fn turn<R: Wait>(
        &self,
        rt: &R,
        seat: &mut Seat<B::Entry, B::Opening>,
        op: B::Op,
    ) -> B::Reply
        requires seat { IsSeatOf self.now seat.old }
        requires may { B.may self.now.opening seat.old.number op seat.old.mine }
        ensures same { IsSameSeat seat.old seat.new }
        ensures turn { IsTurn B.caller B.legal B.tells self.now.opening seat.old op result seat.new }
    {
        let top = &self.table.shared;
        let mut place = mem::replace(&mut seat.badge, Badge::blank()).into_seat();
        let ticket = draw(top, &mut place);
        let mut book = await_turn(rt, top, &mut place, ticket, &mut seat.looks);
        let reply = book.apply(seat.number, op);
        give_back(top, &mut place, ticket, book);
        seat.badge = place.into_badge();
        reply
    }
}

fn draw<B: Book>(top: &Top<B>, place: &mut Place<B>) -> u64
    requires table { (place.old.table_id ≡ top.now.table_id) × (top.now.table_id.words ≡ 2) }
    requires idle { place.old.me.0.stage ≡ Idle }
    ensures same { (place.new.table_id ≡ place.old.table_id) × (place.new.id ≡ place.old.id) }
    ensures drawn { place.new.me ≡ (at_stage place.old.me.0 (Waits result), place.old.me.1) }
{
    top.fetch_add::<Draw>(place, TICKET, 1)
}

// Looks until the ticket is served, and takes the book out. It counts the looks that came too early.
fn await_turn<B: Book, R: Wait>(
    rt: &R,
    top: &Top<B>,
    place: &mut Place<B>,
    ticket: u64,
    looks: &mut u64,
) -> B
    requires table { (place.old.table_id ≡ top.now.table_id) × (top.now.table_id.words ≡ 2) }
    requires waits { (place.old.me.0.stage ≡ Waits ticket) × (place.old.me.1 ≡ []) }
    ensures same { (place.new.table_id ≡ place.old.table_id) × (place.new.id ≡ place.old.id) }
    ensures holds { place.new.me ≡ (holding place.old.me.0 ticket (B.history result), (0, None) ∷ []) }
    ensures book { GoesOn B.caller B.history B.opening place.old.me.0 result }
    ensures short { ticket < 2 ^ 63 }
{
    for _ in rt.forever() {
        if let Some(book) = look(top, place, ticket) {
            return book;
        }
        *looks = looks.saturating_add(1);
        thread::yield_now();
    }
    unreachable!()
}

// Looks once, and takes the book out if the ticket is served.
fn look<B: Book>(top: &Top<B>, place: &mut Place<B>, ticket: u64) -> Option<B>
    requires table { (place.old.table_id ≡ top.now.table_id) × (top.now.table_id.words ≡ 2) }
    requires waits { (place.old.me.0.stage ≡ Waits ticket) × (place.old.me.1 ≡ []) }
    ensures same { (place.new.table_id ≡ place.old.table_id) × (place.new.id ≡ place.old.id) }
    ensures early { IfNone result (place.new.me ≡ place.old.me) }
    ensures holds { IfSome result (λ book. place.new.me ≡ (holding place.old.me.0 ticket (B.history book), (0, None) ∷ [])) }
    ensures book { IfSome result (GoesOn B.caller B.history B.opening place.old.me.0) }
    ensures short { IfSome result (λ _. ticket < 2 ^ 63) }
{
    if top.load::<Look<B>>(place, SERVING) == ticket {
        // The look lent the slot, so the book is in it.
        top.exchange(place, 0, None)
    } else {
        None
    }
}

// Puts the book back, and serves the next ticket.
fn give_back<B: Book>(top: &Top<B>, place: &mut Place<B>, ticket: u64, book: B)
    requires table { (place.old.table_id ≡ top.now.table_id) × (top.now.table_id.words ≡ 2) }
    requires holds { (place.old.me.0.stage ≡ Holds ticket) × (place.old.me.1 ≡ (0, None) ∷ []) × (ticket < 2 ^ 63) }
    requires entry { (e : B.Entry) × (B.history book ≡ place.old.me.0.seen ++ e ∷ []) × (B.caller e ≡ place.old.me.0.number) }
    requires book { (length (B.history book) < 2 ^ 63) × (place.old.me.0.opening ≡ Some (B.opening book)) × B.legal (B.opening book) (B.history book) }
    ensures same { (place.new.table_id ≡ place.old.table_id) × (place.new.id ≡ place.old.id) }
    ensures gave { place.new.me ≡ (after_turn B.caller place.old.me.0 (B.history book), []) }
{
    let left = top.exchange(place, 0, Some(book));
    let None = left else { unreachable!() };
    top.store::<Pass<B>>(place, SERVING, ticket + 1);
}
