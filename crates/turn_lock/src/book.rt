//! The book: what is kept under the lock.
//!
//! A book is a sequential object whose calls are written down: each call appends exactly one entry to the book's
//! history and does nothing else that a contract speaks of. What a book is, is said by six words. The lock knows
//! nothing more of it, so whatever holds of every history that one thread could write in this way holds of the
//! histories that many threads write under the lock.
ghost use Rattle.std.specs.Prelude.{◌≡◌, ◌<◌, ◌^◌, ℕ, List, [], ◌∷◌, ◌++◌, length};
ghost use Rattle.turn_lock.specs.Calls.{calls_by};

/// An object whose every call appends one entry to its history.
pub trait Book {
    type Op;

    type Reply;

    type Entry;

    type Opening;

    /// What the book was opened with. No call changes it.
    ghost opening: { Self → Self.Opening };

    /// The entries of all calls so far, oldest first.
    ghost history: { Self → List Self.Entry };

    /// The number of the seat that made the call.
    ghost caller: { Self.Entry → ℕ };

    /// The histories that a book with this opening can have.
    ghost legal: { Self.Opening → List Self.Entry → Type 0 };

    /// When a call may be made: by the opening, the caller's number, the operation and the caller's own entries. It
    /// does not speak of other callers' entries, so no call of theirs can break it.
    ghost may: { Self.Opening → ℕ → Self.Op → List Self.Entry → Type 0 };

    /// What a call replies and writes down: by the opening, the entries before it, the operation, the reply and the
    /// entry.
    ghost tells: { Self.Opening → List Self.Entry → Self.Op → Self.Reply → Self.Entry → Type 0 };

    /// One call of the seat with the number `who`.
    fn apply(&mut self, who: u32, op: Self::Op) -> Self::Reply
        requires { may (opening self.old) who op (calls_by caller who (history self.old)) }
        ensures opening { opening self.new ≡ opening self.old }
        ensures entry { (e : Self.Entry) × (history self.new ≡ history self.old ++ e ∷ []) × (caller e ≡ who) × tells (opening self.old) (history self.old) op result e }
        ensures legal { legal (opening self.new) (history self.new) }
        ensures short { length (history self.new) < 2 ^ 63 };
}
