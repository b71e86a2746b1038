//! What it is to be a fringe.
ghost use Rattle.std.specs.Prelude.{◌≡◌};
ghost use Rattle.fringe.specs.Fringes.{Meaning, Bounded, Emptied, Put, Least, Taken};
ghost use Rattle.fringe.specs.Refusals.{number_of};

use crate::order::Order;
use crate::place::Place;

/// Why a fringe refuses a place.
#[derive(Clone, Copy, PartialEq, Eq, Debug)]
pub enum Refusal {
    /// The place does not fit: its number is not below the capacity.
    NoRoom = 24,
}

impl Refusal {
    /// The refusal's number.
    pub fn number(self) -> u8
        ensures { result ≡ number_of self }
    {
        self as u8
    }
}

/// Places, each with one cost, of which the least is taken first.
///
/// Lent memory may be scribbled on by nobody else while a fringe holds it, but a type cannot say so of an order that it
/// does not know. So `well` says that a fringe is in order: `new` and `clear` establish it of any memory, every call
/// keeps it, and the other calls promise their answers of fringes in order. On every value a call ends and is safe.
pub trait Fringe<C: Order> {
    ghost meaning: { Self → Meaning C };

    ghost well: { Self → Type 0 };

    ghost bounded: { (s : Self) → well s → Bounded (meaning s) };

    /// How many places fit: those whose numbers are below it.
    fn capacity(&self) -> usize
        ensures { result ≡ (meaning self.now).capacity };

    /// Empties the fringe.
    fn clear(&mut self)
        ensures emptied { Emptied (meaning self.old) (meaning self.new) }
        ensures well { well self.new };

    /// Enters the place, or lowers its cost where the new cost is less.
    fn put(&mut self, place: Place, cost: C) -> Result<(), Refusal>
        ensures put { well self.old → Put C.Order.thing C.Order.leq (meaning self.old) (meaning self.new) place.0 cost result }
        ensures well { well self.old → well self.new };

    /// The least cost with its place, and of equals the lowest place.
    fn least(&self) -> Option<(Place, C)>
        ensures { well self.now → Least C.Order.thing C.Order.leq (meaning self.now) result };

    /// Answers what `least` answers, and removes it.
    fn take(&mut self) -> Option<(Place, C)>
        ensures taken { well self.old → Taken C.Order.thing C.Order.leq (meaning self.old) (meaning self.new) result }
        ensures well { well self.old → well self.new };
}
