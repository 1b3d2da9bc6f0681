//! What a thread enters calls with.
ghost use Rattle.std.specs.Prelude.{◌≡◌, []};
ghost use Rattle.turnstile.specs.Known.{Standing};

use crate::turn::Turn;
use crate::view::SeatView;
use atomic_table::Seat;
use std::marker::Model;

/// The right to enter calls under a number of its own. Contracts see it as what is known of it, a `Known`.
///
/// `C` is the call, `A` the reply that an entry keeps, and `B` the base. It takes three numbers of memory.
/// One that is dropped keeps its parts, so that its desk can't be closed any more.
#[derive(Drop)]
pub struct Pass<C, A, B> {
    pub(crate) number: u32,
    pub(crate) spare: u64,
    pub(crate) mark: Option<u64>,
    pub(crate) seat: Seat<(), SeatView<C, A, B>>,
}

/// A pass of a desk of `V`.
pub type PassAt<V> = Pass<<V as Turn>::Call, <V as Turn>::Reply, <V as Turn>::Base>;

impl<C, A, B> Model for Pass<C, A, B> {
    ghost use Rattle.turnstile.specs.Known.{Known};

    ghost Value = { Known C A B };

    ghost use Rattle.turnstile.specs.Passes.{known, AtRest};

    ghost view = { known };

    ghost invariant = { AtRest };
}

impl<C, A, B> Pass<C, A, B> {
    /// The number under which it enters calls.
    pub fn number(&self) -> u32
        ensures number { result ≡ self.now.number }
        ensures standing { Standing self.now }
    {
        self.number
    }
}

/// The same seat, for a table whose slots hold another type. It holds no slot.
pub(crate) fn reseat<S, T, K>(seat: Seat<S, K>) -> Seat<T, K>
    requires { seat.me.1 ≡ [] }
    ensures { (result.table_id ≡ seat.table_id) × (result.id ≡ seat.id) × (result.me ≡ (seat.me.0, [])) }
{
    seat.into_badge().into_seat()
}
