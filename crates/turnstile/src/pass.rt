// The right to take turns.
ghost use Rattle.std.specs.Prelude.{◌≡◌, [], ◌∷◌};
ghost use Rattle.turnstile.specs.Passes.{pass_of, view_of, IsPass};

use crate::view::View;
use atomic_table::{Badge, Seat};
use std::marker::Model;

/// The right to take turns at one turnstile, for one caller at a time. It takes no bytes. Contracts see its number,
/// what it has seen, the places of its own entries, what it was told, and the numbers that stay.
#[derive(Drop)]
pub struct Pass<E, D> {
    badge: Badge<View<E, D>>,
}

impl<E, D> Model for Pass<E, D> {
    ghost use Rattle.turnstile.specs.Passes.{PassView, pass_of, IsPass};

    ghost Value = { PassView E D };

    ghost view = { λ p. pass_of p.badge.table_id p.badge.views };

    ghost invariant = { λ p. IsPass p.badge.table_id p.badge.views };
}

impl<E, D> Pass<E, D> {
    // The pass of a seat that is idle and has one account.
    pub(crate) fn of<T>(seat: Seat<T, View<E, D>>) -> Pass<E, D>
        requires { seat.me ≡ (view_of (pass_of seat.table_id (seat.me.0 ∷ [])), []) }
        ensures { result ≡ pass_of seat.table_id (seat.me.0 ∷ []) }
    {
        Pass {
            badge: seat.into_badge(),
        }
    }

    // The seat of a pass.
    pub(crate) fn into_seat<T>(self) -> Seat<T, View<E, D>>
        ensures table { result.table_id ≡ self.table }
        ensures view { result.me ≡ (view_of self, []) }
    {
        let Pass { badge } = self;
        badge.into_seat()
    }
}
