//! What a client holds of a shelf: a seat goes in, and contracts see its shelf and what the client
//! knows.
use crate::journal::Journal;
use crate::view::View;
use atomic_table::Seat;
use std::marker::Model;

/// What one client knows of a shelf. It has no bytes. Contracts see the shelf that it is of, as
/// `shelf`, and a `Knowledge`, as `knows`. `IsPass` holds of each one in hand.
#[derive(Drop)]
pub struct Pass<J: Journal> {
    pub(crate) seat: Seat<J, View<J::Shown, J::Item>>,
}

impl<J: Journal> Model for Pass<J> {
    ghost use Rattle.ts_shelf.specs.Passes.{Known, IsPass};
    ghost use Rattle.ts_shelf.specs.Views.{IsIdle};

    ghost Value = { Known J.Shown J.Item };

    ghost view = { λ p. record { shelf = p.seat.table_id; knows = p.seat.me.0.knows } };

    ghost invariant = { λ p. IsIdle p.seat.me × IsPass J.fits p.seat.me.0.knows };
}
