//! What each step tells. These types are for the proofs alone.
use crate::turn::Turn;
use crate::view::SeatView;
use atomic_table::{Join, Play, Split, TableRule};
use std::marker::PhantomData;
use std::snapshot::Snapshot;

/// What the table is told once: the number of places in the term, and the value at the start.
#[derive(Drop)]
pub struct About<V> {
    pub term: u64,
    pub opening: Snapshot<V>,
}

pub struct InOrder;

impl<V: Turn> TableRule<V, SeatView<V::Call, V::Reply, V::Base>, About<V>> for InOrder {
    ghost use Rattle.turnstile.specs.Rule.{DeskRule};
    ghost use Rattle.turnstile.specs.Steps.{opener};

    ghost holds = { λ k. DeskRule V.base V.entries V.room V.lawful (V.base k.opening.value) k.term };

    ghost first = { λ k. opener (V.base k.opening.value) k.term };
}

pub struct Draw;

impl<V: Turn> Play<V, SeatView<V::Call, V::Reply, V::Base>> for Draw {
    ghost use Rattle.turnstile.specs.Steps.{drew};

    ghost then = { drew };
}

pub struct Look;

impl<V: Turn> Play<V, SeatView<V::Call, V::Reply, V::Base>> for Look {
    ghost use Rattle.turnstile.specs.Steps.{looked};

    ghost then = { looked V.base V.entries V.room V.lawful };
}

pub struct Serve;

impl<V: Turn> Play<V, SeatView<V::Call, V::Reply, V::Base>> for Serve {
    ghost use Rattle.turnstile.specs.Steps.{served};

    ghost then = { served V.entries };
}

/// Tells that a number that is still to be given away is the pass's no yet, and no entry's.
pub struct Spare;

impl<V: Turn> Play<V, SeatView<V::Call, V::Reply, V::Base>> for Spare {
    ghost use Rattle.turnstile.specs.Steps.{vacant};

    ghost then = { vacant };
}

/// Tells what a joined pass has of the two that it was made of.
pub struct Recall;

impl<V: Turn> Play<V, SeatView<V::Call, V::Reply, V::Base>> for Recall {
    ghost use Rattle.turnstile.specs.Steps.{recalled};

    ghost then = { recalled };
}

pub struct Halve;

impl<C, A, B> Split<SeatView<C, A, B>> for Halve {
    ghost use Rattle.turnstile.specs.Steps.{left_half, right_half};

    ghost left = { left_half };

    ghost right = { right_half };
}

pub struct Merge<V> {
    marker: PhantomData<V>,
}

impl<V: Turn> Join<SeatView<V::Call, V::Reply, V::Base>> for Merge<V> {
    ghost use Rattle.turnstile.specs.Steps.{both, nobody};

    ghost both = { both };

    ghost spent = { nobody V.nowhere };
}
