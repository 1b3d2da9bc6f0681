// The kits whose workers make a round at each tick.
use crate::kit::{Kit, NodesView, RoundStore};
use crate::rounds::{audit_round, repair_round};
use bw_decode::Scratch;
use sat_base::{Beat, Clock, Gate, Keeper, Nodes, Ticks, Words};
use sat_book::Book;
use sat_sessions::{BookPass, Round, RoundKit};
use std::alloc::Global;
use std::sync::Wait;
use turnstile::Desk;

/// The kit whose worker audits: at each tick it makes an [`audit_round`]. The store is that of its book, and the decoder's
/// room was made for its scheme.
#[derive(Drop)]
pub struct AuditKit<N, T, W, I> {
    pub kit: Kit<N, T, W, I>,
    pub store: RoundStore,
    pub scratch: Scratch,
}

impl<N: Nodes, T: Clock, W: Words, I: Ticks> RoundKit for AuditKit<N, T, W, I> {
    ghost use Rattle.std.specs.Prelude.{◌≤◌, IsSomeAnd};
    ghost use Rattle.node_rounds.specs.Askable.{IsStoreOf};
    ghost use Rattle.node_rounds.specs.Asked.{nodes_view};
    ghost use Rattle.node_rounds.specs.Kits.{Tells};
    ghost use Rattle.node_rounds.specs.Parts.{kit_view};
    ghost use Rattle.node_rounds.specs.declared.upkeep.Upkeep.TheVariants as kinds;

    type Nodes = NodesView;

    ghost view = { λ a. kit_view (nodes_view N.held N.asks N.faults) T.coming W.left W.faults I.about a.kit };

    ghost fits = { λ o a. IsSomeAnd o (λ opening. IsStoreOf opening a.store.keys a.store.scheme) × (a.store.scheme.n ≤ a.scratch.points) };

    ghost tells = { Tells kinds.Recheck kinds.Audit };

    fn lasts(&self) {}

    fn tick(&mut self) -> Beat {
        self.kit.ticks.next()
    }

    fn round<K: Keeper, G: Gate, R: Wait>(
        &mut self,
        rt: &R,
        alloc: Global,
        desk: &Desk<Book<K>>,
        pass: BookPass<K>,
        gate: &G,
    ) -> (BookPass<K>, Round) {
        let AuditKit {
            kit,
            store,
            scratch,
        } = self;
        audit_round(
            rt,
            alloc,
            desk,
            pass,
            store,
            scratch,
            kit,
            &|point| gate.pass(point),
        )
    }
}

/// The kit whose worker repairs: at each tick it makes a [`repair_round`]. The store is that of its book, and the decoder's
/// room was made for its scheme.
#[derive(Drop)]
pub struct RepairKit<N, T, W, I> {
    pub kit: Kit<N, T, W, I>,
    pub store: RoundStore,
    pub scratch: Scratch,
}

impl<N: Nodes, T: Clock, W: Words, I: Ticks> RoundKit for RepairKit<N, T, W, I> {
    ghost use Rattle.std.specs.Prelude.{◌≤◌, IsSomeAnd};
    ghost use Rattle.node_rounds.specs.Askable.{IsStoreOf};
    ghost use Rattle.node_rounds.specs.Asked.{nodes_view};
    ghost use Rattle.node_rounds.specs.Kits.{Tells};
    ghost use Rattle.node_rounds.specs.Parts.{kit_view};
    ghost use Rattle.node_rounds.specs.declared.upkeep.Upkeep.TheVariants as kinds;

    type Nodes = NodesView;

    ghost view = { λ a. kit_view (nodes_view N.held N.asks N.faults) T.coming W.left W.faults I.about a.kit };

    ghost fits = { λ o a. IsSomeAnd o (λ opening. IsStoreOf opening a.store.keys a.store.scheme) × (a.store.scheme.n ≤ a.scratch.points) };

    ghost tells = { Tells kinds.Repair kinds.Exit };

    fn lasts(&self) {}

    fn tick(&mut self) -> Beat {
        self.kit.ticks.next()
    }

    fn round<K: Keeper, G: Gate, R: Wait>(
        &mut self,
        rt: &R,
        alloc: Global,
        desk: &Desk<Book<K>>,
        pass: BookPass<K>,
        gate: &G,
    ) -> (BookPass<K>, Round) {
        let RepairKit {
            kit,
            store,
            scratch,
        } = self;
        repair_round(
            rt,
            alloc,
            desk,
            pass,
            store,
            scratch,
            kit,
            &|point| gate.pass(point),
        )
    }
}
