// Nodes that stop serving.
ghost use Rattle.std.specs.Prelude.{◌≡◌, ◌≤◌, ◌<◌, ◌+◌, true, not, ◌&&◌, ◌||◌, ◌==◌, [], length, IsOk, OnOk, OnErr};
ghost use Rattle.sat_base.specs.declared.ids.NodeId.{NodeId};
ghost use Rattle.segment_index.specs.Segments.{is_gone};

use crate::health::GoneNode;
use crate::index::SegmentIndex;
use crate::refreshing::{count_all, place_counts};
use sat_base::{NoMemory, NodeId};

impl SegmentIndex {
    /// Makes room for so many nodes that stop serving. Running out of memory leaves all as it was.
    pub fn place_loss(&mut self, nodes: usize) -> Result<(), NoMemory>
        ensures same { self.new ≡ record self.old { room = record self.old.room { lost = self.new.room.lost } } }
        ensures ok { OnOk result (nodes ≤ self.new.room.lost) }
        ensures succeeds { nodes ≤ self.old.room.lost → IsOk result }
        ensures stays { self.old.room.lost ≤ self.new.room.lost }
    {
        self.pending.reserve(nodes)
    }

    /// Notes that a node no longer serves. Its pieces count as healthy until the next [`refresh`](Self::refresh). It takes
    /// no memory.
    pub fn lose(&mut self, node: NodeId)
        requires { 1 ≤ self.old.room.lost }
        ensures same { self.new ≡ record self.old { pending = self.new.pending; room = record self.old.room { lost = self.new.room.lost } } }
        ensures pending { (other : NodeId) → is_gone self.new.pending other ≡ ((node.0 == other.0) || is_gone self.old.pending other) }
        ensures room { self.old.room.lost ≤ self.new.room.lost + 1 }
    {
        if self.pending.get(u128::from(node.0)).is_none() {
            self.pending.add(GoneNode { node });
        }
    }

    /// Notes that a node serves after all, where its pieces are not counted as lost yet. It takes no memory.
    pub fn keep(&mut self, node: NodeId)
        ensures same { self.new ≡ record self.old { pending = self.new.pending; room = record self.old.room { lost = self.new.room.lost } } }
        ensures pending { (other : NodeId) → is_gone self.new.pending other ≡ (not (node.0 == other.0) && is_gone self.old.pending other) }
        ensures room { self.old.room.lost ≤ self.new.room.lost }
    {
        self.pending.remove(u128::from(node.0));
    }

    /// Counts the pieces at the nodes that stopped serving as lost. It passes over those nodes' segments alone. Want of
    /// memory leaves some of the nodes to be counted. Where there are nodes to count, room that was made for segments is void.
    pub fn refresh(&mut self) -> Result<(), NoMemory>
        ensures rows { self.new.rows ≡ self.old.rows }
        ensures limits { self.new.limits ≡ self.old.limits }
        ensures ok { OnOk result (self.new.pending ≡ []) }
        ensures gone { OnOk result ((node : NodeId) → is_gone self.new.gone node ≡ (is_gone self.old.gone node || is_gone self.old.pending node)) }

        // With none to be counted it takes no memory, and room that was made stays.
        ensures succeeds { self.old.pending ≡ [] → IsOk result }
        ensures idle { self.old.pending ≡ [] → self.new ≡ self.old }
        ensures lost { (node : NodeId) → (is_gone self.new.gone node || is_gone self.new.pending node) ≡ (is_gone self.old.gone node || is_gone self.old.pending node) }
        ensures room { self.old.room.lost ≤ self.new.room.lost }
    {
        while let Some(first) = self.pending.as_slice().first() {
            let node = first.node;
            self.count_lost(node)?;
        }
        Ok(())
    }

    // Counts one of the nodes.
    fn count_lost(&mut self, node: NodeId) -> Result<(), NoMemory>
        requires { is_gone self.old.pending node ≡ true }
        ensures rows { self.new.rows ≡ self.old.rows }
        ensures limits { self.new.limits ≡ self.old.limits }
        ensures lost { (other : NodeId) → (is_gone self.new.gone other || is_gone self.new.pending other) ≡ (is_gone self.old.gone other || is_gone self.old.pending other) }
        ensures less { OnOk result (length self.new.pending < length self.old.pending) }
        ensures room { self.old.room.lost ≤ self.new.room.lost }
    {
        self.count_pieces(node)?;
        self.pending.remove(u128::from(node.0));
        Ok(())
    }

    // Counts the pieces at a node as lost.
    fn count_pieces(&mut self, node: NodeId) -> Result<(), NoMemory>
        ensures same { self.new ≡ record self.old { gone = self.new.gone; room = self.new.room } }
        ensures gone { OnOk result ((other : NodeId) → is_gone self.new.gone other ≡ ((node.0 == other.0) || is_gone self.old.gone other)) }
        ensures err { OnErr result (self.new.gone ≡ self.old.gone) }
        ensures room { self.new.room.lost ≡ self.old.room.lost }
    {
        if self.counted.get(u128::from(node.0)).is_some() {
            return Ok(());
        }
        self.counted.reserve(1)?;
        place_counts(
            &self.segments,
            &self.by_node,
            &self.counted,
            self.limits,
            &mut self.by_need,
            node,
        )?;
        count_all(
            &self.segments,
            &self.by_node,
            &self.counted,
            self.limits,
            &mut self.by_need,
            node,
        );
        self.counted.add(GoneNode { node });
        Ok(())
    }
}
