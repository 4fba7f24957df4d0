//! Steps that derive the clauses of the nodes of a level.
ghost use Rattle.std.specs.Prelude.{◌≤◌, ◌<◌, ◌+◌, ◌*◌, ◌^◌, length};

use crate::interval::Interval;
use crate::layer::Layer;
use pb_family::{SinkResult, StepSink, derive_claim};
use std::alloc::Global;

/// A level whose nodes' constraints have the ids from `id` on, two each, and those of the next level's nodes from `after` on.
#[derive(Clone, Copy)]
pub struct Claims<'a> {
    pub layer: Layer<'a>,
    pub id: u64,
    pub after: u64,
    ghost own: { id + 2 * length layer.nodes.now < 2 ^ 62 },
    ghost low: { after ≤ 2 ^ 62 },
    ghost high: { length layer.next.now < 2 ^ 31 },
}

impl Claims<'_> {
    ghost use Rattle.std.specs.Prelude.{◌≡◌, ◌≤◌, ◌<◌, ◌+◌, ◌-◌, ◌*◌, ◌^◌, length};
    ghost use Rattle.pb_norm.specs.Constraints.{weighted};
    ghost use Rattle.pb_family.specs.HandedJustifications.{HandsJustifications};
    ghost use Rattle.pb_diagram.specs.DiagramSteps.{child_id};
    ghost use Rattle.pb_diagram.specs.inner.Layers.{false_in, layer_justifications, true_in};
    ghost use Rattle.pb_diagram.specs.inner.NodesAt.{below_at};
    ghost use Rattle.pb_diagram.specs.inner.Links.{HasPlace};

    /// The id of the second constraint of the node in which a residue lies.
    fn child(&self, residue: u128) -> u64
        requires { HasPlace self.now.layer.next.now residue }
        ensures { result ≡ child_id (below_at self.now.layer.next.now self.now.after) residue }
    {
        self.after + 2 * self.layer.child(residue) as u64 + 1
    }

    /// Why a node's false child is true with it.
    fn derive_false<T: StepSink>(
        &self,
        alloc: Global,
        place: usize,
        node: Interval,
        sink: &mut T,
    ) -> SinkResult
        requires within { place < length self.now.layer.nodes.now }
        requires held { node.low < self.now.layer.whole → HasPlace self.now.layer.next.now node.low }
        requires few { (T.state sink.old).next + 1 < 2 ^ 62 }
        ensures { HandsJustifications (false_in self.now.layer self.now.after self.now.id place node) result (T.state sink.old) (T.state sink.new) }
    {
        if self.layer.whole <= node.low {
            return Ok(());
        }
        let own = self.id + 2 * place as u64;
        let under = self.child(node.low);
        derive_claim(alloc, &[own, under], &[*self.layer.term], sink)
    }

    /// Why a node's true child is true with it and the term's literal; at the false end, why the two are not true together.
    fn derive_true<T: StepSink>(
        &self,
        alloc: Global,
        place: usize,
        node: Interval,
        sink: &mut T,
    ) -> SinkResult
        requires within { place < length self.now.layer.nodes.now }
        requires held { (weighted self.now.layer.term.now).coef ≤ node.low → HasPlace self.now.layer.next.now (node.low - (weighted self.now.layer.term.now).coef) }
        requires few { (T.state sink.old).next + 1 < 2 ^ 62 }
        ensures { HandsJustifications (true_in self.now.layer self.now.after self.now.id place node) result (T.state sink.old) (T.state sink.new) }
    {
        let own = self.id + 2 * place as u64;
        let rest = self.layer.rest;
        let coef = self.layer.term.weight();
        if node.low < coef {
            return derive_claim(alloc, &[own], rest, sink);
        }
        let under = self.child(node.low - coef);
        derive_claim(alloc, &[own, under], &[], sink)
    }

    /// Both of each node of the level.
    pub fn derive_level<T: StepSink>(&self, alloc: Global, sink: &mut T) -> SinkResult
        requires few { (T.state sink.old).next + 2 * length self.now.layer.nodes.now < 2 ^ 62 }
        ensures { HandsJustifications (layer_justifications self.now.layer self.now.after self.now.id) result (T.state sink.old) (T.state sink.new) }
    {
        let nodes = self.layer.nodes;
        for place in 0..nodes.len() {
            let node = nodes[place];
            self.derive_false(alloc, place, node, sink)?;
            self.derive_true(alloc, place, node, sink)?;
        }
        Ok(())
    }
}
