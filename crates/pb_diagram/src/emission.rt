//! The clauses of the nodes, level by level.
ghost use Rattle.std.specs.Prelude.{◌≡◌, ◌≤◌, ◌<◌, ◌+◌, ◌^◌, length};
ghost use Rattle.pb_norm.specs.Constraints.{weight, weights};
ghost use Rattle.pb_norm.specs.BoundedSums.{sum_within};
ghost use Rattle.pb_family.specs.Handing.{Hands};
ghost use Rattle.pb_diagram.specs.Clauses.{diagram_clauses, diagram_fresh};

use crate::interval::Interval;
use crate::layer::Layer;
use crate::shape::Shape;
use pb_base::{Failed, Lit};
use pb_family::{ClauseSink, fresh_at};
use pb_norm::weight_of;

/// A level whose nodes' variables begin at `first`, and those of the next level's nodes at `after`.
#[derive(Clone, Copy)]
struct Numbered<'a> {
    layer: Layer<'a>,
    first: u32,
    after: u32,
    ghost low: { 1 ≤ first },
    ghost follows: { after ≡ first + length layer.nodes.now },
    ghost high: { after + length layer.next.now ≤ 2 ^ 31 },
}

impl Numbered<'_> {
    ghost use Rattle.std.specs.Prelude.{◌≡◌, ◌≤◌, ◌<◌, ◌+◌, ◌-◌, ◌∷◌, [], length};
    ghost use Rattle.pb_norm.specs.Constraints.{weighted};
    ghost use Rattle.pb_family.specs.Handing.{Hands};
    ghost use Rattle.pb_diagram.specs.Clauses.{false_clause, node_at, true_clause};
    ghost use Rattle.pb_diagram.specs.inner.Layers.{layer_clauses};
    ghost use Rattle.pb_diagram.specs.inner.Links.{HasPlace};

    /// The variable of the next level's node in which a residue lies, which is looked for from a place on, and whose place it
    /// then is.
    fn child(&self, residue: u128, near: &mut usize) -> Lit
        requires { HasPlace self.now.layer.next.now residue }
        ensures { result ≡ node_at self.now.after self.now.layer.next.now residue }
    {
        let place = self.layer.child_near(*near, residue);
        *near = place;
        fresh_at(self.after, place)
    }

    /// Hands over that where a node is true, its false child is.
    fn emit_false<S: ClauseSink>(
        &self,
        place: usize,
        node: Interval,
        near: &mut usize,
        sink: &mut S,
    ) -> Result<(), Failed>
        requires within { place < length self.now.layer.nodes.now }
        requires held { node.low < self.now.layer.whole → HasPlace self.now.layer.next.now node.low }
        ensures { Hands (false_clause self.now.layer.whole self.now.after self.now.layer.next.now (self.now.first + place) node) result (S.state sink.old) (S.state sink.new) }
    {
        if self.layer.whole <= node.low {
            return Ok(());
        }
        sink.clause(&[
            fresh_at(self.first, place).not(),
            self.child(node.low, near),
        ])
    }

    /// Hands over that where a node and the term's literal are true, its true child is, if it has one.
    fn emit_true<S: ClauseSink>(
        &self,
        place: usize,
        node: Interval,
        near: &mut usize,
        sink: &mut S,
    ) -> Result<(), Failed>
        requires within { place < length self.now.layer.nodes.now }
        requires held { (weighted self.now.layer.term.now).coef ≤ node.low → HasPlace self.now.layer.next.now (node.low - (weighted self.now.layer.term.now).coef) }
        ensures { Hands (true_clause (weighted self.now.layer.term.now) self.now.after self.now.layer.next.now (self.now.first + place) node ∷ []) result (S.state sink.old) (S.state sink.new) }
    {
        let term = self.layer.term;
        let not_node = fresh_at(self.first, place).not();
        let coef = term.weight();
        if node.low < coef {
            sink.clause(&[not_node, term.lit.not()])
        } else {
            sink.clause(&[not_node, term.lit.not(), self.child(node.low - coef, near)])
        }
    }

    /// Hands over the clauses of the level's nodes.
    fn emit_level<S: ClauseSink>(&self, sink: &mut S) -> Result<(), Failed>
        ensures { Hands (layer_clauses self.now.layer self.now.after self.now.first) result (S.state sink.old) (S.state sink.new) }
    {
        let nodes = self.layer.nodes;
        let mut off = 0;
        let mut on = 0;
        for place in 0..nodes.len() {
            let node = nodes[place];
            self.emit_false(place, node, &mut off, sink)?;
            self.emit_true(place, node, &mut on, sink)?;
        }
        Ok(())
    }
}

/// Hands over the clauses of a diagram, with that of the root.
pub fn emit_whole<S: ClauseSink>(shape: Shape, first: u32, sink: &mut S) -> Result<(), Failed>
    requires above { shape.bound < weight (weights shape.terms.now) }
    requires low { 1 ≤ first }
    requires fits { first + diagram_fresh (sum_within shape.terms.now shape.bound) ≤ 2 ^ 31 }
    ensures { Hands (diagram_clauses (sum_within shape.entry.terms.now shape.entry.bound) first) result (S.state sink.old) (S.state sink.new) }
{
    let mut whole = weight_of(shape.terms);
    let mut start = first;
    for i in 0..shape.terms.len() {
        let layer = shape.layer(i, whole);
        let level = Numbered {
            layer,
            first: start,
            after: start + layer.nodes.len() as u32,
        };
        level.emit_level(sink)?;
        whole = layer.whole;
        start = level.after;
    }
    sink.clause(&[fresh_at(first, 0)])
}
