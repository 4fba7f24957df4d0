//! The nodes of a diagram with their children, and where these are near.
ghost use Rattle.std.specs.Prelude.{◌≡◌, ◌<◌, ◌≤◌, ◌^◌, List, map, sum_by, length, IfOk, slice_index_or};
ghost use Rattle.pb_norm.specs.Constraints.{weighted, weights};
ghost use Rattle.pb_diagram.specs.Guards.{windows};
ghost use Rattle.pb_diagram.specs.GuardedSteps.{node_in, nodes_in, is_narrow, are_narrow};
ghost use Rattle.pb_diagram.specs.inner.Links.{HasChildren};

use crate::interval::Interval;
use crate::layer::Layer;
use crate::node::{Node, Nodes};
use crate::shape::Shape;
use pb_norm::weight_of;
use std::alloc::{AllocError, Global};

/// A node with its children, which are looked for from places on, whose places these then are.
fn node_of(layer: &Layer, interval: Interval, near_off: &mut usize, near_on: &mut usize) -> Node
    requires held { HasChildren (weighted layer.now.term.now).coef layer.now.whole layer.now.next.now interval }
    ensures { result ≡ node_in (weighted layer.now.term.now).coef layer.now.whole layer.now.next.now interval }
{
    let coef = layer.term.weight();
    let off = if layer.whole <= interval.low {
        None
    } else {
        *near_off = layer.child_near(*near_off, interval.low);
        Some(*near_off as u64)
    };
    let on = if interval.low < coef {
        None
    } else {
        *near_on = layer.child_near(*near_on, interval.low - coef);
        Some(*near_on as u64)
    };
    Node {
        top: interval.top,
        off,
        on,
    }
}

/// The nodes of a level with their children.
fn list_level(alloc: Global, layer: Layer) -> Result<Vec<Node>, AllocError>
    ensures { IfOk result (λ ns. ns.items ≡ map (node_in (weighted layer.entry.term.now).coef layer.entry.whole layer.entry.next.now) layer.entry.nodes.now) }
{
    let all = layer.nodes;
    let mut nodes = Vec::with_capacity(alloc, all.len())?;
    let mut off = 0;
    let mut on = 0;
    for place in 0..all.len() {
        nodes.push(node_of(&layer, all[place], &mut off, &mut on))?;
    }
    Ok(nodes)
}

/// The nodes of all levels with their children.
pub fn list_nodes(alloc: Global, shape: Shape) -> Result<Vec<Nodes>, AllocError>
    ensures { IfOk result (λ ls. ls.items ≡ nodes_in (weights shape.entry.terms.now) shape.entry.levels.now) }
{
    let mut levels = Vec::new(alloc);
    let mut whole = weight_of(shape.terms);
    for i in 0..shape.terms.len() {
        let layer = shape.layer(i, whole);
        levels.push(Nodes::from_vec(list_level(alloc, layer)?))?;
        whole = layer.whole;
    }
    Ok(levels)
}

/// How far the true children of nodes are before their false ones, in all.
fn windows_of(nodes: &[Node]) -> u128
    requires few { length nodes.now < 2 ^ 14 }
    ensures { result ≡ windows nodes.now }
{
    let mut sum = 0;
    for node in nodes {
        sum += node.window() as u128;
    }
    sum
}

/// True if a level has few nodes and short windows.
fn is_narrow(most: u64, nodes: &[Node]) -> bool
    ensures { result ≡ is_narrow most nodes.now }
{
    nodes.len() < 16384 && windows_of(nodes) <= most as u128 * nodes.len() as u128
}

/// True if all levels do.
pub fn are_narrow(most: u64, levels: &[Nodes]) -> bool
    ensures { result ≡ are_narrow most levels.now }
{
    for level in levels {
        if !is_narrow(most, level.as_slice()) {
            return false;
        }
    }
    true
}
