//! How large a diagram is.
ghost use Rattle.std.specs.Prelude.{◌≡◌, ◌<◌, ◌^◌};
ghost use Rattle.std.specs.List.{count_by};
ghost use Rattle.std.specs.Prelude.{nat_lt};
ghost use Rattle.pb_norm.specs.BoundedSums.{sum_within};
ghost use Rattle.pb_diagram.specs.Clauses.{node_count, diagram_size};

use crate::interval::Interval;
use crate::level::Level;
use crate::shape::Shape;
use pb_norm::weight_of;

/// How many nodes there are.
pub fn count_nodes(levels: &[Level]) -> u64
    requires { node_count levels.now < 2 ^ 31 }
    ensures { result ≡ node_count levels.now }
{
    let mut count = 0;
    for level in levels {
        count += level.nodes().len() as u64;
    }
    count
}

/// How many nodes of a level begin below a number.
fn count_below(nodes: &[Interval], whole: u128) -> u64
    ensures { result ≡ count_by (λ g. nat_lt g.low whole) nodes.now }
{
    let mut count = 0;
    for node in nodes {
        if node.low < whole {
            count += 1;
        }
    }
    count
}

/// How many clauses there are.
pub fn count_clauses(shape: Shape) -> u64
    ensures { result ≡ diagram_size (sum_within shape.entry.terms.now shape.entry.bound) }
{
    let mut whole = weight_of(shape.terms);
    let mut count = shape.fresh + 1;
    for i in 0..shape.terms.len() {
        let layer = shape.layer(i, whole);
        whole = layer.whole;
        count += count_below(layer.nodes, whole);
    }
    count
}
