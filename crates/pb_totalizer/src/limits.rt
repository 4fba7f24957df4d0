//! A clause from a node's outputs to its parts.
ghost use Rattle.std.specs.Prelude.{◌∷◌, []};
ghost use Rattle.pb_family.specs.Handing.{Hands};
ghost use Rattle.pb_totalizer.specs.inner.NodeClauses.{limit_over};
ghost use Rattle.pb_totalizer.specs.inner.Numbers.{AreLimited};
ghost use Rattle.pb_totalizer.specs.inner.Outputs.{output_count};

use crate::node::Node;
use pb_base::Failed;
use pb_family::ClauseSink;

/// Hands over that where at most i of the left are true and at most j of the right, no more than i + j are.
pub fn hand_over_limit<S: ClauseSink>(
    node: &Node,
    i: u64,
    j: u64,
    sink: &mut S,
) -> Result<(), Failed>
    requires { AreLimited (output_count node.now.left) (output_count node.now.right) (output_count node.now.own) i j }
    ensures { Hands (limit_over node.now i j ∷ []) result (S.state sink.old) (S.state sink.new) }
{
    let limit = node.own.not_at(i + j + 1);
    if i == node.left.count() {
        sink.clause(&[node.right.at(j + 1), limit])
    } else if j == node.right.count() {
        sink.clause(&[node.left.at(i + 1), limit])
    } else {
        sink.clause(&[node.left.at(i + 1), node.right.at(j + 1), limit])
    }
}
