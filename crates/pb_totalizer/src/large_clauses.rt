//! The clauses of a node of a totalizer whose parts have many outputs, block by block.
ghost use Rattle.std.specs.Prelude.{◌≡◌, ◌≤◌, ◌<◌, ◌+◌, ◌*◌, ◌^◌, suc};
ghost use Rattle.pb_family.specs.StepSinks.{HandsFrom};
ghost use Rattle.pb_totalizer.specs.inner.Joints.{large_at, large_ids, large_steps};
ghost use Rattle.pb_totalizer.specs.inner.Larges.{large_of};
ghost use Rattle.pb_totalizer.specs.inner.Sides.{side_count, side_wide_size};
ghost use Rattle.pb_totalizer.specs.inner.Windows.{block_in, blocks_ids, blocks_in, claim_count, last_block, windows_of};

use crate::block_claims::{Block, derive_block_claims};
use crate::joint::Joint;
use crate::large_node::{LargeNode, last_block};
use crate::windows::derive_windows;
use pb_family::{SinkResult, StepSink, derive_deletion};
use std::alloc::Global;

// Hands over the windows of a block, its clauses, and that the windows go.
fn derive_block<T: StepSink>(alloc: Global, of: &LargeNode, number: u64, sink: &mut T) -> SinkResult
    requires within { number ≤ last_block of.now.left }
    requires room { (T.state sink.old).next + windows_of (large_of of.now) + claim_count of.now.cap of.now.left of.now.right number < 2 ^ 62 }
    ensures { HandsFrom (block_in (large_of of.now) number) result (T.state sink.old) (T.state sink.new) }
{
    let windows = sink.next_id();
    derive_windows(alloc, of, number, sink)?;
    let block = Block {
        of,
        number,
        windows,
    };
    derive_block_claims(alloc, &block, sink)?;
    derive_deletion(alloc, windows, of.windows(), sink)
}

// Hands over all blocks.
fn derive_all_blocks<T: StepSink>(alloc: Global, of: &LargeNode, sink: &mut T) -> SinkResult
    requires room { (T.state sink.old).next + blocks_ids of.now.cap of.now.left of.now.right 0 (suc (last_block of.now.left)) < 2 ^ 62 }
    ensures { HandsFrom (blocks_in (large_of of.now) 0 (suc (last_block of.now.left))) result (T.state sink.old) (T.state sink.new) }
{
    for number in 0..1 + last_block(of.left) {
        derive_block(alloc, of, number, sink)?;
    }
    Ok(())
}

// The node by its numbers, where the lines about the blocks of its parts begin with these ids.
fn large_node(node: &Joint, lefts: u64, rights: u64) -> LargeNode
    requires left { lefts + side_wide_size node.now.left < 2 ^ 62 }
    requires right { rights + side_wide_size node.now.right < 2 ^ 62 }
    ensures { large_of result ≡ large_at node.now lefts rights }
{
    LargeNode {
        row: node.row.id,
        inputs: node.row.inputs,
        left: node.left.count(),
        right: node.right.count(),
        own: 1 + node.row.last,
        cap: node.cap,
        left_narrows: node.left.narrows(lefts),
        right_narrows: node.right.narrows(rights),
        left_others: node.left.block_others(lefts),
        right_others: node.right.block_others(rights),
    }
}

/// Hands over the lines about the blocks of both parts, the clauses block by block, and the deletion of those lines.
pub fn derive_by_blocks<T: StepSink>(alloc: Global, node: &Joint, sink: &mut T) -> SinkResult
    requires room { (T.state sink.old).next + large_ids node.now < 2 ^ 62 }
    ensures { HandsFrom (large_steps node.now) result (T.state sink.old) (T.state sink.new) }
{
    let next = sink.next_id();
    node.left.derive_blocks(alloc, sink)?;
    let middle = sink.next_id();
    node.right.derive_blocks(alloc, sink)?;
    let end = sink.next_id();
    let large = large_node(node, next, middle);
    derive_all_blocks(alloc, &large, sink)?;
    derive_deletion(alloc, next, end - next, sink)
}
