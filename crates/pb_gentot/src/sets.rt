//! The values of a node.
ghost use Rattle.std.specs.Prelude.{◌≡◌, ◌≤◌, ◌<◌, ◌+◌, ◌^◌, ◌++◌, ◌∷◌, [], All, map, min, length, IfOk};
ghost use Rattle.pb_gentot.specs.Rising.{Rising};
ghost use Rattle.pb_gentot.specs.inner.Joined.{IsJoined};
ghost use Rattle.pb_gentot.specs.inner.Marks.{MarksOnly};
ghost use Rattle.pb_gentot.specs.inner.Members.{SameMembers};
ghost use Rattle.pb_gentot.specs.Generalized.{sums, ascending};

use crate::seen::Seen;
use crate::tables::table_size;
use std::alloc::{AllocError, Global};

/// Appends a number that is not marked, and marks it.
fn push_new(value: u128, seen: &mut Seen, made: &mut Vec<u128>) -> Result<(), AllocError>
    requires marked { MarksOnly seen.old made.old.items }
    ensures same { IfOk result (λ _. SameMembers (made.old.items ++ value ∷ []) made.new.items) }
    ensures marked { IfOk result (λ _. MarksOnly seen.new made.new.items) }
{
    if seen.insert(value) {
        made.push(value)?;
    }
    Ok(())
}

/// Appends those of a value and its sums with others that are not marked, and marks them.
fn push_sums(
    value: u128,
    others: &[u128],
    cap: u128,
    seen: &mut Seen,
    made: &mut Vec<u128>,
) -> Result<(), AllocError>
    requires small { value ≤ cap }
    requires others_small { All (λ v. v ≤ cap) others.now }
    requires few { cap < 2 ^ 101 }
    requires marked { MarksOnly seen.old made.old.items }
    ensures same { IfOk result (λ _. SameMembers (made.old.items ++ value ∷ map (λ v. min (value + v) cap) others.now) made.new.items) }
    ensures marked { IfOk result (λ _. MarksOnly seen.new made.new.items) }
{
    push_new(value, seen, made)?;
    for other in others {
        push_new((value + *other).min(cap), seen, made)?;
    }
    Ok(())
}

/// Sorts values, and leaves out those that stand there already.
fn tidy(values: &mut Vec<u128>)
    ensures rising { Rising values.new.items }
    ensures same { SameMembers values.old.items values.new.items }
{
    values.sort_unstable();
    values.dedup();
}

/// The values of a node over two parts, if they are no more than a limit. Where a table of the numbers up to the cap is
/// small, no number is appended twice. Elsewhere, whenever the list has doubled, those that stand there twice are left out,
/// so that no more than three times as many numbers are held at once.
pub fn join_values(
    alloc: Global,
    left: &[u128],
    right: &[u128],
    cap: u128,
    limit: usize,
) -> Result<Option<Vec<u128>>, AllocError>
    requires left_small { All (λ v. v ≤ cap) left.now }
    requires right_small { All (λ v. v ≤ cap) right.now }
    requires few { cap < 2 ^ 101 }
    ensures { IfOk result (IsJoined cap limit left.now right.now) }
{
    let mut made = Vec::new(alloc);
    made.extend_from_slice(right)?;
    let mut seen = Seen::of(alloc, right, table_size(cap, left.len(), right.len()))?;
    let mut kept = right.len();
    for value in left {
        push_sums(*value, right, cap, &mut seen, &mut made)?;
        if made.len() / 2 > kept {
            tidy(&mut made);
            if made.len() > limit {
                return Ok(None);
            }
            kept = made.len().max(right.len());
        }
    }
    tidy(&mut made);
    if made.len() > limit {
        return Ok(None);
    }
    Ok(Some(made))
}

/// The values of a node over two parts, where they are no more than the variables that there can be.
pub fn values_over(
    alloc: Global,
    left: &[u128],
    right: &[u128],
    cap: u128,
) -> Result<Vec<u128>, AllocError>
    requires left_small { All (λ v. v ≤ cap) left.now }
    requires right_small { All (λ v. v ≤ cap) right.now }
    requires few { cap < 2 ^ 101 }
    requires fits { length (ascending cap (sums cap left.now right.now)) ≤ 2 ^ 31 }
    ensures { IfOk result (λ made. made.items ≡ ascending cap (sums cap left.now right.now)) }
{
    let found = join_values(alloc, left, right, cap, 1 << 31)?;
    Ok(found.unwrap())
}
