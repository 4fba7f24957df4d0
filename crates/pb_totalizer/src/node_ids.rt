//! Where the constraints of a node's outputs and of its parts' stand.
ghost use Rattle.std.specs.Prelude.{◌≡◌, ◌≤◌, ◌<◌, ◌+◌, ◌^◌, min};

use pb_base::Term;

/// Constraints in a row, two for each output. The first one has an id, and has room behind it.
#[derive(Clone, Copy)]
pub struct IdRow {
    pub first: u64,
    ghost room: { first < 2 ^ 62 },
}

/// Where the outputs of a part have their constraints: a leaf has none.
#[derive(Clone, Copy)]
pub enum Source {
    Leaf,
    Fresh(IdRow),
}

/// Where a part's outputs have their constraints, and how many outputs there are.
#[derive(Clone, Copy)]
pub struct Handed {
    pub source: Source,
    pub count: u64,
}

/// A node over its two parts, with the leaves of each: the id of its first output's constraint, how many outputs it has, and how
/// many at most.
#[derive(Clone, Copy)]
pub struct NodeIds<'a> {
    pub lefts: &'a [Term],
    pub left: Handed,
    pub rights: &'a [Term],
    pub right: Handed,
    pub own: u64,
    pub count: u64,
    pub cap: u64,
    ghost room: { own < 2 ^ 62 },
    ghost left_within: { left.count ≤ cap },
    ghost right_within: { right.count ≤ cap },
    ghost counted: { count ≡ min (left.count + right.count) cap },
    ghost few: { cap ≤ 2 ^ 31 },
}
