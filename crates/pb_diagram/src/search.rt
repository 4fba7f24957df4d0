//! The search for the nodes of a diagram: from the bound down to the children that are not known yet, and up again with the
//! intervals that they give.
//!
//! While the true child of a node is searched for, the false child's interval is kept, and a new node is given to its parent. So a
//! node is looked up twice at most.
ghost use Rattle.std.specs.Prelude.{[], replicate, ◌≡◌, ◌<◌, ◌+◌, ◌-◌, ◌^◌, Contains, MatchOption, IfSome, IfOk, length, sum};
ghost use Rattle.pb_norm.specs.Constraints.{weight};
ghost use Rattle.pb_diagram.specs.declared.interval.Interval.{Interval};
ghost use Rattle.pb_diagram.specs.Clauses.{node_count};
ghost use Rattle.pb_diagram.specs.Levels.{coefs_of, levels_of};
ghost use Rattle.pb_diagram.specs.laws.Search.{nodes_at, AreAllNodes, IsFound, IsOff, IsOn, LacksFalseChild, LacksTrueChild, Looked, IsMissing, IsJoined, IsTop, IsSeen};
ghost use Rattle.pb_diagram.specs.inner.Wants.{IsMoved, IsUnderWay, residues};

use crate::interval::Interval;
use crate::known::Known;
use pb_norm::{AtMost, weight_of};
use std::alloc::{AllocError, Global};

/// The last of the residues that are wanted, with its level's place and coefficient.
#[derive(Clone, Copy)]
struct Top {
    place: usize,
    coef: u128,
    residue: u128,

    /// What the false child says, if it was found before.
    off: Option<Interval>,

    /// The node of the next level that became known in the last step, if one did.
    last: Option<Interval>,
}

/// What a look at a residue gives: its node, or a child's residue whose node is not known, with what the false child says where
/// the true one is missing.
#[derive(Clone, Copy)]
enum Look {
    Missing { child: u128, off: Option<Interval> },
    Found(Interval),
}

/// The node of a level in which a residue lies, if it is known. The last that became known is the one, where a child was wanted.
/// Most looks are short, and a call with its result in memory costs as much as they do.
#[inline(always)]
fn find_at(
    levels: &[Known],
    place: usize,
    residue: u128,
    last: Option<Interval>,
) -> Option<Interval>
    requires { IfSome last (Contains (nodes_at levels.now place)) }
    ensures { IsFound (nodes_at levels.now place) residue result }
{
    if let Some(node) = last {
        if node.low <= residue && residue < node.top {
            return Some(node);
        }
    }
    if place < levels.len() {
        levels[place].find(residue)
    } else {
        None
    }
}

/// What the false child says of the node in which a residue lies.
fn off_side(levels: &[Known], whole: u128, top: Top) -> Option<Interval>
    requires { IsSeen levels.now whole top }
    ensures { MatchOption result (LacksFalseChild whole (nodes_at levels.now (top.place + 1)) top.residue) (IsOff top.coef whole (nodes_at levels.now (top.place + 1)) top.residue) }
{
    if top.off.is_some() {
        return top.off;
    }
    if top.residue < whole {
        find_at(levels, top.place + 1, top.residue, top.last)
    } else {
        Some(Interval {
            low: whole,
            top: whole + top.coef,
        })
    }
}

/// What the true child says of the node in which a residue lies, with the coefficient added.
fn on_side(levels: &[Known], whole: u128, top: Top) -> Option<Interval>
    requires { IsSeen levels.now whole top }
    ensures { MatchOption result (LacksTrueChild top.coef (nodes_at levels.now (top.place + 1)) top.residue) (IsOn top.coef (nodes_at levels.now (top.place + 1)) top.residue) }
{
    let coef = top.coef;
    if top.residue < coef {
        return Some(Interval { low: 0, top: coef });
    }
    match find_at(levels, top.place + 1, top.residue - coef, top.last) {
        Some(interval) => Some(Interval {
            low: coef + interval.low,
            top: coef + interval.top,
        }),
        None => None,
    }
}

/// Looks for the node in which a residue lies, over the known nodes of the next level.
fn look_for(levels: &[Known], whole: u128, top: Top) -> Look
    requires { IsSeen levels.now whole top }
    ensures { Looked top.coef whole (nodes_at levels.now (top.place + 1)) top.residue result }
{
    match off_side(levels, whole, top) {
        None => Look::Missing {
            child: top.residue,
            off: None,
        },
        Some(off) => match on_side(levels, whole, top) {
            None => Look::Missing {
                child: top.residue - top.coef,
                off: Some(off),
            },
            Some(on) => Look::Found(Interval {
                low: off.low.max(on.low),
                top: off.top.min(on.top),
            }),
        },
    }
}

/// A residue whose node is wanted.
#[derive(Clone, Copy)]
struct Want {
    residue: u128,

    /// What the false child of its node says, once the true one is wanted beside it.
    off: Option<Interval>,
}

/// The nodes that are known, and for the first levels a residue each whose node is wanted.
#[derive(Drop)]
struct Search {
    levels: Vec<Known>,
    wanted: Vec<Want>,

    /// The node of the level after the residues' that became known in the last step, if one did.
    last: Option<Interval>,

    /// The sum of the coefficients after the levels of the residues.
    left: u128,
}

/// Levels with no node.
fn empty_levels(alloc: Global, count: usize) -> Result<Vec<Known>, AllocError>
    ensures { IfOk result (λ ls. ls.items ≡ replicate count []) }
{
    let mut levels = Vec::new(alloc);
    for _place in 0..count {
        levels.push(Known::new(alloc))?;
    }
    Ok(levels)
}

impl Search {
    /// No node is known, and the bound is wanted at the first level.
    fn start(alloc: Global, of: &AtMost) -> Result<Self, AllocError>
        requires { weight of.now.terms < 2 ^ 100 }
        ensures going { IfOk result (IsUnderWay of.now) }
        ensures none { IfOk result (λ s. node_count s.levels.items ≡ 0) }
    {
        let terms = of.terms();
        let levels = empty_levels(alloc, terms.len())?;
        let root = Want {
            residue: of.bound(),
            off: None,
        };
        let wanted = Vec::from_array(alloc, [root])?;
        let left = weight_of(terms) - terms[0].weight();
        Ok(Search {
            levels,
            wanted,
            last: None,
            left,
        })
    }

    /// The last residue that is wanted.
    fn top(&self, of: &AtMost) -> Top
        requires going { IsUnderWay of.now self.now }
        requires some { 0 < length self.now.wanted.items }
        requires fits { sum (coefs_of of.now.terms) < 2 ^ 100 }
        ensures { IsTop of.now self.now.levels.items (residues self.now.wanted.items) self.now.left result }
    {
        let wanted = self.wanted.as_slice();
        let place = wanted.len() - 1;
        let want = wanted[place];
        Top {
            place,
            coef: of.terms()[place].weight(),
            residue: want.residue,
            off: want.off,
            last: self.last,
        }
    }

    /// A child's residue is wanted too, and no node became known.
    fn want(
        &mut self,
        of: &AtMost,
        top: Top,
        child: u128,
        off: Option<Interval>,
    ) -> Result<bool, AllocError>
        requires going { IsUnderWay of.now self.old }
        requires top { IsTop of.now self.old.levels.items (residues self.old.wanted.items) self.old.left top }
        requires missing { IsMissing top.coef self.old.left (nodes_at self.old.levels.items (top.place + 1)) top.residue child }
        requires off { IfSome off (IsOff top.coef self.old.left (nodes_at self.old.levels.items (top.place + 1)) top.residue) }
        ensures { IfOk result (λ joined. IsMoved of.now joined self.old self.new) }
    {
        self.left -= of.terms()[top.place + 1].weight();
        self.wanted[top.place].off = off;
        self.wanted.push(Want {
            residue: child,
            off: None,
        })?;
        self.last = None;
        Ok(false)
    }

    /// The node of the last residue becomes known, which it tells.
    fn join(&mut self, of: &AtMost, top: Top, interval: Interval) -> Result<bool, AllocError>
        requires going { IsUnderWay of.now self.old }
        requires top { IsTop of.now self.old.levels.items (residues self.old.wanted.items) self.old.left top }
        requires joined { IsJoined top.coef self.old.left (nodes_at self.old.levels.items (top.place + 1)) top.residue interval }
        ensures { IfOk result (λ joined. IsMoved of.now joined self.old self.new) }
    {
        self.levels[top.place].insert(interval)?;
        self.wanted.pop();
        self.last = Some(interval);
        self.left += top.coef;
        Ok(true)
    }

    /// Looks at the last residue. Its node becomes known, or a child's residue is wanted too. Tells whether a node became known.
    fn advance(&mut self, of: &AtMost) -> Result<bool, AllocError>
        requires going { IsUnderWay of.now self.old }
        requires some { 0 < length self.old.wanted.items }
        requires fits { sum (coefs_of of.now.terms) < 2 ^ 100 }
        ensures { IfOk result (λ joined. IsMoved of.now joined self.old self.new) }
    {
        let top = self.top(of);
        match look_for(&self.levels, self.left, top) {
            Look::Missing { child, off } => self.want(of, top, child, off),
            Look::Found(interval) => self.join(of, top, interval),
        }
    }
}

/// All nodes of each level, if they are not more than the budget.
pub fn known_levels(
    alloc: Global,
    of: &AtMost,
    budget: u64,
) -> Result<Option<Vec<Known>>, AllocError>
    requires fits { weight of.now.terms < 2 ^ 100 }
    requires small { budget < 2 ^ 31 }
    ensures { IfOk result (λ found. MatchOption found (budget < node_count (levels_of of.now)) (λ ls. AreAllNodes of.now budget ls.items)) }
{
    let mut search = Search::start(alloc, of)?;
    let mut count = 0;
    while !search.wanted.is_empty() {
        if search.advance(of)? {
            count += 1;
            if count > budget {
                return Ok(None);
            }
        }
    }
    Ok(Some(search.levels))
}
