//! A walk along a tree of halves, which hands over what each node has.
ghost use Rattle.std.specs.Prelude.{◌≡◌, ◌≤◌, ◌+◌, ◌++◌, [], ℕ, List, Result, length, IfOk};
ghost use Rattle.std.specs.declared.result.Result.TheVariants.{Ok, Err};
ghost use Rattle.pb_base.specs.declared.literal.Term.{Term};
ghost use Rattle.pb_norm.specs.Constraints.{weights};
ghost use Rattle.pb_tree.specs.Scheme.{Scheme, along};
ghost use Rattle.pb_tree.specs.Tree.{Tree, tree_of};
ghost use Rattle.pb_tree.specs.Walks.{AreParts, Suits, fresh_over};

use crate::halving::halves;
use pb_base::Term;
use std::alloc::Global;

/// What a part leaves to what stands over it, and how many fresh variables stand before the part and in it.
#[derive(Drop)]
pub struct Placed<P: Drop> {
    pub part: P,
    pub next: u64,
}

/// A node's terms and their two halves, with what these leave, and how many fresh variables stand before the node and before its
/// own ones.
#[derive(Drop)]
pub struct Parts<'a, P> {
    pub terms: &'a [Term],
    pub lefts: &'a [Term],
    pub left: &'a P,
    pub rights: &'a [Term],
    pub right: &'a P,
    pub before: u64,
    pub next: u64,
}

/// What a walk hands over to a sink. Fresh variables are counted from the walk's first one on.
pub trait Walk<S> {
    ghost use Rattle.pb_tree.specs.declared.walk.Placed.{Placed};

    /// What a part leaves to what stands over it.
    type Part: Drop;

    /// Why it may end early.
    type Fault: Drop;

    /// What is handed over.
    ghost Item: { Type 0 };

    /// The scheme of the tree.
    ghost scheme: { Self → Scheme };

    /// How many fresh variables there are.
    ghost most: { Self → ℕ };

    /// What a node hands over, by its two parts and how many fresh variables stand before them.
    ghost own: { Self → Tree → Tree → ℕ → List Item };

    /// How it is handed over, all or a first part.
    ghost hands: { List Item → Result (Placed Self.Part) Self.Fault → S → S → Type 0 };

    /// The sink has room for so many.
    ghost has_room: { ℕ → S → Type 0 };

    /// What some terms leave, before which so many fresh variables stand.
    ghost leaves: { Self → List Term → ℕ → Self.Part → Type 0 };

    /// What a leaf leaves, which hands over nothing.
    fn leaf(
        &self,
        alloc: Global,
        terms: &[Term],
        before: u64,
    ) -> Result<Placed<Self::Part>, Self::Fault>
        requires one { length terms.now ≡ 1 }
        requires suits { Suits (scheme self.now) (most self.now) terms.now before }
        ensures hands { (a : S) → hands [] result a a }
        ensures next { IfOk result (λ placed. placed.next ≡ before) }
        ensures leaves { IfOk result (λ placed. leaves self.now terms.now before placed.part) };

    /// Hands over what a node has, and what it leaves.
    fn node(
        &self,
        alloc: Global,
        parts: &Parts<Self::Part>,
        sink: &mut S,
    ) -> Result<Placed<Self::Part>, Self::Fault>
        requires suits { Suits (scheme self.now) (most self.now) parts.now.terms.now parts.now.before }
        requires parts { AreParts (scheme self.now) parts.now.terms.now parts.now.lefts.now parts.now.rights.now parts.now.before parts.now.next }
        requires left { leaves self.now parts.now.lefts.now parts.now.before parts.now.left.now }
        requires right { leaves self.now parts.now.rights.now (parts.now.before + fresh_over (scheme self.now) parts.now.lefts.now) parts.now.right.now }
        requires room { has_room (length (own self.now (tree_of (weights parts.now.lefts.now)) (tree_of (weights parts.now.rights.now)) parts.now.before)) sink.old }
        ensures hands { hands (own self.now (tree_of (weights parts.now.lefts.now)) (tree_of (weights parts.now.rights.now)) parts.now.before) result sink.old sink.new }
        ensures next { IfOk result (λ placed. placed.next ≡ parts.now.before + fresh_over (scheme self.now) parts.now.terms.now) }
        ensures leaves { IfOk result (λ placed. leaves self.now parts.now.terms.now parts.now.before placed.part) };

    /// Some are handed over, and then the others.
    ghost then: { (xs ys : List Item) (placed : Placed Self.Part) (r : Result (Placed Self.Part) Self.Fault) (a b c : S) → hands xs (Ok placed) a b → hands ys r b c → hands (xs ++ ys) r a c };

    /// The fault in the first ones ends it.
    ghost stops: { (xs ys : List Item) (f : Self.Fault) (a b : S) → hands xs (Err f) a b → hands (xs ++ ys) (Err f) a b };

    /// Room for all is room for the first ones.
    ghost room_first: { (m n : ℕ) (a : S) → has_room (m + n) a → has_room m a };

    /// Behind these it is room for the others.
    ghost room_then: { (xs : List Item) (n : ℕ) (placed : Placed Self.Part) (a b : S) → has_room (length xs + n) a → hands xs (Ok placed) a b → has_room n b };
}

/// Walks along the tree of some terms, before which so many fresh variables stand.
pub fn walk_along<S, W: Walk<S>>(
    alloc: Global,
    of: &W,
    terms: &[Term],
    before: u64,
    sink: &mut S,
) -> Result<Placed<W::Part>, W::Fault>
    requires some { 1 ≤ length terms.now }
    requires suits { Suits (W.scheme of.now) (W.most of.now) terms.now before }
    requires room { W.has_room (length (along (W.scheme of.now) (W.own of.now) (tree_of (weights terms.now)) before)) sink.old }
    ensures hands { W.hands (along (W.scheme of.now) (W.own of.now) (tree_of (weights terms.now)) before) result sink.old sink.new }
    ensures next { IfOk result (λ placed. placed.next ≡ before + fresh_over (W.scheme of.now) terms.now) }
    ensures leaves { IfOk result (λ placed. W.leaves of.now terms.now before placed.part) }
{
    if terms.len() == 1 {
        return of.leaf(alloc, terms, before);
    }
    let (lefts, rights) = halves(terms);
    let left = walk_along(alloc, of, lefts, before, sink)?;
    let right = walk_along(alloc, of, rights, left.next, sink)?;
    let parts = Parts {
        terms,
        lefts,
        left: &left.part,
        rights,
        right: &right.part,
        before,
        next: right.next,
    };
    of.node(alloc, &parts, sink)
}
