//! Clauses by their ids, all literals in one list.
//!
//! The definition has a list of ids with clauses. The code has three arrays: all literals, ascending ids, and where each clause's
//! literals are. A hint is looked for at the index that it has if no id is missing before it, or none after it; else by binary
//! search.
//!
//! Once deleted clauses take more than half of the arrays, the live ones are copied into new arrays. If there is no memory for that,
//! the old ones stay, so deleting never fails.
ghost use Rattle.std.specs.Prelude.{◌≡◌, ◌≢◌, ◌≤◌, ◌<◌, ℕ, length, slice_index_or, slice_range, ◌==◌, ◌∷◌, ◌++◌, [], not, filter, IfSome, IfOk, OnOk, OnErr, Some, None, vec_len, vec_capacity};
ghost use Rattle.std.specs.List.{list_any};
ghost use Rattle.pb_lrat.specs.Hints.{clause_at};

use pb_base::{Lit, NoMemory};
use std::alloc::Global;
use std::marker::Model;

/// The range of a clause's literals among the literals of all clauses, `end` excluded.
#[derive(Clone, Copy)]
pub(crate) struct Span {
    pub start: usize,
    pub end: usize,
}

/// Clauses by their ids, which ascend, and the greatest id so far.
#[derive(Drop)]
pub(crate) struct Store {
    alloc: Global,
    lits: Vec<Lit>,
    ids: Vec<u64>,
    spans: Vec<Option<Span>>,
    last: u64,
    // How much of the lists deleted clauses take.
    unused: usize,
}

impl Model for Store {
    ghost use Rattle.pb_lrat.specs.inner.Stores.{Library, IsStore, kept_in};

    ghost Value = { Library };

    ghost view = { λ s. record { last = s.last; live = kept_in s.lits.items s.ids.items s.spans.items } };

    ghost invariant = { λ s. IsStore s.lits.items s.ids.items s.spans.items s.last };
}

// Returns the position, if the id there is this one.
fn stands_at(ids: &[u64], id: u64, place: usize) -> Option<usize>
    ensures within { IfSome result (λ i. i < length ids.now) }
    ensures at { IfSome result (λ i. slice_index_or ids.now i 0 ≡ id) }
{
    if place < ids.len() && ids[place] == id {
        Some(place)
    } else {
        None
    }
}

// Finds an id at the position that it has if no id before it, or none after it, is missing, as is mostly so.
fn likely_place(ids: &[u64], id: u64) -> Option<usize>
    ensures within { IfSome result (λ i. i < length ids.now) }
    ensures at { IfSome result (λ i. slice_index_or ids.now i 0 ≡ id) }
{
    if let Some(place) = stands_at(ids, id, (id as usize).wrapping_sub(1)) {
        return Some(place);
    }
    let last = ids.last()?;
    let later = last.wrapping_sub(id) as usize;
    stands_at(ids, id, ids.len().wrapping_sub(1).wrapping_sub(later))
}

// Finds the position of an id among ascending ids.
fn place_of(ids: &[u64], id: u64) -> Option<usize>
    requires ascending { (i j : ℕ) → i < j → j < length ids.now → slice_index_or ids.now i 0 < slice_index_or ids.now j 0 }
    ensures within { IfSome result (λ i. i < length ids.now) }
    ensures at { IfSome result (λ i. slice_index_or ids.now i 0 ≡ id) }
    ensures none { result ≡ None → (k : ℕ) → k < length ids.now → slice_index_or ids.now k 0 ≢ id }
{
    if let Some(place) = likely_place(ids, id) {
        return Some(place);
    }
    match ids.binary_search(&id) {
        Ok(place) => Some(place),
        Err(_) => None,
    }
}

// Returns the literals of a span.
fn literals_at(lits: &[Lit], span: Span) -> &[Lit]
    requires order { span.start ≤ span.end }
    requires within { span.end ≤ length lits.now }
    ensures { result.now ≡ slice_range lits.now span.start span.end }
{
    &lits[span.start..span.end]
}

// Returns how many entries of the lists a clause takes: its literals, and its id.
fn room_of(span: Option<Span>) -> usize {
    match span {
        None => 0,
        Some(span) => span.end.saturating_sub(span.start).saturating_add(1),
    }
}

// Appends an id, for which there is room.
fn append_id(ids: &mut Vec<u64>, id: u64)
    requires { vec_len ids.old < vec_capacity ids.old }
    ensures { ids.new.items ≡ ids.old.items ++ id ∷ [] }
{
    match ids.push(id) {
        Ok(()) => {}
        Err(_) => {}
    }
}

// Appends a span, for which there is room.
fn append_span(spans: &mut Vec<Option<Span>>, span: Span)
    requires { vec_len spans.old < vec_capacity spans.old }
    ensures { spans.new.items ≡ spans.old.items ++ Some span ∷ [] }
{
    match spans.push(Some(span)) {
        Ok(()) => {}
        Err(_) => {}
    }
}

impl Store {
    // Makes a store without clauses.
    pub(crate) fn new(alloc: Global) -> Store
        ensures { result ≡ record { last = 0; live = [] } }
    {
        Store {
            alloc,
            lits: Vec::new(alloc),
            ids: Vec::new(alloc),
            spans: Vec::new(alloc),
            last: 0,
            unused: 0,
        }
    }

    // Returns the greatest id so far, which no clause needs to have any more.
    pub(crate) fn last(&self) -> u64
        ensures { result ≡ self.now.last }
    {
        self.last
    }

    // Returns the clause of an id, if it is live.
    pub(crate) fn get(&self, id: u64) -> Option<&[Lit]>
        ensures some { IfSome result (λ clause. clause_at self.now.live id ≡ Some clause.now) }
        ensures none { result ≡ None → clause_at self.now.live id ≡ None }
    {
        let Some(place) = place_of(&self.ids, id) else {
            return None;
        };
        match self.spans[place] {
            None => None,
            Some(span) => Some(literals_at(&self.lits, span)),
        }
    }

    // Adds a clause under an id that is greater than all others.
    pub(crate) fn push(&mut self, id: u64, clause: &[Lit]) -> Result<(), NoMemory>
        requires { self.old.last < id }
        ensures ok { OnOk result (self.new ≡ record { last = id; live = self.old.live ++ record { id = id; clause = clause.now } ∷ [] }) }
        ensures err { OnErr result (self.new ≡ self.old) }
    {
        self.ids.reserve(1)?;
        self.spans.reserve(1)?;
        let start = self.lits.len();
        self.lits.extend_from_slice(clause)?;
        let end = self.lits.len();
        append_id(&mut self.ids, id);
        append_span(&mut self.spans, Span { start, end });
        self.last = id;
        Ok(())
    }

    // Raises the greatest id so far to one that no clause has.
    fn raise(&mut self, last: u64)
        requires { self.old.last ≤ last }
        ensures { self.new ≡ record self.old { last = last } }
    {
        self.last = last;
    }

    // Copies the live clauses into lists without what was deleted.
    fn packed_copy(&self) -> Result<Store, NoMemory>
        ensures { IfOk result (λ store. store ≡ self.now) }
    {
        let mut store = Store::new(self.alloc);
        for place in 0..self.ids.len() {
            if let Some(span) = self.spans[place] {
                store.push(self.ids[place], literals_at(&self.lits, span))?;
            }
        }
        store.raise(self.last);
        Ok(store)
    }

    // Gives up the room of deleted clauses once it is more than half, unless memory runs out for that.
    fn pack(&mut self)
        ensures { self.new ≡ self.old }
    {
        if self.unused <= (self.lits.len() / 2).saturating_add(self.ids.len() / 2) {
            return;
        }
        self.unused = 0;
        if let Ok(packed) = self.packed_copy() {
            *self = packed;
        }
    }

    // Deletes the clause of an id, if it is live.
    fn remove(&mut self, id: u64)
        ensures { self.new ≡ record { last = self.old.last; live = filter (λ k. not (k.id == id)) self.old.live } }
    {
        if let Some(place) = place_of(&self.ids, id) {
            self.unused = self.unused.saturating_add(room_of(self.spans[place]));
            self.spans[place] = None;
        }
    }

    // Deletes the clauses of several ids, each if it is live.
    fn remove_each(&mut self, ids: &[u64])
        ensures { self.new ≡ record { last = self.old.last; live = filter (λ k. not (list_any (λ id. k.id == id) ids.now)) self.old.live } }
    {
        for id in ids {
            self.remove(*id);
        }
    }

    // Deletes the clauses of several ids, each if it is live, and packs the lists if more than half of them is unused.
    pub(crate) fn remove_all(&mut self, ids: &[u64])
        ensures { self.new ≡ record { last = self.old.last; live = filter (λ k. not (list_any (λ id. k.id == id) ids.now)) self.old.live } }
    {
        self.remove_each(ids);
        self.pack();
    }
}
