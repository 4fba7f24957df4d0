//! Which numbers a list has already.

use std::alloc::{AllocError, Global};

/// A mark for each number below the table's size. Larger numbers are never marked.
#[derive(Drop)]
pub struct Seen {
    pub marks: Vec<bool>,
}

impl Seen {
    ghost use Rattle.std.specs.Prelude.{◌≡◌, ◌⊎◌, ℕ, IfOk, false};
    ghost use Rattle.pb_gentot.specs.inner.Marks.{HasMark, MarksOnly};

    /// Marks of some values, in a table of a size.
    pub fn of(alloc: Global, values: &[u128], size: usize) -> Result<Seen, AllocError>
        ensures { IfOk result (λ seen. MarksOnly seen values.now) }
    {
        let mut marks = Vec::new(alloc);
        marks.resize(size, false)?;
        let mut seen = Seen { marks };
        for value in values {
            let _ = seen.insert(*value);
        }
        Ok(seen)
    }

    /// Marks a number, and answers whether it had no mark. One past the table has none, then and later.
    pub fn insert(&mut self, value: u128) -> bool
        ensures again { result ≡ false → HasMark self.old value }
        ensures marks { (n : ℕ) → HasMark self.new n → (n ≡ value) ⊎ HasMark self.old n }
    {
        if value >= self.marks.len() as u128 {
            return true;
        }
        let place = value as usize;
        let is_new = !self.marks[place];
        self.marks[place] = true;
        is_new
    }
}
