//! A value for some variables, by pages, so that a great variable takes little memory.
//!
//! A page of 2^16 values is made when one of its variables is first true or false. A page without any takes a few words, so what a
//! line costs does not depend on the greatest variable. All else speaks of the list of true literals; that values by variable
//! represent such a list is proved in `pb_unit`, for any function from variables to values.
ghost use Rattle.std.specs.Prelude.{◌≡◌, ◌≢◌, ◌≤◌, ◌<◌, ℕ, [], length, slice_index_or, max, OnOk, OnErr, Some, None};
ghost use Rattle.pb_lrat.specs.inner.Marks.{value_at};

use pb_base::NoMemory;
use std::alloc::Global;
use std::marker::Model;

// How many values a page has.
const PAGE: usize = 1 << 16;

/// The values of a page: none, or all.
#[derive(Drop)]
struct Page {
    values: Vec<Option<bool>>,
}

impl Model for Page {
    ghost use Rattle.std.specs.Prelude.{List, Option, Bool};

    ghost Value = { List (Option Bool) };

    ghost view = { λ p. p.values.items };
}

// Extends the values to so many, if there are fewer.
fn fill(values: &mut Vec<Option<bool>>, size: usize) -> Result<(), NoMemory>
    ensures same { (w : ℕ) → slice_index_or values.new.items w None ≡ slice_index_or values.old.items w None }
    ensures filled { OnOk result (size ≤ length values.new.items) }
    ensures few { OnOk result (length values.new.items ≤ max (length values.old.items) size) }
{
    if size <= values.len() {
        return Ok(());
    }
    values.resize(size, None)?;
    Ok(())
}

impl Page {
    // Makes a page without values, which takes no memory.
    fn new(alloc: Global) -> Page
        ensures { result ≡ [] }
    {
        Page {
            values: Vec::new(alloc),
        }
    }

    // Returns the value at a position of the page, if there is one.
    fn get(&self, at: usize) -> Option<bool>
        ensures { result ≡ slice_index_or self.now at None }
    {
        match self.values.get(at) {
            Some(value) => *value,
            None => None,
        }
    }

    // Sets the value at a position of a page that has room for its values.
    fn set(&mut self, at: usize, value: bool)
        requires { at < length self.old }
        ensures here { slice_index_or self.new at None ≡ Some value }
        ensures others { (w : ℕ) → w ≢ at → slice_index_or self.new w None ≡ slice_index_or self.old w None }
        ensures size { length self.new ≡ length self.old }
    {
        self.values[at] = Some(value);
    }

    // Sets the value at a position, and makes room for the page's values first if it has none.
    fn put(&mut self, at: usize, value: bool) -> Result<(), NoMemory>
        requires { at < 65536 }
        ensures here { OnOk result (slice_index_or self.new at None ≡ Some value) }
        ensures few { OnOk result (length self.new ≤ max (length self.old) 65536) }
        ensures others { (w : ℕ) → w ≢ at → slice_index_or self.new w None ≡ slice_index_or self.old w None }
        ensures same { OnErr result ((w : ℕ) → slice_index_or self.new w None ≡ slice_index_or self.old w None) }
    {
        fill(&mut self.values, PAGE)?;
        self.set(at, value);
        Ok(())
    }

    // Removes the value at a position, if there is one.
    fn forget(&mut self, at: usize)
        ensures here { slice_index_or self.new at None ≡ None }
        ensures others { (w : ℕ) → w ≢ at → slice_index_or self.new w None ≡ slice_index_or self.old w None }
    {
        if at < self.values.len() {
            self.values[at] = None;
        }
    }
}

/// A value for some variables.
#[derive(Drop)]
pub(crate) struct Marks {
    alloc: Global,
    pages: Vec<Page>,
}

impl Model for Marks {
    ghost use Rattle.std.specs.Prelude.{List, Option, Bool};

    ghost Value = { List (List (Option Bool)) };

    ghost view = { λ m. m.pages.items };
}

// Adds pages up to the one of this number, from 0.
fn reach(alloc: Global, pages: &mut Vec<Page>, number: usize) -> Result<(), NoMemory>
    requires { number < 65536 }
    ensures same { (n : ℕ) → slice_index_or pages.new.items n [] ≡ slice_index_or pages.old.items n [] }
    ensures reached { OnOk result (number < length pages.new.items) }
{
    'pages: while pages.len() <= number {
        pages.push(Page::new(alloc))?;
    }
    Ok(())
}

impl Marks {
    // Starts without values.
    pub(crate) fn new(alloc: Global) -> Marks
        ensures { result ≡ [] }
    {
        Marks {
            alloc,
            pages: Vec::new(alloc),
        }
    }

    // Returns the value of a variable, if it has one.
    pub(crate) fn get(&self, var: u32) -> Option<bool>
        ensures { result ≡ value_at self.now var }
    {
        let var = var as usize;
        match self.pages.get(var / PAGE) {
            Some(page) => page.get(var % PAGE),
            None => None,
        }
    }

    // Gives a variable a value.
    pub(crate) fn set(&mut self, var: u32, value: bool) -> Result<(), NoMemory>
        ensures here { OnOk result (value_at self.new var ≡ Some value) }
        ensures others { (v : ℕ) → v ≢ var → value_at self.new v ≡ value_at self.old v }
        ensures same { OnErr result ((v : ℕ) → value_at self.new v ≡ value_at self.old v) }
    {
        let var = var as usize;
        let number = var / PAGE;
        reach(self.alloc, &mut self.pages, number)?;
        self.pages[number].put(var % PAGE, value)
    }

    // Takes the value of a variable away.
    pub(crate) fn forget(&mut self, var: u32)
        ensures here { value_at self.new var ≡ None }
        ensures others { (v : ℕ) → v ≢ var → value_at self.new v ≡ value_at self.old v }
    {
        let var = var as usize;
        let number = var / PAGE;
        if number < self.pages.len() {
            self.pages[number].forget(var % PAGE);
        }
    }
}
