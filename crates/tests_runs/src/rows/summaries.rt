//! What is said of a CNF, where what counts 0 is left out: of sizes, and then of what the sums are made into.

use std::alloc::Global;

// What is counted in any case. Halves of equalities that are made into one are counted after them, where there are any.
const COUNTED: [&str; 11] = [
    "nothing",
    "empty",
    "clause",
    "pairwise",
    "ladder",
    "product",
    "counter",
    "totalizer",
    "diagram",
    "tree",
    "adder",
];

// The number after a word, or 0 where the word is not there.
fn number_behind<'a>(counts: &'a str, word: &str) -> &'a str {
    let mut is_next = false;
    for part in counts.split(' ') {
        if is_next {
            return part;
        }
        is_next = part == word;
    }
    "0"
}

// Adds a word with its number.
fn push_count(alloc: Global, counts: &str, word: &str, said: &mut String) -> Option<()> {
    let number = number_behind(counts, word);
    let count = format!(in alloc; " {word} {number}").ok()?;
    said.push_str(count.as_str()).ok()
}

// The counts with those that are 0, each after a blank.
fn all_counts(alloc: Global, counts: &str) -> Option<String> {
    let mut said = String::new(alloc);
    for word in COUNTED {
        push_count(alloc, counts, word, &mut said)?;
    }
    if number_behind(counts, "joint") != "0" {
        push_count(alloc, counts, "joint", &mut said)?;
    }
    Some(said)
}

/// The whole of what is said: the line of sizes, the line of counts with those that are 0, and the lines after.
pub fn summary(alloc: Global, short: &str) -> Option<String> {
    let (sizes, rest) = short.split_once("\n")?;
    let (counts, rows) = rest.split_once("\n")?;
    let counts = all_counts(alloc, counts)?;
    let counts = counts.as_str().strip_prefix(" ")?;
    format!(in alloc; "{sizes}\n{counts}\n{rows}").ok()
}
