// Derivations that are checked once as they are, and then with each of their lines changed.
use super::checking::is_accepted;
use crate::samples::families::{Files, Kind, Sum, made};
use std::alloc::Global;

/// What is put in the place of a line.
#[derive(Clone, Copy)]
pub enum Instead {
    /// Nothing.
    Gap,
    /// A line that takes an id and says nothing.
    Empty,
    /// The sum itself is put out, in the place of what is.
    Whole,
    /// What was put out before is put out once more.
    Before,
}

fn push_line(made: &mut String, line: &str) -> Option<()> {
    made.push_str(line).ok()?;
    made.push('\n').ok()
}

// A text with another line at a place.
fn with_line(alloc: Global, text: &str, place: usize, other: &str) -> Option<String> {
    let mut made = String::new(alloc);
    for (at, line) in text.lines().enumerate() {
        push_line(&mut made, if at == place { other } else { line })?;
    }
    Some(made)
}

/// True if a derivation is accepted with another line at a place.
pub fn is_accepted_with(
    alloc: Global,
    opb: &str,
    files: &Files,
    place: usize,
    other: &str,
) -> Option<bool> {
    let proof = with_line(alloc, files.proof.as_str(), place, other)?;
    is_accepted(alloc, opb, files.cnf.as_str(), proof.as_str())
}

// What is put in the place of a line of a text, if anything is. The line at the place before put out last.
fn other_line<'a>(text: &'a str, line: &str, before: usize, instead: Instead) -> Option<&'a str> {
    let puts_out = line.starts_with("out ");
    match instead {
        Instead::Gap => Some("*"),
        Instead::Empty => Some("rup >= 0 ; 1"),
        Instead::Whole if puts_out => Some("out 1"),
        Instead::Before if puts_out => text.lines().nth(before),
        _ => None,
    }
}

// At how many lines a derivation is accepted with that in the line's place.
fn count_accepted(alloc: Global, opb: &str, files: &Files, instead: Instead) -> Option<u64> {
    let mut count: u64 = 0;
    let mut before = 0;
    for (place, line) in files.proof.lines().enumerate() {
        if let Some(other) = other_line(files.proof.as_str(), line, before, instead) {
            if is_accepted_with(alloc, opb, files, place, other)? {
                count = count.wrapping_add(1);
            }
        }
        if line.starts_with("out ") {
            before = place;
        }
    }
    Some(count)
}

// How many lines a derivation has that is accepted; and with how many of them that is so without the line, with an empty one, where
// the sum is put out, and where what was put out before is.
fn report_on(alloc: Global, opb: &str, files: &Files) -> Option<String> {
    if !is_accepted(alloc, opb, files.cnf.as_str(), files.proof.as_str())? {
        return "not accepted".to_string(alloc).ok();
    }
    let lines = files.proof.lines().count();
    let gap = count_accepted(alloc, opb, files, Instead::Gap)?;
    let empty = count_accepted(alloc, opb, files, Instead::Empty)?;
    let whole = count_accepted(alloc, opb, files, Instead::Whole)?;
    let before = count_accepted(alloc, opb, files, Instead::Before)?;
    format!(in alloc; "{lines}: {gap} {empty} {whole} {before}").ok()
}

/// The same of a sum's derivation by a family.
pub fn report(alloc: Global, kind: Kind, sum: Sum) -> Option<String> {
    let files = made(alloc, kind, sum)?;
    report_on(alloc, sum.opb, &files)
}
