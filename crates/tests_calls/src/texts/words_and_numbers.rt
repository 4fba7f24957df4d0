use crate::cases::{assert_found, assert_page};
use pb_base::{end_of, read_number, tokens, words};
use std::alloc::Global;

// Adds where a piece stands, by line and column, and how long it is.
fn push_piece(
    alloc: Global,
    line: u64,
    column: u64,
    piece: &[u8],
    found: &mut String,
) -> Option<()> {
    let piece = format!(in alloc; "{line}:{column}+{} ", piece.len()).ok()?;
    found.push_str(piece.as_str()).ok()
}

fn tokens_text(alloc: Global, text: &str) -> Option<String> {
    let mut found = String::new(alloc);
    for token in tokens(text.as_bytes()) {
        push_piece(
            alloc,
            token.place.line,
            token.place.column,
            token.text,
            &mut found,
        )?;
    }
    Some(found)
}

// The same of the words of a line.
fn words_text(alloc: Global, text: &str) -> Option<String> {
    let mut found = String::new(alloc);
    for word in words(text.as_bytes()) {
        push_piece(alloc, 1, word.column, word.text, &mut found)?;
    }
    Some(found)
}

// What a text is as a number.
fn number_text(alloc: Global, text: &str) -> Option<String> {
    format!(in alloc; "{:?}", read_number(text.as_bytes())).ok()
}

// Texts with what they are as numbers, which follows `=>`.
const NUMBERS: &str = "\
-007 => Value(-7)
+ => NotANumber
85070591730234615865843651857942052864 => TooWide
-85070591730234615865843651857942052863 => Value(-85070591730234615865843651857942052863)";

#[test]
fn tokens_words_and_numbers(rt: HostRuntime) {
    let text = "min:+1 x1;* all >= here\n>= >==a<b* c";
    let found = tokens_text(rt.alloc(), text);
    let expected = "1:1+4 1:5+2 1:8+2 1:10+1 2:1+2 2:4+2 2:6+1 2:7+1 2:8+1 2:9+2 2:12+1 ";
    assert_found(&rt, found, expected, text);
    let line = "\t p cnf  3*;\r";
    let found = words_text(rt.alloc(), line);
    assert_found(&rt, found, "1:3+1 1:5+3 1:10+3 ", line);
    let end = format!(in rt.alloc(); "{}", end_of(b"+1 x1\n>= 1")).ok();
    assert_found(&rt, end, "2:5", "the end");
    assert_page(&rt, number_text, "\n", NUMBERS);
}
