use super::cases::assert_found;
use super::texts::{CLAUSE, USAGE};
use super::told;

// Words that ask for nothing that the program does.
const UNUSABLE: &[&str] = &[
    // Too few, and too many.
    "pbcnf",
    "pbcnf encode",
    "pbcnf encode a",
    "pbcnf encode a c p d",
    // One file to read and to make.
    "pbcnf encode a a",
    "pbcnf encode a c a",
    "pbcnf encode a c c",
    "pbcnf check a c",
    "pbcnf check a c p q",
    "pbcnf check a a p",
    "pbcnf check a c a",
    "pbcnf check a c c",
    "pbcnf decode a",
    "pbcnf decode a m q",
    "pbcnf decode a a",
    "pbcnf map",
    "pbcnf map a c",
    "pbcnf wcnf a",
    "pbcnf wcnf a w q",
    "pbcnf wcnf a a",
    // No names of files.
    "pbcnf encode -a c",
    "pbcnf encode a --card",
    // No numbers within their ranges.
    "pbcnf bench 1",
    "pbcnf bench 1 0 c d",
    "pbcnf bench 1000001 0",
    "pbcnf bench 1 4294967296",
    "pbcnf bench +1 0",
    // A bound is digits alone, below 2^100, and is given once.
    "pbcnf encode a c --at-most=-1",
    "pbcnf check a c p --at-most=1267650600228229401496703205376",
    "pbcnf decode a m --at-most=1 --at-most-minus=1",
    "pbcnf map a --at-most=1",
    "pbcnf bench 1 0 --at-most=1",
    "pbcnf probe c --at-most=1",
    "pbcnf wcnf a w --at-most=+1",
    "pbcnf wcnf a w --at-most-minus=",
    "pbcnf refute a c p l --at-most-minus=1 --at-most-minus=1",
    // A table has no value, and is given once, with `encode` alone.
    "pbcnf encode a c --table=1",
    "pbcnf encode a c --table --table",
    "pbcnf wcnf a w --table",
    "pbcnf check a c p --table",
    "pbcnf bench 1 0 --table",
    // No command.
    "pbcnf decide a c",
    "pbcnf  a c",
];

#[test]
fn words_that_ask_for_nothing(rt: HostRuntime) {
    for &words in UNUSABLE {
        let found = told(rt.alloc(), words, &[("a", CLAUSE.as_bytes())]);
        assert_found(&rt, found, USAGE, words, CLAUSE);
    }
}
