// The generator of problems, against a program of another language.
use crate::cases::assert_found;
use pb_gen::generate;
use pb_opb::read_opb;
use std::alloc::Global;

fn text_of(alloc: Global, n: u32, seed: u32) -> Option<String> {
    let text = generate(alloc, n, seed).ok()?;
    str::from_utf8(text.as_slice()).ok()?.to_string(alloc).ok()
}

// Numbers of statements, seeds, and the texts that are due.
const SMALL: &[(u32, u32, &str)] = &[
    (0, 5, "* #variable= 10 #constraint= 0\n"),
    (
        1,
        0,
        "* #variable= 11 #constraint= 1\n+1 ~x7 +1 x3 >= 1 ;\n",
    ),
    (
        3,
        7,
        "* #variable= 13 #constraint= 3\n\
         +1 ~x2 +5 x11 +8 ~x4 +17 ~x12 +12 ~x2 +20 x2 +15 ~x6 +16 ~x6 +2 ~x4 +5 x6 >= 26 ;\n\
         +1 x3 +1 x13 +1 ~x12 +1 x10 +1 x11 +1 ~x7 +1 x9 +1 x12 >= 7 ;\n\
         +17 x3 +2 x9 +15 ~x10 +3 x7 +17 x1 +17 ~x4 >= 40 ;\n",
    ),
    (
        1,
        4_294_967_295,
        "* #variable= 11 #constraint= 1\n+16 ~x6 +5 x7 +15 x11 +18 x11 +15 x10 +10 ~x1 +2 x11 <= 19 ;\n",
    ),
];

// How long a text is, how many variables and statements are read of it, and whether it ends with this line.
fn told(alloc: Global, text: &[u8], last: &str) -> Option<String> {
    let problem = read_opb(alloc, text).ok()?;
    let (vars, statements) = (problem.vars, problem.statements.len());
    let ends = text.ends_with(last.as_bytes());
    format!(in alloc;
        "{} bytes, {vars} variables, {statements} statements, {ends}",
        text.len()
    )
    .ok()
}

// The same of a generated text.
fn told_of(alloc: Global, n: u32, seed: u32, last: &str) -> Option<String> {
    let text = generate(alloc, n, seed).ok()?;
    told(alloc, text.as_slice(), last)
}

// The last line of a thousand statements.
const LAST: &str =
    "+9 ~x812 +5 ~x313 +10 x35 +13 ~x577 +17 ~x400 +18 ~x576 +12 ~x639 +9 x683 +9 x613 >= 34 ;\n";

#[test]
fn problems_are_generated(rt: HostRuntime) {
    for &(n, seed, expected) in SMALL {
        let found = text_of(rt.alloc(), n, seed);
        assert_found(&rt, found, expected, expected);
    }
    let found = told_of(rt.alloc(), 1000, 7, LAST);
    let expected = "63646 bytes, 1010 variables, 1000 statements, true";
    assert_found(&rt, found, expected, LAST);
}
