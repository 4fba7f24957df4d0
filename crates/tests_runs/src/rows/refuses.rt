use super::cases::{assert_found, each_told};
use super::texts::{ENCODE, LITERAL, RELATION, START};
use super::told;

const CASES: &[(&str, &str, &str)] = &[
    // Texts out of the grammar.
    (ENCODE, "+1 x1 >= 1", "1 pbcnf: OPB 1:11: expected ;"),
    (ENCODE, "max: +1 x1 ;\n", START),
    (ENCODE, "x1 >= 1 ;\n", START),
    (ENCODE, "+1 x1 2x >= 1 ;\n", RELATION),
    (ENCODE, "+1 x0 >= 1 ;\n", LITERAL),
    (ENCODE, "+1 x1 > 1 ;\n", RELATION),
    (
        ENCODE,
        "+1 x1 >= 1 ; min: ;\n",
        "1 pbcnf: OPB 1:14: expected a statement or the end",
    ),
    (
        ENCODE,
        "+1 x1 >= ;\n",
        "1 pbcnf: OPB 1:10: expected an integer",
    ),
    (
        ENCODE,
        "min: +1 x1 >= 1 ;\n",
        "1 pbcnf: OPB 1:12: expected a coefficient or ;",
    ),
    (ENCODE, "+1 ~ x1 >= 1 ;\n", LITERAL),
    (ENCODE, "+1 2a >= 1 ;\n", LITERAL),
    (ENCODE, "+1 ~~a >= 1 ;\n", LITERAL),
    (ENCODE, "+ 1 x1 >= 1 ;\n", START),
    (ENCODE, "+1 x1 >= 1 2 ;\n", "1 pbcnf: OPB 1:12: expected ;"),
    // The other texts are not there, and are not asked for.
    ("pbcnf check a c p", "max: +1 x1 ;\n", START),
    ("pbcnf refute a c p l", "max: +1 x1 ;\n", START),
    ("pbcnf decode a m", "max: +1 x1 ;\n", START),
    // Texts past a limit.
    (
        ENCODE,
        "+633825300114114700748351602688 x1 >= 633825300114114700748351602688 ;\n",
        "3 pbcnf: OPB 1:39: limit weight",
    ),
    (
        ENCODE,
        "+1 x2147483648 >= 1 ;\n",
        "3 pbcnf: OPB 1:4: limit variables",
    ),
    // Two fresh variables are one too many.
    (
        "pbcnf encode --amo ladder a c",
        "* #variable= 2147483646 #constraint= 1\n-1 x1 -1 x2 -1 x3 >= -1 ;\n",
        "3 pbcnf: totals: limit variables",
    ),
    // A file that is not there.
    (
        "pbcnf encode b c",
        "+1 x1 +1 x2 >= 1 ;\n",
        "4 pbcnf: read fault",
    ),
];

#[test]
fn problems_that_are_refused(rt: HostRuntime) {
    each_told(&rt, CASES);
    let found = told(rt.alloc(), ENCODE, &[("a", b"\xff")]);
    assert_found(&rt, found, START, ENCODE, "a byte that is in no text");
}
