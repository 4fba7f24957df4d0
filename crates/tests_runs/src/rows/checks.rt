use super::cases::{assert_found, each_checked};
use super::texts::{
    ACCEPTED, CHECK, ONE_OF_TWO, ONE_OF_TWO_CNF, UNIT_AND_CLAUSE, UNIT_AND_CLAUSE_CNF,
};
use super::{judged, told_of};
use crate::runs::run_over;
use std::alloc::Global;

// What is answered of a derivation with these lines after its first, beside the problem `a` and the CNF `c`.
pub fn checked(alloc: Global, words: &str, opb: &str, cnf: &str, lines: &str) -> Option<String> {
    let proof = format!(in alloc; "pseudo-Boolean derivation profile 1\n{lines}").ok()?;
    judged(alloc, words, opb, cnf.as_bytes(), proof.as_bytes(), "")
}

const OF_TWO: &[(&str, &str, &str)] = &[
    (CHECK, "f 2\nout 1\nout 2\nend\n", ACCEPTED),
    // Blank lines and comments may stand anywhere.
    (
        CHECK,
        "\nf 2\n* both halves\nout 1\n \nout 2\nend\n*",
        ACCEPTED,
    ),
    // Steps that are refused.
    (
        CHECK,
        "f 2\nred +1 x1 >= 1 ; x1 -> 1\n",
        "7 pbcnf: PROOF line 3: sets original x1",
    ),
    (
        CHECK,
        "f 2\nrup +1 x1 >= 1 ;\n",
        "7 pbcnf: PROOF line 3: not propagated",
    ),
    (
        CHECK,
        "f 2\nrup +1 x3 >= 1 ;\n",
        "7 pbcnf: PROOF line 3: unknown variable x3",
    ),
    (
        CHECK,
        "f 2\nout 2\n",
        "7 pbcnf: PROOF line 3: not implied by 2",
    ),
    (
        CHECK,
        "f 2\nout 1\nout 2\nout 1\n",
        "7 pbcnf: PROOF line 5: no clause",
    ),
    (CHECK, "f 2\npol 1 +\n", "7 pbcnf: PROOF line 3: stack"),
    (
        CHECK,
        "f 2\npol 1 42535295865117307932921825928971026432 *\n",
        "7 pbcnf: PROOF line 3: width",
    ),
    // A step is reported at its first fault.
    (CHECK, "f 2\npol\n", "7 pbcnf: PROOF line 3: stack"),
    (
        CHECK,
        "f 2\npol 1 2 + 3\n",
        "7 pbcnf: PROOF line 3: unknown id 3",
    ),
    (
        CHECK,
        "f 2\npol 1 0 d\n",
        "1 pbcnf: PROOF 3:7: expected factor",
    ),
    (
        CHECK,
        "f 2\npol x1 *\n",
        "1 pbcnf: PROOF 3:8: expected operand",
    ),
    // The greatest factor that leaves room; then the text ends too early.
    (
        CHECK,
        "f 2\npol 1 42535295865117307932921825928971026431 *\n",
        "1 pbcnf: PROOF 4:1: expected step word",
    ),
    (
        CHECK,
        "f 2\npol 1 85070591730234615865843651857942052864 *\n",
        "3 pbcnf: PROOF 3:7: limit number",
    ),
    (
        CHECK,
        "f 2\nred +1 x1 >= 0 ; x2 -> 2\n",
        "1 pbcnf: PROOF 3:24: expected bit",
    ),
    (
        CHECK,
        "f 2\ndel 1 1\n",
        "7 pbcnf: PROOF line 3: unknown id 1",
    ),
    // Texts out of the grammar.
    (CHECK, "f 3\n", "1 pbcnf: PROOF 2:3: expected loaded count"),
    (
        CHECK,
        "f 2\nout 1\nout 2\nend\nout 1\n",
        "1 pbcnf: PROOF 6:1: expected derivation end",
    ),
    // A text that is not there.
    (
        "pbcnf check b c p",
        "f 2\nout 1\nout 2\nend\n",
        "4 pbcnf: read fault",
    ),
    (
        "pbcnf check a b p",
        "f 2\nout 1\nout 2\nend\n",
        "4 pbcnf: read fault",
    ),
    (
        "pbcnf check a c b",
        "f 2\nout 1\nout 2\nend\n",
        "4 pbcnf: read fault",
    ),
];

const OF_UNIT: &[(&str, &str, &str)] = &[
    (
        CHECK,
        "f 1\nrup +1 x1 >= 1 ; 1\nout 2\npol 1 x1 w s\nout 3\nend\n",
        ACCEPTED,
    ),
    // Steps that lack what they need.
    (
        CHECK,
        "f 1\nrup +1 x1 >= 1 ; 1\nout 2\npol 1 x1 w s\nend\n",
        "7 pbcnf: PROOF line 6: clauses left",
    ),
    (
        CHECK,
        "f 1\nrup +1 x1 >= 1 ; 1\nout 2\ndel 1\npol 1 x1 w s\nout 3\nend\n",
        "7 pbcnf: PROOF line 6: unknown id 1",
    ),
    (
        CHECK,
        "f 1\nrup +1 x1 >= 1 ; 1\nout 2\npol 1 x1 w s\nout 3\ndel 2\nend\n",
        "7 pbcnf: PROOF line 7: deletes output 2",
    ),
    (
        CHECK,
        "f 1\nrup +1 x1 >= 1 ; 1\nout 2\npol 1 x1 w s\nout 3\n",
        "1 pbcnf: PROOF 7:1: expected step word",
    ),
];

// The texts are judged in their order.
const OF_ANOTHER_CNF: &[(&str, &str, &str)] = &[(
    CHECK,
    "f 3\n",
    "1 pbcnf: CNF 1:7: expected var count",
)];

const OF_NO_PROBLEM: &[(&str, &str, &str)] = &[(CHECK, "f 3\n", "1 pbcnf: OPB 1:11: expected ;")];

// A derivation whose third line is a step that is not allowed, and a million comments.
fn long_derivation(alloc: Global) -> Option<String> {
    let comments = "*\n".repeat(alloc, 1_000_000).ok()?;
    let lines = "f 2\nred +1 x1 >= 1 ; x1 -> 1\n";
    format!(in alloc; "pseudo-Boolean derivation profile 1\n{lines}{comments}").ok()
}

// What is answered of a derivation on a desk that moves a byte in a call, and whose millionth call fails.
fn checked_slowly(alloc: Global, proof: &str) -> Option<String> {
    let texts = [
        ("a", ONE_OF_TWO.as_bytes()),
        ("c", ONE_OF_TWO_CNF.as_bytes()),
        ("p", proof.as_bytes()),
    ];
    let run = run_over(alloc, CHECK, &texts, 1_000_000, 1, 4096).ok()?;
    told_of(alloc, &run)
}

#[test]
fn checks(rt: HostRuntime) {
    each_checked(&rt, ONE_OF_TWO, ONE_OF_TWO_CNF, OF_TWO);
    each_checked(&rt, UNIT_AND_CLAUSE, UNIT_AND_CLAUSE_CNF, OF_UNIT);
    each_checked(&rt, ONE_OF_TWO, "p cnf 1 0\n", OF_ANOTHER_CNF);
    each_checked(&rt, "+1 x1 >= 1", "p dnf\n", OF_NO_PROBLEM);
}

#[test]
fn nothing_is_read_behind_the_verdict(rt: HostRuntime) {
    let line = "7 pbcnf: PROOF line 3: sets original x1";
    let proof = long_derivation(rt.alloc()).expect(&rt, "text");
    let found = checked_slowly(rt.alloc(), proof.as_str());
    assert_found(&rt, found, line, CHECK, "a million comments");
}
