// Derivations that families make, checked beside their clauses.
use super::changed_lines::report;
use super::checking::is_accepted;
use crate::cases::assert_found;
use crate::samples::families::{Kind, Sum, made};
use pb_opb::read_opb;
use std::alloc::Global;

const THREE: &str = "-1 x1 -1 x2 -1 x3 >= -1 ;";

const FOUR: &str = "+1 ~x1 +1 ~x2 +1 ~x3 +1 ~x4 >= 2 ;";

const SIX: &str = "+1 ~x1 +1 ~x2 +1 ~x3 +1 ~x4 +1 ~x5 +1 ~x6 >= 5 ;";

const NINE: &str = "+1 ~x1 +1 ~x2 +1 ~x3 +1 ~x4 +1 ~x5 +1 ~x6 +1 ~x7 +1 ~x8 +1 ~x9 >= 8 ;";

// At most three of five.
const FIVE: &str = "+1 x1 +1 ~x2 +1 x3 +1 ~x4 +1 x5 >= 2 ;";

// At most 5 of 9.
const FALLING: &str = "+4 ~x1 +3 ~x2 +2 ~x3 >= 4 ;";

// At most 8 of 15: two residues meet.
const MEETING: &str = "+5 ~x1 +4 ~x2 +3 ~x3 +3 ~x4 >= 7 ;";

// At most 6 of 12, with terms in no order and signs of both kinds.
const MIXED: &str = "+1 ~x1 +5 ~x2 +2 x3 +4 ~x4 >= 6 ;";

// Coefficients that add up to more than 2^99.
const GREAT: &str = "+300000000000000000000000000001 ~x1 +300000000000000000000000000000 ~x2 \
+299999999999999999999999999999 ~x3 >= 300000000000000000000000000001 ;";

// At most 12 of 29: a literal is the last bit of two levels.
const EIGHTS: &str = "+8 ~x1 +8 ~x2 +8 ~x3 +5 ~x4 >= 17 ;";

// At most 2 of 4.
const NEAR: &str = "+1 x1 +2 ~x2 +1 x3 >= 2 ;";

// At most 34 of 36, with enough terms for a diagram's guards.
const TWENTY: &str =
    "+2 x1 +2 ~x2 +2 x3 +2 ~x4 +2 x5 +2 ~x6 +2 x7 +2 ~x8 +2 x9 +2 ~x10 +2 x11 +2 ~x12 \
+2 x13 +2 ~x14 +2 x15 +2 ~x16 +1 x17 +1 ~x18 +1 x19 +1 ~x20 >= 2 ;";

// What `report` says of a derivation without other statements, whose fresh variables come right after those of the text.
fn report_of(alloc: Global, kind: Kind, opb: &str) -> Option<String> {
    let vars = read_opb(alloc, opb.as_bytes()).ok()?.vars;
    if vars > 1000 {
        return None;
    }
    let sum = Sum {
        opb,
        first: vars + 1,
        loaded: 1,
        budget: 1000,
    };
    report(alloc, kind, sum)
}

// Families and statements, and what is expected of their derivations: the number of lines, and then how many of them may be left out
// (those that delete), be empty (these, and constraints of which no clause has need), give way to the sum (at most one implies each
// clause of two of its literals), or to what was put out before.
const CASES: &[(Kind, &str, &str)] = &[
    (Kind::Pairs, THREE, "9: 0 0 3 0"),
    (Kind::Pairs, SIX, "33: 0 0 15 0"),
    (Kind::Ladder, THREE, "21: 2 2 0 0"),
    (Kind::Ladder, SIX, "51: 5 5 0 0"),
    (Kind::Grid, SIX, "54: 7 6 0 0"),
    (Kind::Counter, FOUR, "67: 5 5 0 0"),
    // No clause has need of what says nothing of an output, nor of what an output of the root below the last one means where it is true.
    (Kind::Totalizer, FOUR, "81: 12 19 0 0"),
    (Kind::Totalizer, FIVE, "124: 18 28 0 0"),
    (Kind::Diagram, FALLING, "22: 3 3 0 0"),
    (Kind::Diagram, MEETING, "34: 5 5 0 0"),
    (Kind::Diagram, MIXED, "39: 6 6 0 0"),
    (Kind::Diagram, GREAT, "22: 3 3 0 0"),
    (Kind::Diagram, NEAR, "22: 3 3 0 0"),
    // What deletes a guard is needed: the guards of all levels are one variable.
    (Kind::Diagram, TWENTY, "221: 24 25 0 0"),
    // No clause has need of what an output of the root below the last one means where it is true.
    (Kind::Tree, FALLING, "49: 8 12 0 0"),
    (Kind::Tree, GREAT, "49: 8 12 0 0"),
    (Kind::Tree, NEAR, "36: 5 7 0 0"),
    // All adders are in one block, so there is one running sum, which goes last. At most one implies each clause of two of its
    // literals and others.
    (Kind::Adder, FALLING, "49: 5 5 0 0"),
    (Kind::Adder, THREE, "41: 3 3 7 0"),
];

#[test]
fn families_derive(rt: HostRuntime) {
    for &(kind, opb, expected) in CASES {
        let found = report_of(rt.alloc(), kind, opb);
        assert_found(&rt, found, expected, opb);
    }
}

const SECOND: &[(Kind, &str)] = &[
    (Kind::Pairs, NINE),
    (Kind::Ladder, NINE),
    (Kind::Grid, NINE),
    (Kind::Counter, FIVE),
    (Kind::Totalizer, FIVE),
    (Kind::Tree, MIXED),
    (Kind::Diagram, MIXED),
    (Kind::Adder, MIXED),
    (Kind::Adder, EIGHTS),
];

// True if a family derives what the second of two statements leaves, with fresh variables from 20 on.
fn is_second_derived(alloc: Global, kind: Kind, opb: &str) -> Option<bool> {
    let sum = Sum {
        opb,
        first: 20,
        loaded: 2,
        budget: 1000,
    };
    let files = made(alloc, kind, sum)?;
    let problem = format!(in alloc; "+3 x1 +2 x2 +1 x3 +1 x7 >= 2 ;\n{opb}\n").ok()?;
    is_accepted(
        alloc,
        problem.as_str(),
        files.cnf.as_str(),
        files.proof.as_str(),
    )
}

#[test]
fn a_second_statement_is_derived(rt: HostRuntime) {
    for &(kind, opb) in SECOND {
        let is_derived = is_second_derived(rt.alloc(), kind, opb);
        assert!(rt; is_derived == Some(true), "of {opb}");
    }
    // A derivation line by line.
    let sum = Sum {
        opb: THREE,
        first: 4,
        loaded: 1,
        budget: 0,
    };
    let expected = "pseudo-Boolean derivation profile 1\nf 1\nrup +1 ~x1 +1 ~x2 >= 1 ; 1\nout 2\n\
rup +1 ~x1 +1 ~x3 >= 1 ; 1\nout 3\nrup +1 ~x2 +1 ~x3 >= 1 ; 1\nout 4\nend\n";
    let files = made(rt.alloc(), Kind::Pairs, sum).expect(&rt, "files");
    assert_found(&rt, Some(files.proof), expected, THREE);
}
