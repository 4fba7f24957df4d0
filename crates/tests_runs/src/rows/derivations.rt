use super::cases::each_derived;
use super::texts::{ONE_OF_NINE, TWO_OF_FOUR, WEIGHTS};
use super::{judged_by, run_widely};
use crate::runs::Run;
use std::alloc::Global;

// A text is encoded as these files, with these options and beside this bound.
fn run_of(alloc: Global, files: &str, options: &str, bound: &str, text: &str) -> Option<Run> {
    let words = format!(in alloc; "pbcnf encode {files}{options}{bound}").ok()?;
    run_widely(alloc, words.as_str(), text.as_bytes())
}

// Both runs made the same CNF and said the same, and the first made no more.
fn are_same(bare: &Run, run: &Run) -> bool {
    run.outcome.status() == 0
        && bare.desk.made(1).is_none()
        && bare.desk.made(0) == run.desk.made(0)
        && bare.desk.said() == run.desk.said()
}

// The derivation that the run made is accepted beside its CNF.
fn is_accepted(alloc: Global, run: &Run, bound: &str, text: &str) -> Option<bool> {
    let words = format!(in alloc; "pbcnf check a c p{bound}").ok()?;
    let found = judged_by(alloc, run, words.as_str(), text, "");
    Some(found.as_deref() == Some("accepted\n"))
}

// With a derivation, what the run without one made and said is made and said, and the derivation is accepted.
fn is_derived_beside(
    alloc: Global,
    bare: &Run,
    options: &str,
    bound: &str,
    text: &str,
) -> Option<bool> {
    let run = run_of(alloc, "a c p", options, bound, text)?;
    let is_accepted = is_accepted(alloc, &run, bound, text);
    Some(are_same(bare, &run) && is_accepted == Some(true))
}

// With a derivation, the same CNF is made and the same said as without; the derivation is accepted beside it.
pub fn is_derived(alloc: Global, options: &str, bound: &str, text: &str) -> Option<bool> {
    let bare = run_of(alloc, "a c", options, bound, text)?;
    is_derived_beside(alloc, &bare, options, bound, text)
}

const DERIVED: &[(&str, &str, &str)] = &[
    // No statement; a clause; an equation; the empty clause; nothing; a unit and a clause; units alone.
    ("", "", ""),
    ("", "", "+1 x1 +1 x2 >= 1 ;\n"),
    ("", "", "+1 x1 +1 x2 = 1 ;\n"),
    ("", "", "+1 x1 >= 2 ;\n"),
    ("", "", "+2 x1 -1 x1 +1 ~x1 >= 1 ;\n"),
    ("", "", "+5 x1 +3 x2 +2 x3 >= 6 ;\n"),
    ("", "", "+1 x1 +1 x2 <= 0 ;\n"),
    // At most one.
    ("", "", "-1 x1 -1 x2 -1 x3 >= -1 ;\n"),
    (" --amo ladder", "", "-1 x1 -1 x2 -1 x3 >= -1 ;\n"),
    (" --amo product", "", ONE_OF_NINE),
    // Cardinalities.
    (" --card counter", "", TWO_OF_FOUR),
    (" --card totalizer", "", TWO_OF_FOUR),
    // Weights, which are also sent to the adder where the budget is small.
    (" --general tree", "", WEIGHTS),
    ("", "", WEIGHTS),
    (" --general adder", "", WEIGHTS),
    (" --budget 2", "", WEIGHTS),
    (" --budget 3", "", WEIGHTS),
    ("", "", "+5 ~x1 +4 ~x2 +3 ~x3 +3 ~x4 >= 7 ;\n"),
    // Free names; in derivations all variables go by numbers.
    ("", "", "+4 rain +3 ~x1 +2 sun >= 4 ;\n"),
    // Products, whose clauses come first.
    ("", "", "+1 x1 x2 >= 1 ;\n"),
    ("", "", "+2 x1 ~x2 +1 x2 ~x2 +1 x1 x1 >= 3 ;\n"),
    (
        " --general adder",
        "",
        "+4 x1 ~x2 +3 x2 x3 x1 +2 x3 >= 4 ;\n",
    ),
    // Equalities as one, whose halves are divided by their coefficient; and where the budget is too small.
    (" --equal joint", "", "+1 x1 +1 x2 +1 x3 = 1 ;\n"),
    (" --equal joint", "", "+2 x1 -2 x2 +2 ~x3 +2 x4 = 2 ;\n"),
    (" --equal joint --budget 3", "", "+1 x1 +1 x2 +1 x3 = 1 ;\n"),
    (
        " --equal joint",
        "",
        "+1 x1 x2 >= 1 ;\n+3 x1 +3 x2 +3 x3 +3 x4 = 6 ;\n+1 x1 +1 x3 = 1 ;\n+1 x2 +1 x3 +1 x4 +1 x5 = 3 ;\n+1 x5 >= 1 ;\n",
    ),
    // Several constraints, of which each is derived under its own id.
    (
        " --card totalizer --general tree",
        "",
        "min: +1 x1 ;\n+1 x1 +1 x2 = 1 ;\n+4 ~x1 +3 ~x2 +2 ~x3 >= 4 ;\n+1 x1 +1 x2 +1 x3 +1 x4 = 2 ;\n",
    ),
];

#[test]
fn derivations(rt: HostRuntime) {
    each_derived(&rt, DERIVED);
    // The lines that stand around a derivation, and those of one clause.
    let proof = "pseudo-Boolean derivation profile 1\nf 1\nrup +1 x1 +1 x2 >= 1 ; 1\nout 2\nend\n";
    let run = run_of(rt.alloc(), "a c p", "", "", "+1 x1 +1 x2 >= 1 ;\n").expect(&rt, "run");
    assert!(rt; run.desk.made(1) == Some(proof.as_bytes()));
}
