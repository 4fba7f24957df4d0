use super::cases::each_told;
use super::texts::{BACKWARDS, CONFLICT, COUNTER, ONE_OF_TWO_CNF, SPARSE, SPREAD, USAGE};

const REACHED: &[(&str, &str, &str)] = &[
    (
        "pbcnf probe a x1 x2",
        COUNTER,
        "fixed 1 2 -3 -4 5 -6 7 8 9 10 0\n",
    ),
    (
        "pbcnf probe a x2 x2 x1",
        COUNTER,
        "fixed 1 2 -3 -4 5 -6 7 8 9 10 0\n",
    ),
    ("pbcnf probe a x4", COUNTER, "fixed 4 -6 -8 -10 0\n"),
    ("pbcnf probe a ~x1", SPREAD, "fixed -1 2 0\n"),
    ("pbcnf probe a ~x1", SPARSE, "fixed -1 2147483647 0\n"),
    ("pbcnf probe a", ONE_OF_TWO_CNF, "fixed 0\n"),
    // Variables that the CNF does not have.
    ("pbcnf probe a x9", ONE_OF_TWO_CNF, "fixed 9 0\n"),
    (
        "pbcnf probe a x2147483647 ~x3 x1",
        ONE_OF_TWO_CNF,
        "fixed 1 -2 -3 2147483647 0\n",
    ),
    // Implications in the worst order.
    (
        "pbcnf probe a x1",
        BACKWARDS,
        "fixed 1 2 3 4 5 6 7 8 9 10 11 12 0\n",
    ),
    ("pbcnf probe a x1 x2 x3", COUNTER, CONFLICT),
    ("pbcnf probe a x1 ~x1", COUNTER, CONFLICT),
    ("pbcnf probe a x9 ~x9", ONE_OF_TWO_CNF, CONFLICT),
    ("pbcnf probe a x1 x2", ONE_OF_TWO_CNF, CONFLICT),
];

const REFUSED: &[(&str, &str, &str)] = &[
    // Texts out of the grammar.
    (
        "pbcnf probe a x1",
        "p cnf 1 2\n1 0\n",
        "1 pbcnf: CNF 3:1: expected clause word",
    ),
    (
        "pbcnf probe a x1",
        "p cnf 1 1\n2 0\n",
        "1 pbcnf: CNF 2:1: expected clause word",
    ),
    ("pbcnf probe a x1", "", "1 pbcnf: CNF 1:1: expected p line"),
    (
        "pbcnf probe a x1",
        "p dnf 1 1\n",
        "1 pbcnf: CNF 1:3: expected cnf word",
    ),
    (
        "pbcnf probe a x1",
        "p cnf 1\n",
        "1 pbcnf: CNF 1:8: expected clause count",
    ),
    (
        "pbcnf probe a x1",
        "p cnf 1 1\n1\n",
        "1 pbcnf: CNF 3:1: expected clause word",
    ),
    (
        "pbcnf probe a x1",
        "p cnf 2147483648 0\n",
        "3 pbcnf: CNF 1:7: limit variables",
    ),
    // Words, and a file that is not there.
    ("pbcnf probe", ONE_OF_TWO_CNF, USAGE),
    ("pbcnf probe a x0", ONE_OF_TWO_CNF, USAGE),
    ("pbcnf probe a x1 y", ONE_OF_TWO_CNF, USAGE),
    ("pbcnf probe b x1", ONE_OF_TWO_CNF, "4 pbcnf: read fault"),
];

#[test]
fn probes(rt: HostRuntime) {
    each_told(&rt, REACHED);
    each_told(&rt, REFUSED);
}
