use super::ANY;
use super::cases::each_encoded;
use super::texts::ENCODE;

// Where the choice of a family turns, with the size of what is chosen.
const CASES: &[(&str, &str, &str, &str)] = &[
    (
        ENCODE,
        "+1 ~x1 +1 ~x2 +1 ~x3 +1 ~x4 +1 ~x5 +1 ~x6 >= 5 ;\n",
        ANY,
        "variables 6 original 6 fresh 0 clauses 15\npairwise 1\n",
    ),
    (
        ENCODE,
        "+1 ~x1 +1 ~x2 +1 ~x3 +1 ~x4 +1 ~x5 +1 ~x6 +1 ~x7 >= 6 ;\n",
        ANY,
        "variables 13 original 7 fresh 6 clauses 17\nladder 1\n",
    ),
    (
        ENCODE,
        "+1 ~x1 +1 ~x2 +1 ~x3 +1 ~x4 +1 ~x5 +1 ~x6 +1 ~x7 +1 ~x8 +1 ~x9 +1 ~x10 +1 ~x11 +1 ~x12 +1 \
~x13 +1 ~x14 +1 ~x15 +1 ~x16 +1 ~x17 +1 ~x18 +1 ~x19 +1 ~x20 +1 ~x21 +1 ~x22 +1 ~x23 +1 \
~x24 +1 ~x25 +1 ~x26 +1 ~x27 +1 ~x28 +1 ~x29 +1 ~x30 >= 29 ;\n",
        ANY,
        "variables 59 original 30 fresh 29 clauses 86\nladder 1\n",
    ),
    (
        ENCODE,
        "+1 ~x1 +1 ~x2 +1 ~x3 +1 ~x4 +1 ~x5 +1 ~x6 +1 ~x7 +1 ~x8 +1 ~x9 +1 ~x10 +1 ~x11 +1 ~x12 +1 \
~x13 +1 ~x14 +1 ~x15 +1 ~x16 +1 ~x17 +1 ~x18 +1 ~x19 +1 ~x20 +1 ~x21 +1 ~x22 +1 ~x23 +1 \
~x24 +1 ~x25 +1 ~x26 +1 ~x27 +1 ~x28 +1 ~x29 +1 ~x30 +1 ~x31 >= 30 ;\n",
        ANY,
        "variables 53 original 31 fresh 22 clauses 94\nproduct 1\n",
    ),
    (
        ENCODE,
        "+1 ~x1 +1 ~x2 +1 ~x3 +1 ~x4 +1 ~x5 +1 ~x6 +1 ~x7 +1 ~x8 +1 ~x9 +1 ~x10 >= 2 ;\n",
        ANY,
        "variables 82 original 10 fresh 72 clauses 145\ncounter 1\n",
    ),
    (
        ENCODE,
        "+1 ~x1 +1 ~x2 +1 ~x3 +1 ~x4 +1 ~x5 +1 ~x6 +1 ~x7 +1 ~x8 +1 ~x9 +1 ~x10 +1 ~x11 >= 2 ;\n",
        ANY,
        "variables 49 original 11 fresh 38 clauses 94\ntotalizer 1\n",
    ),
];

#[test]
fn families_are_chosen_by_size(rt: HostRuntime) {
    each_encoded(&rt, CASES);
}
