use super::cases::each_encoded;
use super::texts::{AT_MOST_ONE, COUNTER, ENCODE, ONE_OF_NINE, TWO_OF_FOUR, WEIGHTS};

// Sums without a family.
const PLAIN: &[(&str, &str, &str, &str)] = &[
    // No statement.
    (
        ENCODE,
        "",
        "p cnf 0 0\n",
        "variables 0 original 0 fresh 0 clauses 0\n\n",
    ),
    // One clause.
    (
        ENCODE,
        "+1 x1 +1 x2 >= 1 ;\n",
        "p cnf 2 1\n1 2 0\n",
        "variables 2 original 2 fresh 0 clauses 1\nclause 1\n",
    ),
    // An equation is two sums.
    (
        ENCODE,
        "+1 x1 +1 x2 = 1 ;\n",
        "p cnf 2 2\n1 2 0\n-1 -2 0\n",
        "variables 2 original 2 fresh 0 clauses 2\nclause 2\n",
    ),
    // A sum out of reach is the empty clause.
    (
        ENCODE,
        "+1 x1 >= 2 ;\n",
        "p cnf 1 1\n0\n",
        "variables 1 original 1 fresh 0 clauses 1\nempty 1\n",
    ),
    // Terms of one variable cancel, and nothing is left to hold.
    (
        ENCODE,
        "+2 x1 -1 x1 +1 ~x1 >= 1 ;\n",
        "p cnf 1 0\n",
        "variables 1 original 1 fresh 0 clauses 0\nnothing 1\n",
    ),
    // A forced literal comes first, and a clause of the rest.
    (
        ENCODE,
        "+5 x1 +3 x2 +2 x3 >= 6 ;\n",
        "p cnf 3 2\n1 0\n2 3 0\n",
        "variables 3 original 3 fresh 0 clauses 2\nclause 1\n",
    ),
    // The numbers add up to one less than 2^100, which is too much.
    (
        ENCODE,
        "+633825300114114700748351602688 x1 >= 633825300114114700748351602687 ;\n",
        "p cnf 1 1\n1 0\n",
        "variables 1 original 1 fresh 0 clauses 1\nnothing 1\n",
    ),
    // A sum that is at most 0 forces each of its literals to be false.
    (
        ENCODE,
        "+1 x1 +1 x2 <= 0 ;\n",
        "p cnf 2 2\n-1 0\n-2 0\n",
        "variables 2 original 2 fresh 0 clauses 2\nnothing 1\n",
    ),
    // The first line declares one variable more than the sum has; the objective has no clause.
    (
        ENCODE,
        "* #variable= 3 #constraint= 1 #equal= 0\nmin:+1 x1;\n* note\n2 x1 03 ~x02>=+2;\n",
        "p cnf 3 1\n1 -2 0\n",
        "variables 3 original 3 fresh 0 clauses 1\nclause 1\n",
    ),
];

// A product of literals is a variable after the others, which its own clauses come first to tie to them.
const PRODUCTS: &[(&str, &str, &str, &str)] = &[
    (
        ENCODE,
        "+1 x1 x2 >= 1 ;\n",
        "p cnf 3 4\n1 -3 0\n2 -3 0\n-1 -2 3 0\n3 0\n",
        "variables 3 original 2 fresh 0 clauses 4 products 1\nnothing 1 clause 3\n",
    ),
    // Opposite literals make nothing, and one that is repeated counts once.
    (
        ENCODE,
        "+2 x1 ~x2 +1 x2 ~x2 +1 x1 x1 >= 3 ;\n",
        "p cnf 3 5\n1 -3 0\n-2 -3 0\n-1 2 3 0\n1 0\n3 0\n",
        "variables 3 original 2 fresh 0 clauses 5 products 1\nnothing 1 clause 3\n",
    ),
    // Products are sets, in the order in which the text has them, the objective too.
    (
        ENCODE,
        "min: +1 x3 x2 ;\n+1 x1 x2 +1 x2 x3 x2 >= 1 ;\n",
        "p cnf 5 7\n2 -4 0\n3 -4 0\n-2 -3 4 0\n1 -5 0\n2 -5 0\n-1 -2 5 0\n4 5 0\n",
        "variables 5 original 3 fresh 0 clauses 7 products 2\nclause 7\n",
    ),
];

// The totalizer of at least two of four literals.
const TOTALIZER: &str = "p cnf 11 14\n\
-2 5 0\n-1 5 0\n-1 -2 6 0\n-4 7 0\n-3 7 0\n-3 -4 8 0\n-7 9 0\n-8 10 0\n-5 9 0\n\
-5 -7 10 0\n-5 -8 11 0\n-6 10 0\n-6 -7 11 0\n-11 0\n";

// The diagram and the adder of the weights.
const DIAGRAM: &str = "p cnf 6 5\n-4 -1 5 0\n-5 6 0\n-5 -2 0\n-6 -3 0\n4 0\n";

const ADDER: &str = "p cnf 7 16\n\
2 3 -4 0\n2 -3 4 0\n-2 3 4 0\n-2 -3 -4 0\n-2 -3 5 0\n2 -5 0\n3 -5 0\n1 5 -6 0\n\
1 -5 6 0\n-1 5 6 0\n-1 -5 -6 0\n-1 -5 7 0\n1 -7 0\n5 -7 0\n-4 -6 0\n-7 0\n";

// Sums by a family.
const FAMILIES: &[(&str, &str, &str, &str)] = &[
    (
        ENCODE,
        AT_MOST_ONE,
        "p cnf 3 3\n-1 -2 0\n-1 -3 0\n-2 -3 0\n",
        "variables 3 original 3 fresh 0 clauses 3\npairwise 1\n",
    ),
    (
        "pbcnf encode --amo ladder a c",
        AT_MOST_ONE,
        "p cnf 5 5\n-5 4 0\n-1 -4 0\n-2 -5 0\n-2 4 0\n-3 5 0\n",
        "variables 5 original 3 fresh 2 clauses 5\nladder 1\n",
    ),
    (
        "pbcnf encode --card counter a c",
        TWO_OF_FOUR,
        COUNTER,
        "variables 10 original 4 fresh 6 clauses 13\ncounter 1\n",
    ),
    // The counter needs six fresh variables.
    (
        "pbcnf encode --budget 6 --card counter a c",
        TWO_OF_FOUR,
        COUNTER,
        "variables 10 original 4 fresh 6 clauses 13\ncounter 1\n",
    ),
    (
        "pbcnf encode --card totalizer a c",
        TWO_OF_FOUR,
        TOTALIZER,
        "variables 11 original 4 fresh 7 clauses 14\ntotalizer 1\n",
    ),
    (
        "pbcnf encode --general diagram a c",
        WEIGHTS,
        DIAGRAM,
        "variables 6 original 3 fresh 3 clauses 5\ndiagram 1\n",
    ),
    // Nine literals are three rows of three columns.
    (
        "pbcnf encode --amo product a c",
        ONE_OF_NINE,
        "p cnf 15 24\n\
-1 10 0\n-1 13 0\n-2 10 0\n-2 14 0\n-3 10 0\n-3 15 0\n-4 11 0\n-4 13 0\n\
-5 11 0\n-5 14 0\n-6 11 0\n-6 15 0\n-7 12 0\n-7 13 0\n-8 12 0\n-8 14 0\n\
-9 12 0\n-9 15 0\n-10 -11 0\n-10 -12 0\n-11 -12 0\n-13 -14 0\n-13 -15 0\n-14 -15 0\n",
        "variables 15 original 9 fresh 6 clauses 24\nproduct 1\n",
    ),
    (
        "pbcnf encode --card totalizer --budget 7 a c",
        TWO_OF_FOUR,
        TOTALIZER,
        "variables 11 original 4 fresh 7 clauses 14\ntotalizer 1\n",
    ),
    (
        "pbcnf encode --general tree a c",
        WEIGHTS,
        "p cnf 11 11\n\
-2 5 0\n-3 4 0\n-2 -3 6 0\n-1 9 0\n-4 7 0\n-5 8 0\n-6 10 0\n-1 -4 11 0\n-1 -5 11 0\n\
-1 -6 11 0\n-11 0\n",
        "variables 11 original 3 fresh 8 clauses 11\ntree 1\n",
    ),
    (
        "pbcnf encode --general adder a c",
        WEIGHTS,
        ADDER,
        "variables 7 original 3 fresh 4 clauses 16\nadder 1\n",
    ),
    (
        "pbcnf encode --budget 2 a c",
        WEIGHTS,
        ADDER,
        "variables 7 original 3 fresh 4 clauses 16\nadder 1\n",
    ),
    (
        "pbcnf encode --budget 3 a c",
        WEIGHTS,
        DIAGRAM,
        "variables 6 original 3 fresh 3 clauses 5\ndiagram 1\n",
    ),
    // Where the first or the second weight is taken, what the others may add up to is the same.
    (
        ENCODE,
        "+5 ~x1 +4 ~x2 +3 ~x3 +3 ~x4 >= 7 ;\n",
        "p cnf 9 8\n\
-5 7 0\n-5 -1 6 0\n-6 8 0\n-6 -2 0\n-7 -2 8 0\n-8 -3 9 0\n-9 -4 0\n5 0\n",
        "variables 9 original 4 fresh 5 clauses 8\ndiagram 1\n",
    ),
    // Free names are numbered after the others, in the order in which they come first.
    (
        ENCODE,
        "+1 rain +1 x2 +1 ~sun >= 2 ;\n",
        "p cnf 4 3\n2 3 0\n2 -4 0\n3 -4 0\n",
        "variables 4 original 4 fresh 0 clauses 3\npairwise 1\n",
    ),
    // Two fresh variables are the last that there may be.
    (
        "pbcnf encode --amo ladder a c",
        "* #variable= 2147483645 #constraint= 1\n-1 x1 -1 x2 -1 x3 >= -1 ;\n",
        "p cnf 2147483647 5\n\
-2147483647 2147483646 0\n-1 -2147483646 0\n-2 -2147483647 0\n-2 2147483646 0\n-3 2147483647 0\n",
        "variables 2147483647 original 2147483645 fresh 2 clauses 5\nladder 1\n",
    ),
];

#[test]
fn encodes(rt: HostRuntime) {
    each_encoded(&rt, PLAIN);
    each_encoded(&rt, PRODUCTS);
    each_encoded(&rt, FAMILIES);
}
