//! Texts that more than one table of cases has, or that are long.

// What the program is asked.

pub const CHECK: &str = "pbcnf check a c p";

pub const DECODE: &str = "pbcnf decode a m";

pub const ENCODE: &str = "pbcnf encode a c";

pub const JOINTLY: &str = "pbcnf encode a c --equal joint";

pub const MAP: &str = "pbcnf map a";

pub const REFUTE: &str = "pbcnf refute a c p l";

pub const TABLE: &str = "pbcnf encode a c --table";

pub const WCNF: &str = "pbcnf wcnf a w";

// Problems.

pub const CLAUSE: &str = "+1 x1 +1 x2 >= 1 ;\n";

// Exactly one of two variables.
pub const ONE_OF_TWO: &str = "+1 x1 +1 x2 = 1 ;\n";

// Exactly one of three variables.
pub const ONE_OF_THREE: &str = "+1 x1 +1 x2 +1 x3 = 1 ;\n";

// At most one of three literals.
pub const AT_MOST_ONE: &str = "-1 x1 -1 x2 -1 x3 >= -1 ;\n";

// At least two of four literals.
pub const TWO_OF_FOUR: &str = "+1 ~x1 +1 ~x2 +1 ~x3 +1 ~x4 >= 2 ;\n";

// At most one of nine variables.
pub const ONE_OF_NINE: &str =
    "+1 ~x1 +1 ~x2 +1 ~x3 +1 ~x4 +1 ~x5 +1 ~x6 +1 ~x7 +1 ~x8 +1 ~x9 >= 8 ;\n";

pub const WEIGHTS: &str = "+4 ~x1 +3 ~x2 +2 ~x3 >= 4 ;\n";

// A unit, and a clause of what is left.
pub const UNIT_AND_CLAUSE: &str = "+5 x1 +3 x2 +2 x3 >= 6 ;\n";

// Two equalities are four constraints.
pub const PAIR: &str = "+1 x1 +1 x2 +1 x3 = 1 ;\n+1 x2 +1 x3 +1 x4 = 2 ;\n";

// One of two variables, where the first costs 3 and the second 1, and 1 less in any case.
pub const COSTS: &str = "min: +3 x1 -1 ~x2 ; +1 x1 +1 x2 >= 1 ;\n";

// The same on two lines.
pub const COSTS_BY_LINES: &str = "min: +3 x1 -1 ~x2 ;\n+1 x1 +1 x2 >= 1 ;\n";

// The same, where the first line leaves one variable for a table.
pub const MANY: &str = "* #variable= 2147483646\nmin: +3 x1 -1 ~x2 ;\n+1 x1 +1 x2 >= 1 ;\n";

// Two of three variables at least, with costs.
pub const WEIGHTED_COSTS: &str = "min: +4 x1 +3 x2 +2 x3 ;\n+1 x1 +1 x2 +1 x3 >= 2 ;\n";

// Products with a cost.
pub const PRODUCTS: &str = "min: +2 x1 x2 -3 ~x1 x3 ;\n+1 x1 +1 x3 >= 1 ;\n";

// Two variables, one of which is true and both false.
pub const UNSATISFIABLE: &str = "+1 x1 +1 x2 >= 1 ;\n+1 ~x1 >= 1 ;\n+1 ~x2 >= 1 ;\n";

// Five pigeons in four holes.
pub const PIGEONS: &str = "* #variable= 20\n\
+1 x1 +1 x2 +1 x3 +1 x4 >= 1 ;\n\
+1 x5 +1 x6 +1 x7 +1 x8 >= 1 ;\n\
+1 x9 +1 x10 +1 x11 +1 x12 >= 1 ;\n\
+1 x13 +1 x14 +1 x15 +1 x16 >= 1 ;\n\
+1 x17 +1 x18 +1 x19 +1 x20 >= 1 ;\n\
+1 x1 +1 x5 +1 x9 +1 x13 +1 x17 <= 1 ;\n\
+1 x2 +1 x6 +1 x10 +1 x14 +1 x18 <= 1 ;\n\
+1 x3 +1 x7 +1 x11 +1 x15 +1 x19 <= 1 ;\n\
+1 x4 +1 x8 +1 x12 +1 x16 +1 x20 <= 1 ;\n\
";

// CNFs.

pub const UNIT: &str = "p cnf 1 1\n1 0\n";

pub const ONE_OF_TWO_CNF: &str = "p cnf 2 2\n1 2 0\n-1 -2 0\n";

// Exactly one of three as one, by a totalizer in both directions.
pub const ONE_JOINT: &str = "p cnf 7 15\n-3 4 0\n-2 4 0\n-2 -3 5 0\n2 3 -4 0\n2 -5 0\n3 -5 0\n\
-4 6 0\n-5 7 0\n-1 6 0\n-1 -4 7 0\n1 4 -6 0\n1 5 -7 0\n4 -7 0\n6 0\n-7 0\n";

// The same half by half: a clause, and a clause for each two.
pub const ONE_SPLIT: &str = "p cnf 3 4\n1 2 3 0\n-1 -2 0\n-1 -3 0\n-2 -3 0\n";

pub const PAIR_JOINT: &str = "p cnf 13 33\n-3 5 0\n-2 5 0\n-2 -3 6 0\n2 3 -5 0\n2 -6 0\n3 -6 0\n\
-5 7 0\n-6 8 0\n-1 7 0\n-1 -5 8 0\n1 5 -7 0\n1 6 -8 0\n5 -8 0\n7 0\n-8 0\n\
-4 9 0\n-3 9 0\n-3 -4 10 0\n3 4 -9 0\n3 -10 0\n4 -10 0\n\
-9 11 0\n-10 12 0\n-2 11 0\n-2 -9 12 0\n-2 -10 13 0\n2 9 -11 0\n2 10 -12 0\n2 -13 0\n9 -12 0\n10 -13 0\n12 0\n-13 0\n";

pub const UNIT_AND_CLAUSE_CNF: &str = "p cnf 3 2\n1 0\n2 3 0\n";

// The costs, with their table.
pub const TABLED: &str = "p cnf 5 6\n1 2 0\n-1 4 0\n-2 3 0\n-1 -2 5 0\n-4 3 0\n-5 4 0\n";

pub const UNSATISFIABLE_CNF: &str = "p cnf 2 3\n1 2 0\n-1 0\n-2 0\n";

// At most two of the first four variables, by a sequential counter.
pub const COUNTER: &str = "p cnf 10 13\n-1 5 0\n-6 0\n-2 7 0\n-5 7 0\n-2 -5 8 0\n-6 8 0\n-2 -6 0\n\
-3 9 0\n-7 9 0\n-3 -7 10 0\n-8 10 0\n-3 -8 0\n-4 -10 0\n";

// Eleven implications, each before the one that it follows from.
pub const BACKWARDS: &str = "p cnf 12 11\n-11 12 0\n-10 11 0\n-9 10 0\n-8 9 0\n-7 8 0\n-6 7 0\n\
-5 6 0\n-4 5 0\n-3 4 0\n-2 3 0\n-1 2 0\n";

// Clauses that are spread over lines, with a comment between.
pub const SPREAD: &str = "p cnf 2 2\n1 -1 0\nc note\n1\n2 0\n";

// The greatest number; what is stored depends on what the text has.
pub const SPARSE: &str = "p cnf 2147483647 1\n1 2147483647 0\n";

// Derivations, refutations and what a solver prints.

// Of the costs and a bound, each as the clause that it is.
pub const LINES: &str =
    "f 2\nrup +1 x1 +1 x2 >= 1 ; 1\nout 3\nrup +1 ~x1 +1 ~x2 >= 1 ; 2\nout 4\nend\n";

// Of the problem without a solution.
pub const ALL_OUT: &str = "pseudo-Boolean derivation profile 1\nf 3\nout 1\nout 2\nout 3\nend\n";

// The same without the last clause.
pub const ENDS_EARLY: &str = "pseudo-Boolean derivation profile 1\nf 3\nout 1\nout 2\nend\n";

// Of three clauses.
pub const LRAT: &str = "4 0 2 3 1 0\n";

// Of the clauses that the pigeons are encoded as.
pub const NO_PIGEONS: &str = "46 -1 -14 -20 0 6 7 21 23 42 44 2 3 30 0\n\
47 -14 -20 0 18 21 23 39 42 44 46 1 26 27 2 3 10 0\n\
48 -3 -13 -20 0 11 13 26 27 42 44 2 3 20 0\n\
49 -13 -20 0 8 11 13 39 42 44 48 1 16 17 2 3 30 0\n\
50 -9 -20 0 7 10 13 39 42 45 47 4 28 31 1 2 16 0\n\
51 -20 0 39 42 44 45 47 49 50 4 28 31 33 3 17 20 1 2 6 0\n\
52 -5 -10 3 0 6 11 12 17 23 24 51 1 5 35 38 4 0\n\
53 -7 -10 3 0 17 23 24 31 32 51 5 9 15 1 4 38 0\n\
54 -10 3 0 17 20 23 24 51 52 53 2 36 41 1 8 9 4 5 35 0\n\
55 -8 -9 3 0 7 13 14 36 41 42 1 18 19 4 5 35 0\n\
56 -2 8 17 5 0 16 19 51 2 5 32 0\n\
57 -19 16 8 13 5 0 32 35 2 4 21 0\n\
58 -9 3 0 7 10 13 14 50 55 56 1 38 57 5 22 25 2 4 31 0\n\
59 -5 16 -11 0 11 12 33 34 51 4 5 25 0\n\
60 16 8 -11 0 30 33 34 51 59 2 21 22 4 5 15 0\n\
61 -6 4 19 3 0 16 22 51 1 5 9 0\n\
62 8 -11 3 0 30 34 51 60 38 61 2 6 12 1 5 19 0\n\
63 -18 -11 3 0 19 25 33 62 36 41 1 4 8 0\n\
64 -11 3 0 33 34 51 62 63 5 9 15 36 41 1 4 18 0\n\
65 -13 -2 8 0 11 15 56 0\n\
66 -2 18 -12 0 16 18 40 43 44 65 4 31 35 2 5 12 0\n\
67 18 3 0 51 54 58 64 3 37 40 43 66 1 6 8 9 57 5 0\n\
68 3 0 54 58 64 67 3 19 22 25 37 40 43 1 6 8 2 4 31 0\n\
69 -7 0 26 68 0\n\
70 -11 0 27 64 0\n\
71 -15 0 28 68 0\n\
72 -19 0 29 68 0\n\
73 -14 8 0 21 25 47 69 72 2 5 12 0\n\
74 8 16 0 51 69 71 72 73 4 11 15 2 5 22 0\n\
75 -13 12 0 13 15 49 70 72 3 5 24 0\n\
76 16 0 51 70 71 72 74 40 75 4 23 25 3 5 14 0\n\
77 -8 0 41 76 0\n\
78 -12 0 40 43 74 0\n\
79 -17 0 12 14 69 70 77 78 2 3 20 0\n\
80 18 0 51 72 79 5 0\n\
81 -6 0 22 80 0\n\
82 -10 0 24 80 0\n\
83 5 0 69 77 81 2 0\n\
84 9 0 70 78 82 3 0\n\
85 0 83 84 10 0\n\
";

// A model of exactly one of two.
pub const PRINTED: &str = "s SATISFIABLE\nv 1 -2 0\n";

// What is said.

pub const ACCEPTED: &str = "accepted\n";

pub const CONFLICT: &str = "conflict\n";

pub const SOLUTION: &str = "s SATISFIABLE\nv x1 -x2\n";

// Of one variable that is true, where there is no row.
pub const SAID_UNIT: &str = "variables 1 original 1 fresh 0 clauses 1\n\
nothing 1 empty 0 clause 0 pairwise 0 ladder 0 product 0 counter 0 totalizer 0 diagram 0 tree 0 adder 0\n";

// Of exactly one of three, as one and half by half.
pub const SAID_JOINT: &str = "variables 7 original 3 fresh 4 clauses 15\n\
nothing 0 empty 0 clause 0 pairwise 0 ladder 0 product 0 counter 0 totalizer 0 diagram 0 tree 0 adder 0 joint 2\n";

pub const SAID_SPLIT: &str = "variables 3 original 3 fresh 0 clauses 4\n\
nothing 0 empty 0 clause 1 pairwise 1 ladder 0 product 0 counter 0 totalizer 0 diagram 0 tree 0 adder 0\n";

pub const SAID_PAIR: &str = "variables 13 original 4 fresh 9 clauses 33\n\
nothing 0 empty 0 clause 0 pairwise 0 ladder 0 product 0 counter 0 totalizer 0 diagram 0 tree 0 adder 0 joint 4\n";

pub const VIOLATED: &str = "8 pbcnf: statement 1 is violated";

pub const NO_MODEL: &str = "9 pbcnf: no model";

pub const HEAVY: &str = "3 pbcnf: OPB: limit weight";

pub const USAGE: &str = "2 pbcnf: usage: encode, check, decode, probe or bench";

pub const START: &str = "1 pbcnf: OPB 1:1: expected min:, a statement or the end";

pub const RELATION: &str = "1 pbcnf: OPB 1:7: expected a coefficient or a relation";

pub const LITERAL: &str = "1 pbcnf: OPB 1:4: expected a literal";
