use crate::cases::{assert_found, assert_page};
use pb_base::{Lit, Problem, TermsLeft};
use pb_opb::{OpbFault, read_opb};
use std::alloc::Global;

fn fault_text(alloc: Global, fault: OpbFault) -> Option<String> {
    match fault {
        OpbFault::Token { place, expected } => format!(in alloc; "{place}: {expected}").ok(),
        OpbFault::Limit { place, which } => format!(in alloc; "{}: limit {which}", place?).ok(),
        OpbFault::NoMemory => None,
    }
}

// How many variables a text has, or its first fault.
fn read(alloc: Global, text: &str) -> Option<String> {
    match read_opb(alloc, text.as_bytes()) {
        Ok(problem) => format!(in alloc; "{} variables", problem.vars).ok(),
        Err(fault) => fault_text(alloc, fault),
    }
}

// Texts with their variables or first faults, which follow `=>`.
const CASES: &str = "\
+1 x1 >= 1 => 1:11: ;

max: +1 x1 ; => 1:1: min:, a statement or the end

x1 >= 1 ; => 1:1: min:, a statement or the end

+1 x1 x0 >= 1 ; => 1:7: a coefficient or a relation

min: x1 ; => 1:6: a coefficient or ;

+1 x0 >= 1 ; => 1:4: a literal

+1 x1 > 1 ; => 1:7: a coefficient or a relation

+1 x1 >= 1 ; min: ; => 1:14: a statement or the end

+1 x1 >= ; => 1:10: an integer

min: +1 x1 >= 1 ; => 1:12: a coefficient or ;

+1 ~ x1 >= 1 ; => 1:4: a literal

+ 1 x1 >= 1 ; => 1:1: min:, a statement or the end

+1 x1 >= 1 2 ; => 1:12: ;

+1 x1
\t+1 2y >= 1 ; => 2:5: a literal

+1 ~~a >= 1 ; => 1:4: a literal

+1 a.b >= 1 ; => 1:4: a literal

+1 ~x00 >= 1 ; => 1:4: a literal

+1 x1 * c
>= 1 * ; => 2:9: ;

 => 0 variables

min:+1 x1;
2 x1 03 ~x02>=+2; => 2 variables

* #variable= 3 #constraint= 1
min:+1 x1;
* note
2 x1 03 ~x02>=+2; => 3 variables

 * #variable= 2147483646 #constraint= 1
+1 x1 +1 x7 >= 1 ; => 2147483646 variables

* #variable= 3 #constraint= 1
min:+1 x1;
* note
2 x1 03 ~x12>=+2; => 12 variables

+633825300114114700748351602688 x1 >= 633825300114114700748351602687 ; => 1 variables

+633825300114114700748351602688 x1 >= 633825300114114700748351602688 ; => 1:39: limit weight

+1 x2147483648 >= 1 ; => 1:4: limit variables

+1 x2147483647 >= 1 ; => 2147483647 variables

+1 a >= 1 ;
+1 x2147483647 >= 1 ; => 2:22: limit variables

* #variable= 340282366920938463463374607431768211456
( => 1:14: limit variables";

// How many variables a problem has with numbers, and the free names of the others.
fn names_of(alloc: Global, problem: &Problem) -> Option<String> {
    let mut shown = format!(in alloc; "{}", problem.numbered).ok()?;
    for name in problem.names.as_slice() {
        shown.push_str(" ").ok()?;
        shown.push_str(str::from_utf8(name.as_slice()).ok()?).ok()?;
    }
    Some(shown)
}

// The same of the problem of a text.
fn names(alloc: Global, text: &str) -> Option<String> {
    let problem = read_opb(alloc, text.as_bytes()).ok()?;
    names_of(alloc, &problem)
}

// Texts with the number and the names, which follow `=>`.
const NAMED: &str = "\
+1 x2 +1 ~x1 >= 1 ; => 2

+1 rain +1 x2 +1 ~sun >= 2 ; => 2 rain sun

min: +1 ~sun ;
+1 rain +1 x2 +1 sun >= 2 ; => 2 sun rain

* #variable= 7
+1 x +1 X1 +1 _[2]{^}-x >= 1 ; => 7 x X1 _[2]{^}-x

+1 x1a +1 xx1 +1 x1 >= 1 ; => 1 x1a xx1";

fn push_lit(alloc: Global, lit: Lit, shown: &mut String) -> Option<()> {
    let sign = if lit.positive { "" } else { "-" };
    let lit = format!(in alloc; "{sign}{}", lit.index()).ok()?;
    shown.push_str(lit.as_str()).ok()
}

// Adds the literals of a product.
fn push_product(alloc: Global, product: &[Lit], shown: &mut String) -> Option<()> {
    for lit in product {
        push_lit(alloc, *lit, shown)?;
        shown.push(' ').ok()?;
    }
    shown.push_str("; ").ok()
}

// Adds the terms of a statement.
fn push_terms(alloc: Global, terms: TermsLeft<'_>, shown: &mut String) -> Option<()> {
    for term in terms {
        push_lit(alloc, term.lit, shown)?;
        let coef = format!(in alloc; ":{} ", term.coef).ok()?;
        shown.push_str(coef.as_str()).ok()?;
    }
    Some(())
}

// The literals of each product, and those of the terms.
fn products_of(alloc: Global, problem: &Problem) -> Option<String> {
    let mut shown = String::new(alloc);
    for product in problem.products.as_slice() {
        push_product(alloc, product.as_slice(), &mut shown)?;
    }
    for statement in problem.statements.iter() {
        push_terms(alloc, statement.terms, &mut shown)?;
    }
    shown.trim_end().to_string(alloc).ok()
}

// The same of the problem of a text.
fn products(alloc: Global, text: &str) -> Option<String> {
    let problem = read_opb(alloc, text.as_bytes()).ok()?;
    products_of(alloc, &problem)
}

// Texts with their products and terms, which follow `=>`.
const MULTIPLIED: &str = "\
+1 x1 x2 >= 1 ; => 1 2 ; 3:1

+2 x1 ~x2 +1 x2 ~x2 +1 x1 x1 >= 3 ; => 1 -2 ; 3:2 1:1

+1 x2 x1 +1 x1 x02 x1 >= 1 ; => 1 2 ; 3:1 3:1

min: +1 x2 x3 ;
+1 x1 x2 +1 x3 x2 >= 1 ; => 2 3 ; 1 2 ; 5:1 4:1

* #variable= 7
+1 b x1 +1 ~b >= 1 ; => 1 8 ; 9:1 -8:1";

// What a text of pieces, each so many times, is read as.
fn read_repeated(alloc: Global, pieces: &[(&str, usize)]) -> Option<String> {
    let mut text = String::new(alloc);
    for (piece, times) in pieces {
        let part = piece.repeat(alloc, *times).ok()?;
        text.push_str(part.as_str()).ok()?;
    }
    read(alloc, text.as_str())
}

// Pieces, each so many times, and the fault of their text.
const LONG: &[(&[(&str, usize)], &str)] = &[
    (
        &[("+1 ~", 1), ("a", 255), (" >= 1 ;\n+1 a", 1), ("a", 255)],
        "2:4: limit name",
    ),
    (&[("1 x1 ", 1_048_577)], "1:5242881: limit terms"),
    (&[("1", 1), (" x1", 1_048_577)], "1:3145731: limit terms"),
];

#[test]
fn problems(rt: HostRuntime) {
    assert_page(&rt, read, "\n\n", CASES);
    assert_page(&rt, names, "\n\n", NAMED);
    assert_page(&rt, products, "\n\n", MULTIPLIED);
    for &(pieces, expected) in LONG {
        let found = read_repeated(rt.alloc(), pieces);
        assert_found(&rt, found, expected, "a long text");
    }
}
