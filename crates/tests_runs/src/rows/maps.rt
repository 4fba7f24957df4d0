use super::cases::{assert_found, each_told};
use super::texts::MAP;
use super::told;
use std::alloc::Global;

const CASES: &[(&str, &str, &str)] = &[
    (MAP, "+1 rain +1 x2 +1 ~sun >= 2 ;\n", "3 rain\n4 sun\n"),
    // All variables are named by their numbers, or there are none.
    (MAP, "+1 x1 +1 x2 = 1 ;\n", ""),
    (MAP, "", ""),
    // A name counts where it comes first, in the objective too.
    (
        MAP,
        "min: +1 sun ;\n+1 rain +1 sun >= 1 ;\n+1 ~rain >= 0 ;\n",
        "1 sun\n2 rain\n",
    ),
    // The first line declares more variables than occur.
    (
        MAP,
        "* #variable= 5 #constraint= 1\n+1 a +1 x2 >= 1 ;\n",
        "6 a\n",
    ),
    // A name has letters, digits and some signs; `x` and digits alone are none, but `x` is.
    (
        MAP,
        "+1 x +1 x1y +1 _x1 +1 X1 +1 a[1]{2}^-3_ >= 1 ;\n",
        "1 x\n2 x1y\n3 _x1\n4 X1\n5 a[1]{2}^-3_\n",
    ),
    // Texts without a problem.
    (
        MAP,
        "+1 2a >= 1 ;\n",
        "1 pbcnf: OPB 1:4: expected a literal",
    ),
    (MAP, "+1 a >= 1", "1 pbcnf: OPB 1:10: expected ;"),
    // One variable is too much for the greatest number that the first line may declare.
    (
        MAP,
        "* #variable= 2147483647 #constraint= 1\n+1 a >= 1 ;\n",
        "3 pbcnf: OPB 3:1: limit variables",
    ),
    ("pbcnf map b", "", "4 pbcnf: read fault"),
];

// What is answered of a problem whose one name has so many bytes.
fn mapped_at(alloc: Global, count: usize) -> Option<String> {
    let name = "a".repeat(alloc, count).ok()?;
    let text = format!(in alloc; "+1 {name} >= 1 ;\n").ok()?;
    told(alloc, MAP, &[("a", text.as_bytes())])
}

#[test]
fn maps(rt: HostRuntime) {
    each_told(&rt, CASES);
    // The longest name.
    let said = mapped_at(rt.alloc(), 255).expect(&rt, "run");
    assert!(rt; said.len() == 258 && said.starts_with("1 aaa") && said.ends_with("aaa\n"));
    let longer = mapped_at(rt.alloc(), 256);
    let line = "3 pbcnf: OPB 1:4: limit name";
    assert_found(&rt, longer, line, MAP, "a name of 256 bytes");
}
