// What a solver's text comes to beside a problem.
ghost use Rattle.std.specs.Prelude.{◌≡◌, length};
ghost use Rattle.pb_base.specs.Problems.{IsWithinLimits};

use crate::cases::{assert_each, assert_found};
use pb_base::Problem;
use pb_model::{Decoded, Model, ModelFault, decode, read_model, write_map, write_solution};
use pb_opb::read_opb;
use std::alloc::Global;

const ONE_OF_TWO: &str = "+1 x1 +1 x2 = 1 ;";

const WEATHER: &str = "+1 rain +1 x2 +1 ~sun >= 2 ;";

fn fault_text(alloc: Global, fault: ModelFault) -> Option<String> {
    match fault {
        ModelFault::Token { place, expected } => format!(in alloc; "{place} {expected}").ok(),
        ModelFault::Limit {
            place: Some(place),
            which,
        } => format!(in alloc; "{place} limit {which}").ok(),
        ModelFault::Limit { place: None, which } => format!(in alloc; "limit {which}").ok(),
        ModelFault::NoMemory => None,
    }
}

fn decoded_text(alloc: Global, problem: &Problem, model: &Model) -> Option<String>
    requires within { IsWithinLimits problem.now }
    requires covers { length model.now.values ≡ problem.now.vars }
{
    match decode(problem, model) {
        Decoded::NoModel => "no model".to_string(alloc).ok(),
        Decoded::Violates { statement } => format!(in alloc; "violates {statement}").ok(),
        Decoded::Solution => {
            let mut out = Vec::new(alloc);
            write_solution(alloc, problem, &model.values, &mut out).ok()?;
            str::from_utf8(out.as_slice()).ok()?.to_string(alloc).ok()
        }
    }
}

// What a text comes to beside the problem of an OPB text, or the text's fault.
fn answer(alloc: Global, opb: &str, text: &str) -> Option<String> {
    let problem = read_opb(alloc, opb.as_bytes()).ok()?;
    match read_model(alloc, text.as_bytes(), problem.vars) {
        Ok(model) => decoded_text(alloc, &problem, &model),
        Err(fault) => fault_text(alloc, fault),
    }
}

// The numbers of the free names of a problem.
fn map_text(alloc: Global, problem: &Problem) -> Option<String>
    requires { IsWithinLimits problem.now }
{
    let mut out = Vec::new(alloc);
    write_map(alloc, problem, &mut out).ok()?;
    str::from_utf8(out.as_slice()).ok()?.to_string(alloc).ok()
}

// The same of the problem of an OPB text.
fn map_of(alloc: Global, opb: &str) -> Option<String> {
    let problem = read_opb(alloc, opb.as_bytes()).ok()?;
    map_text(alloc, &problem)
}

// Problems with the numbers of their free names.
const MAPS: &[(&str, &str)] = &[(WEATHER, "3 rain\n4 sun\n"), (ONE_OF_TWO, ""), ("", "")];

const PRODUCT: &str = "+1 x1 x2 >= 1 ;";

const MIXED: &str = "min: +5 x1 ~b ; +1 x1 >= 1 ; +2 b x1 -1 x1 ~b <= 1 ;";

// Problems, what a solver prints, and what that comes to.
const MODELS: &[(&str, &str, &str)] = &[
    (
        ONE_OF_TWO,
        "s SATISFIABLE\nv 1 -2 0\n",
        "s SATISFIABLE\nv x1 -x2\n",
    ),
    (
        ONE_OF_TWO,
        "s SATISFIABLE\nv 9 -9 2 0\n",
        "s SATISFIABLE\nv -x1 x2\n",
    ),
    // No solutions.
    (ONE_OF_TWO, "s SATISFIABLE\nv 1 2 0\n", "violates 1"),
    (ONE_OF_TWO, "s SATISFIABLE\nv 0\n", "violates 1"),
    (ONE_OF_TWO, "s UNSATISFIABLE\n", "no model"),
    (ONE_OF_TWO, "s SATISFIABLE now\nv 1 0\n", "no model"),
    (ONE_OF_TWO, "", "no model"),
    // Faults.
    (ONE_OF_TWO, "s SATISFIABLE\nv 1 -1 0\n", "2:5 opposite"),
    (ONE_OF_TWO, "s SATISFIABLE\nv 1 2\n", "3:1 model zero"),
    (
        ONE_OF_TWO,
        "s SATISFIABLE\ns SATISFIABLE\n",
        "2:1 model line",
    ),
    (ONE_OF_TWO, "v 0\nv 1 0\n", "2:1 model line"),
    (ONE_OF_TWO, "v x1 0\n", "1:3 model literal"),
    (ONE_OF_TWO, "v 1 0 0\n", "1:7 model literal"),
    (ONE_OF_TWO, "v 2147483648 0\n", "1:3 limit variables"),
    (ONE_OF_TWO, "sat\n", "1:1 model line"),
    // Free names, no variables, and several statements.
    (
        WEATHER,
        "s SATISFIABLE\nv 2 3 0\n",
        "s SATISFIABLE\nv -x1 x2 rain -sun\n",
    ),
    ("", "s SATISFIABLE", "s SATISFIABLE\nv\n"),
    (
        "+1 x1 >= 1 ; +1 x2 <= 0 ; +1 x1 >= 2 ;",
        "s SATISFIABLE\nv 1 0\n",
        "violates 3",
    ),
    // Objectives.
    (
        "min: +3 x1 -1 ~x2 ; +1 x1 +1 x2 = 1 ;",
        "s SATISFIABLE\nv 1 0\n",
        "o 2\ns SATISFIABLE\nv x1 -x2\n",
    ),
    (
        "min: -7 x1 ;",
        "c\nv 1\nv 0\ns SATISFIABLE",
        "o -7\ns SATISFIABLE\nv x1\n",
    ),
    // Products.
    (
        PRODUCT,
        "s SATISFIABLE\nv 1 2 0\n",
        "s SATISFIABLE\nv x1 x2\n",
    ),
    (
        PRODUCT,
        "s SATISFIABLE\nv 1 2 -3 0\n",
        "s SATISFIABLE\nv x1 x2\n",
    ),
    (PRODUCT, "s SATISFIABLE\nv 1 -2 3 0\n", "violates 1"),
    (
        MIXED,
        "s SATISFIABLE\nv 1 0\n",
        "o 5\ns SATISFIABLE\nv x1 -b\n",
    ),
    (MIXED, "s SATISFIABLE\nv 1 2 0\n", "violates 2"),
    (
        "+1 x1 ~x1 >= 0 ; -1 x1 x1 x2 x1 >= 0 ;",
        "s SATISFIABLE\nv 1 2 0\n",
        "violates 2",
    ),
];

#[test]
fn models(rt: HostRuntime) {
    assert_each(&rt, map_of, MAPS);
    for &(opb, printed, expected) in MODELS {
        let found = answer(rt.alloc(), opb, printed);
        assert_found(&rt, found, expected, printed);
    }
}
