// Derivations that are checked beside a CNF, over a desk in memory.
ghost use Rattle.std.specs.Prelude.{IfSome};
ghost use Rattle.pb_base.specs.Problems.{IsWithinLimits};
ghost use Rattle.pb_desk.specs.Desk.{IsClosed};

use crate::cases::assert_found;
use crate::samples::desks::named;
use crate::samples::lits_text;
use pb_base::{Clauses, Ids, NoMemory, Problem, Seq};
use pb_check::{CheckFault, Verdict, check, check_kept};
use pb_desk::{Desk, MemoryDesk, Named};
use pb_opb::read_opb;
use std::alloc::Global;

fn files_of(alloc: Global, cnf: &str, proof: &str) -> Result<Seq<Named>, NoMemory> {
    let mut files = Seq::new(alloc);
    files.push(named(alloc, "cnf", cnf.as_bytes())?)?;
    files.push(named(alloc, "proof", proof.as_bytes())?)?;
    Ok(files)
}

/// A desk with the files `cnf` and `proof`, whose calls of these numbers fail.
pub fn desk_with(alloc: Global, cnf: &str, proof: &str, fails: Ids) -> Option<MemoryDesk>
    ensures { IfSome result (λ desk. IsClosed (⟦<MemoryDesk as Desk>⟧.state desk)) }
{
    let files = files_of(alloc, cnf, proof).ok()?;
    MemoryDesk::new(alloc, files, fails, 7, 256).ok()
}

fn verdict_text(alloc: Global, verdict: Verdict) -> Option<String> {
    match verdict {
        Verdict::Accepted => "accepted".to_string(alloc).ok(),
        Verdict::Rejected { line, denied } => format!(in alloc; "{line}: {denied:?}").ok(),
    }
}

fn fault_text(alloc: Global, fault: CheckFault) -> Option<String> {
    match fault {
        CheckFault::Refused {
            file,
            place,
            expected,
        } => format!(in alloc; "{file} {place}: {expected}").ok(),
        CheckFault::Limit { file, which, .. } => format!(in alloc; "{file}: {which}").ok(),
        _ => format!(in alloc; "{fault:?}").ok(),
    }
}

// What is answered of the two files beside a problem that was read.
fn judged<D: Desk>(alloc: Global, problem: &Problem, desk: &mut D) -> Option<String>
    requires closed { IsClosed (D.state desk.old) }
    requires within { IsWithinLimits problem.now }
{
    if desk.open(0, "cnf").is_err() || desk.open(1, "proof").is_err() {
        return fault_text(alloc, CheckFault::ReadFault);
    }
    match check(alloc, problem, desk, 0, 1) {
        Ok(verdict) => verdict_text(alloc, verdict),
        Err(fault) => fault_text(alloc, fault),
    }
}

// Clauses, each after a bar.
fn clauses_text(alloc: Global, clauses: &Clauses) -> Option<String> {
    let mut text = String::new(alloc);
    for clause in clauses.as_slice() {
        let line = lits_text(alloc, clause.as_slice())?;
        text.push_str(" |").ok()?;
        text.push_str(line.as_str()).ok()?;
    }
    Some(text)
}

// The verdict on the two files beside a problem, the number of variables of the CNF, and the clauses that were collected.
fn collected<D: Desk>(alloc: Global, problem: &Problem, desk: &mut D) -> Option<String>
    requires closed { IsClosed (D.state desk.old) }
    requires within { IsWithinLimits problem.now }
{
    if desk.open(0, "cnf").is_err() || desk.open(1, "proof").is_err() {
        return None;
    }
    let (verdict, vars, clauses) = check_kept(alloc, problem, desk, 0, 1).ok()?;
    let verdict = verdict_text(alloc, verdict)?;
    let clauses = clauses_text(alloc, &clauses)?;
    format!(in alloc; "{verdict}; {vars}{clauses}").ok()
}

// The same beside the problem of a text.
fn collected_of(alloc: Global, texts: &Texts, proof: &str) -> Option<String> {
    let problem = read_opb(alloc, texts.opb.as_bytes()).ok()?;
    let mut desk = desk_with(alloc, texts.cnf, proof, Ids::new(alloc))?;
    collected(alloc, &problem, &mut desk)
}

// What is answered of the two files beside the problem of a text.
fn answer<D: Desk>(alloc: Global, opb: &str, desk: &mut D) -> Option<String>
    requires { IsClosed (D.state desk.old) }
{
    let problem = read_opb(alloc, opb.as_bytes()).ok()?;
    judged(alloc, &problem, desk)
}

fn checked(alloc: Global, opb: &str, cnf: &str, proof: &str) -> Option<String> {
    let mut desk = desk_with(alloc, cnf, proof, Ids::new(alloc))?;
    answer(alloc, opb, &mut desk)
}

/// True if a derivation is accepted.
pub fn is_accepted(alloc: Global, opb: &str, cnf: &str, proof: &str) -> Option<bool> {
    let found = checked(alloc, opb, cnf, proof)?;
    Some(found.as_str() == "accepted")
}

// A problem, how many constraints are loaded of it, and a CNF.
#[derive(Drop)]
struct Texts {
    opb: &'static str,
    loaded: u32,
    cnf: &'static str,
}

// The same after the first two lines of a derivation.
fn told(alloc: Global, texts: &Texts, steps: &str) -> Option<String> {
    let loaded = texts.loaded;
    let proof = format!(in alloc; "pseudo-Boolean derivation profile 1\nf {loaded}\n{steps}").ok()?;
    checked(alloc, texts.opb, texts.cnf, proof.as_str())
}

const TWO_CLAUSES: Texts = Texts {
    opb: "+1 x1 +1 x2 = 1 ;\n",
    loaded: 2,
    cnf: "p cnf 2 2\n1 2 0\n-1 -2 0\n",
};

// A unit and a clause of three weights.
const UNIT_AND_CLAUSE: Texts = Texts {
    opb: "+5 x1 +3 x2 +2 x3 >= 6 ;\n",
    loaded: 1,
    cnf: "p cnf 3 2\n1 0\n2 3 0\n",
};

// Derivations for two clauses: the verdict on each, the variables of the CNF, and the clauses that are collected.
const COLLECTED: &[(&str, &str)] = &[
    (
        "pseudo-Boolean derivation profile 1\nf 2\nout 1\nout 2\nend\n",
        "accepted; 2 | x1 x2 | ~x1 ~x2",
    ),
    // None are collected if a step is not allowed.
    (
        "pseudo-Boolean derivation profile 1\nf 2\nout 1\nout 1\n",
        "4: NotImplied { id: 1 }; 2",
    ),
];

const STEPS_OF_TWO: &[(&str, &str)] = &[
    ("out 1\nout 2\nend\n", "accepted"),
    (
        "rup +1 x1 +1 x2 >= 1 ; 1\nout 3\nrup +1 ~x1 +1 ~x2 >= 1 ; 2\nout 4\nend\n",
        "accepted",
    ),
    ("out 2\n", "3: NotImplied { id: 2 }"),
    ("out 1\nout 2\nout 1\n", "5: NoClause"),
    (
        "red +1 x1 >= 1 ; x1 -> 1\n",
        "3: SetsOriginal { var: Var { index: 1 } }",
    ),
    ("rup +1 x1 >= 1 ;\n", "3: NotPropagated"),
    (
        "rup +1 x3 >= 1 ;\n",
        "3: UnknownVar { var: Var { index: 3 } }",
    ),
    ("pol 1 +\n", "3: Stack"),
    ("pol 1 2 + 3\n", "3: UnknownId { id: 3 }"),
    (
        "pol 1 42535295865117307932921825928971026432 *\n",
        "3: Width",
    ),
    (
        "pol 1 42535295865117307932921825928971026431 *\n",
        "PROOF 4:1: step word",
    ),
    ("del 1 1\n", "3: UnknownId { id: 1 }"),
    ("pol 1 0 d\n", "PROOF 3:7: factor"),
];

const STEPS_OF_UNIT: &[(&str, &str)] = &[
    (
        "rup +1 x1 >= 1 ; 1\nout 2\npol 1 x1 w s\nout 3\nend\n",
        "accepted",
    ),
    (
        "rup +1 x1 >= 1 ; 1\nout 2\npol 1 x1 w s\nend\n",
        "6: ClausesLeft",
    ),
    (
        "rup +1 x1 >= 1 ; 1\nout 2\ndel 1\npol 1 x1 w s\nout 3\nend\n",
        "6: UnknownId { id: 1 }",
    ),
    (
        "rup +1 x1 >= 1 ; 1\nout 2\npol 1 x1 w s\nout 3\ndel 2\nend\n",
        "7: OutDeleted { id: 2 }",
    ),
    (
        "rup +1 x1 >= 1 ; 1\nout 2\npol 1 x1 w s\nout 3\n",
        "PROOF 7:1: step word",
    ),
];

// A denied step before many lines that say nothing.
fn long_proof(alloc: Global) -> Option<String> {
    let comments = "*\n".repeat(alloc, 1000).ok()?;
    let steps = "f 2\nred +1 x1 >= 1 ; x1 -> 1\n";
    format!(in alloc; "pseudo-Boolean derivation profile 1\n{steps}{comments}").ok()
}

// What is answered of a derivation over a desk whose call of this number fails.
fn told_where(alloc: Global, proof: &str, call: u64) -> Option<String> {
    let fails = Ids::from_vec(vec![in alloc; call].ok()?);
    let mut desk = desk_with(alloc, TWO_CLAUSES.cnf, proof, fails)?;
    answer(alloc, TWO_CLAUSES.opb, &mut desk)
}

fn denied_where(alloc: Global, call: u64) -> Option<String> {
    let proof = long_proof(alloc)?;
    told_where(alloc, proof.as_str(), call)
}

#[test]
fn steps_are_checked(rt: HostRuntime) {
    for &(steps, expected) in STEPS_OF_TWO {
        let found = told(rt.alloc(), &TWO_CLAUSES, steps);
        assert_found(&rt, found, expected, steps);
    }
    for &(steps, expected) in STEPS_OF_UNIT {
        let found = told(rt.alloc(), &UNIT_AND_CLAUSE, steps);
        assert_found(&rt, found, expected, steps);
    }
}

#[test]
fn clauses_are_collected(rt: HostRuntime) {
    for &(proof, expected) in COLLECTED {
        let found = collected_of(rt.alloc(), &TWO_CLAUSES, proof);
        assert_found(&rt, found, expected, proof);
    }
}

#[test]
fn nothing_is_read_behind_a_denied_step(rt: HostRuntime) {
    let found = denied_where(rt.alloc(), 100);
    let expected = "3: SetsOriginal { var: Var { index: 1 } }";
    assert_found(&rt, found, expected, "a long text");
    for call in 1..10 {
        let found = denied_where(rt.alloc(), call);
        assert_found(&rt, found, "ReadFault", "a long text");
    }
}
