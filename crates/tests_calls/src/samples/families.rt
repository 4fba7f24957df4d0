//! The texts that families make of what a statement leaves: a CNF, and its derivation.
ghost use Rattle.std.specs.Prelude.{◌<◌, ◌^◌};
ghost use Rattle.pb_family.specs.Budgets.{IfFits};
ghost use Rattle.pb_family.specs.Families.{VarsBelow};

use super::at_most;
use pb_adder::Adder;
use pb_amo::{Ladder, Pairwise, ProductGrid};
use pb_counter::Counter;
use pb_diagram::Diagram;
use pb_family::{Built, Derive, Family, StepTextSink, TextSink, are_below, are_ones, is_light};
use pb_gentot::Weighted;
use pb_norm::AtMost;
use pb_totalizer::Totalizer;
use std::alloc::Global;

/// The families of sums.
#[derive(Clone, Copy)]
pub enum Kind {
    Pairs,
    Ladder,
    Grid,
    Counter,
    Totalizer,
    Tree,
    Diagram,
    Adder,
}

/// The texts of a CNF and of its derivation. What is past its budget has the word `over` in the place of a CNF.
#[derive(Drop)]
pub struct Files {
    pub cnf: String,
    pub proof: String,
}

/// A statement, the first fresh variable, how many constraints are loaded, of which the statement's is the last, and how many fresh
/// variables a totalizer, a tree or a diagram may have.
#[derive(Clone, Copy)]
pub struct Sum<'a> {
    pub opb: &'a str,
    pub first: u32,
    pub loaded: u64,
    pub budget: u64,
}

// The clauses of a family after a p line.
fn cnf_text<F: Family>(alloc: Global, family: &F, first: u32) -> Option<String>
    requires { VarsBelow first (F.constraint family.now).terms }
{
    if first < 1 || first > 1000 || family.fresh() > 1000 {
        return None;
    }
    let vars = family
        .fresh()
        .saturating_add(u64::from(first))
        .saturating_sub(1);
    let mut sink = TextSink::new(alloc);
    family.emit(alloc, first, &mut sink).ok()?;
    let lines = str::from_utf8(sink.text()).ok()?;
    format!(in alloc; "p cnf {vars} {}\n{lines}", family.clauses()).ok()
}

// The steps of a family between the lines that precede and follow them, if so many constraints are loaded.
fn proof_text<F: Derive>(alloc: Global, family: &F, first: u32, loaded: u64) -> Option<String>
    requires { VarsBelow first (F.Family.constraint family.now).terms }
{
    if first < 1 || first > 1000 || family.fresh() > 1000 || loaded < 1 || loaded > 1000 {
        return None;
    }
    let mut sink = StepTextSink::new(alloc, loaded + 1);
    family.derive(alloc, first, loaded, &mut sink).ok()?;
    let lines = str::from_utf8(sink.text()).ok()?;
    format!(in alloc; "pseudo-Boolean derivation profile 1\nf {loaded}\n{lines}end\n").ok()
}

fn files_of<F: Derive>(alloc: Global, family: &F, sum: Sum) -> Option<Files>
    requires { VarsBelow sum.first (F.Family.constraint family.now).terms }
{
    let cnf = cnf_text(alloc, family, sum.first)?;
    let proof = proof_text(alloc, family, sum.first, sum.loaded)?;
    Some(Files { cnf, proof })
}

// The same of a family that fits its budget.
fn built_files<F: Derive>(alloc: Global, built: &Built<F>, sum: Sum) -> Option<Files>
    requires { IfFits (λ family. VarsBelow sum.first (F.Family.constraint family).terms) built.now }
{
    match built {
        Built::Fits(family) => files_of(alloc, family, sum),
        Built::Over => {
            Some(Files {
                cnf: "over".to_string(alloc).ok()?,
                proof: String::new(alloc),
            })
        }
    }
}

// The files of a family of at most one.
fn at_most_one(alloc: Global, kind: Kind, of: &AtMost, sum: Sum) -> Option<Files> {
    if of.bound() != 1 || !are_ones(of.terms()) || !are_below(of.terms(), sum.first) {
        return None;
    }
    if of.terms().len() < 3 {
        return None;
    }
    match kind {
        Kind::Pairs => files_of(alloc, &Pairwise::over(of), sum),
        Kind::Ladder => files_of(alloc, &Ladder::over(of), sum),
        Kind::Grid => files_of(alloc, &ProductGrid::over(of), sum),
        _ => None,
    }
}

// The files of a family of counts.
fn count(alloc: Global, kind: Kind, of: &AtMost, sum: Sum) -> Option<Files> {
    if !are_ones(of.terms()) || !are_below(of.terms(), sum.first) {
        return None;
    }
    match kind {
        Kind::Counter => files_of(alloc, &Counter::over(of), sum),
        Kind::Totalizer => {
            built_files(alloc, &Totalizer::build(alloc, of, sum.budget).ok()?, sum)
        }
        _ => None,
    }
}

// The files of a family of weights.
fn weights(alloc: Global, kind: Kind, of: &AtMost, sum: Sum) -> Option<Files> {
    if !is_light(of) || !are_below(of.terms(), sum.first) || sum.budget >= 1 << 24 {
        return None;
    }
    match kind {
        Kind::Tree => built_files(alloc, &Weighted::build(alloc, of, sum.budget).ok()?, sum),
        Kind::Diagram => built_files(alloc, &Diagram::build(alloc, of, sum.budget).ok()?, sum),
        Kind::Adder => {
            let adder = Adder::build(alloc, of).ok()?;
            adder.settles();
            files_of(alloc, &adder, sum)
        }
        _ => None,
    }
}

/// The files of what a statement leaves.
pub fn made(alloc: Global, kind: Kind, sum: Sum) -> Option<Files> {
    let of = at_most(alloc, sum.opb)?;
    match kind {
        Kind::Pairs | Kind::Ladder | Kind::Grid => at_most_one(alloc, kind, &of, sum),
        Kind::Counter | Kind::Totalizer => count(alloc, kind, &of, sum),
        Kind::Tree | Kind::Diagram | Kind::Adder => weights(alloc, kind, &of, sum),
    }
}
