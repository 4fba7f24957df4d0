//! Weighted CNF into the caller's memory.
ghost use Rattle.std.specs.Prelude.{◌≡◌, ◌++◌, ◌-ℤ◌, ◌^◌, pos, map, IfOk, OnOk};
ghost use Rattle.std.specs.Fmt.{signed_decimal};
ghost use Rattle.pb_norm.specs.Reduction.{opposite};
ghost use Rattle.pb_dimacs.specs.WcnfText.{offset_text, soft_text, softs_text};
ghost use Rattle.pb_encode.specs.Costs.{objective_form};
ghost use Rattle.pb_encode.specs.Weighted.{weighted_text};
ghost use Rattle.pbcnf_c.specs.Choices.{bound_of};
ghost use Rattle.pbcnf_c.specs.Put.{PutsOf};
ghost use Rattle.pbcnf_c.specs.Ready.{IsReady};
ghost use Rattle.pbcnf_c.specs.Weighings.{WeighsInto};

use crate::line_sink::LineSink;
use crate::options::{PbcnfBound, PbcnfOptions};
use crate::ready::{Ready, prepare};
use crate::size::{Ending, delivered, stopped};
use itoa::Buffer;
use pb_base::{Lit, NoMemory};
use pb_encode::{hand_clauses, objective_form, offset_by};
use pb_family::push_clause;
use pb_norm::Linear;
use pb_suite::Outcome;
use std::alloc::{AllocError, Global};

// Appends a number.
fn push_number(out: &mut Vec<u8>, number: i128) -> Result<(), AllocError>
    ensures { OnOk result (out.new.items ≡ out.old.items ++ signed_decimal number) }
{
    out.extend_from_slice(Buffer::new().format(number).as_bytes())
}

// Returns the line of the offset, which the costs are added to.
fn offset_line(alloc: Global, objective: &Linear) -> Result<Vec<u8>, AllocError>
    ensures { IfOk result (λ line. line.items ≡ offset_text (pos (2 ^ 100) -ℤ pos objective.now.degree)) }
{
    let mut line = Vec::new(alloc);
    line.extend_from_slice(b"c offset ")?;
    push_number(&mut line, offset_by(objective))?;
    line.push(b'\n')?;
    Ok(line)
}

// Appends a soft line: that the literal costs the weight where it is false.
fn push_soft(out: &mut Vec<u8>, weight: i128, lit: Lit) -> Result<(), AllocError>
    ensures { OnOk result (out.new.items ≡ out.old.items ++ soft_text weight lit) }
{
    push_number(out, weight)?;
    out.push(b' ')?;
    push_clause(out, &[lit])
}

// Appends the soft lines: for each term of the objective that its literal is to be false.
fn push_softs(out: &mut Vec<u8>, objective: &Linear) -> Result<(), AllocError>
    ensures { OnOk result (out.new.items ≡ out.old.items ++ softs_text (map opposite objective.now.terms)) }
{
    let terms = objective.terms();
    for term in terms {
        push_soft(out, term.coef, term.lit.not())?;
    }
    Ok(())
}

// Returns the weighted CNF text of a problem and of its objective in normal form.
fn weighted_text(alloc: Global, ready: &Ready, objective: &Linear) -> Result<Vec<u8>, NoMemory>
    requires ready { IsReady ready.now }
    requires objective { objective.now ≡ objective_form ready.now.problem }
    ensures { IfOk result (λ text. text.items ≡ weighted_text ready.now.options ready.now.problem) }
{
    let mut sink = LineSink::new(b"h ", offset_line(alloc, objective)?);
    match hand_clauses(alloc, &ready.problem, &ready.options, &mut sink) {
        Ok(()) => {}
        Err(_) => return Err(NoMemory),
    }
    let mut text = sink.into_text();
    push_softs(&mut text, objective)?;
    Ok(text)
}

// Copies the weighted CNF text of a problem into the room.
fn put_wcnf(alloc: Global, ready: &Ready, wcnf: &mut [u8]) -> Ending
    requires { IsReady ready.now }
    ensures { PutsOf (weighted_text ready.now.options ready.now.problem) ready.now wcnf.old wcnf.new result.size result.outcome }
{
    let Ok(objective) = objective_form(alloc, &ready.problem) else {
        return stopped(Outcome::NoMemory);
    };
    match weighted_text(alloc, ready, &objective) {
        Ok(text) => delivered(text.as_slice(), &ready.summary, wcnf),
        Err(NoMemory) => stopped(Outcome::NoMemory),
    }
}

/// Copies the weighted CNF text of an OPB text into the room.
pub fn weigh_into(
    alloc: Global,
    opb: &[u8],
    chosen: &PbcnfOptions,
    bound: &PbcnfBound,
    wcnf: &mut [u8],
) -> Ending
    ensures { WeighsInto chosen.now (bound_of bound.now) opb.now wcnf.old wcnf.new result.size result.outcome }
{
    match prepare(alloc, opb, chosen, bound) {
        Ok(ready) => put_wcnf(alloc, &ready, wcnf),
        Err(outcome) => stopped(outcome),
    }
}
