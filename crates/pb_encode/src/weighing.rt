//! A problem's weighted CNF: its clauses, which are hard, and its objective as soft literals.
ghost use Rattle.std.specs.Prelude.{◌≡◌, ◌^◌, ◌-ℤ◌, pos, false, map, Err, IfOk, OnOk};
ghost use Rattle.pb_base.specs.declared.limit.LimitKind.{LimitKind};
ghost use Rattle.pb_base.specs.declared.problem.Problem.{Problem};
ghost use Rattle.pb_base.specs.Problems.{IsWithinLimits};
ghost use Rattle.pb_norm.specs.Reduction.{opposite};
ghost use Rattle.pb_family.specs.Handing.{HandsText};
ghost use Rattle.pb_base.specs.declared.options.Options.{Options};
ghost use Rattle.pb_desk.specs.Desk.{IsSteady, Reaches};
ghost use Rattle.pb_dimacs.specs.WcnfReading.{hard_and_soft, WcnfReads};
ghost use Rattle.pb_dimacs.specs.WcnfText.{offset_text, softs_text};
ghost use Rattle.pb_encode.specs.Clauses.{problem_clauses};
ghost use Rattle.pb_encode.specs.Costs.{objective_form, softs_of, CostsAddUp};
ghost use Rattle.pb_encode.specs.Encodings.{made, Refuses};
ghost use Rattle.pb_encode.specs.inner.SendingTexts.{HandsTextIfMemory};
ghost use Rattle.pb_encode.specs.Summaries.{summary_of, IsEncodable};
ghost use Rattle.pb_encode.specs.Weighted.{weighted_text, HasCostsOf, IsWeightedCutOff, LacksForWeighted, WantsForWeighted};

use crate::encodable::Encodable;
use crate::fault::EncodeFault;
use crate::file::{FileText, make_file};
use crate::hints::Hints;
use crate::measuring::measure_telling;
use crate::objective::{objective_form, offset_by};
use crate::summary::Summary;
use crate::whole::hand_told_clauses;
use pb_base::{Failed, Options, Problem};
use pb_desk::Desk;
use pb_dimacs::{HardWriter, WriteBuffer, finish};
use pb_family::{ClauseSink, SinkResult};
use pb_norm::Linear;
use std::alloc::Global;

// Emits the line of the offset.
fn send_offset<'a, D: Desk>(
    objective: &Linear,
    writer: &mut HardWriter<'a, D>,
) -> Result<(), Failed>
    ensures { let seen = ⟦<HardWriter<'a, D> as ClauseSink>⟧.state in HandsText (offset_text (pos (2 ^ 100) -ℤ pos objective.now.degree)) result (seen writer.old) (seen writer.new) }
{
    writer.offset(offset_by(objective))
}

// Emits the soft lines: for each term of the objective that its literal is to be false.
fn send_softs<'a, D: Desk>(objective: &Linear, writer: &mut HardWriter<'a, D>) -> Result<(), Failed>
    ensures { let seen = ⟦<HardWriter<'a, D> as ClauseSink>⟧.state in HandsText (softs_text (map opposite objective.now.terms)) result (seen writer.old) (seen writer.new) }
{
    let terms = objective.terms();
    for term in terms {
        writer.soft(term.coef, term.lit.not())?;
    }
    Ok(())
}

// A problem with its objective in normal form.
#[derive(Drop)]
struct Costed<'a> {
    input: Encodable<'a>,
    objective: Linear,
    ghost objective_is: { objective ≡ objective_form input.problem.now },
}

// Emits the offset, the hard clauses and the soft lines.
fn hand_weighted<'a, D: Desk>(
    alloc: Global,
    of: &Costed<'_>,
    writer: &mut HardWriter<'a, D>,
) -> SinkResult
    ensures { let seen = ⟦<HardWriter<'a, D> as ClauseSink>⟧.state in HandsTextIfMemory (weighted_text of.now.input.options.now of.now.input.problem.now) result (seen writer.old) (seen writer.new) }
{
    send_offset(&of.objective, writer)?;
    hand_told_clauses(alloc, &of.input, writer)?;
    send_softs(&of.objective, writer)?;
    Ok(())
}

impl FileText for Costed<'_> {
    ghost use Rattle.pb_encode.specs.Weighted.{weighted_text};

    ghost text = { λ c. weighted_text c.input.options.now c.input.problem.now };

    // Emits the weighted CNF text to the slot.
    fn send<D: Desk>(&self, alloc: Global, desk: &mut D, slot: u8) -> SinkResult {
        let mut outbox = WriteBuffer::new(alloc)?;
        let handed = {
            let mut writer = HardWriter::new(desk, slot, &mut outbox);
            hand_weighted(alloc, self, &mut writer)
        };
        finish(desk, slot, &mut outbox, handed)
    }
}

/// Writes the weighted CNF of a problem to a new file in slot 0: the offset of its objective, its clauses as hard ones, and a soft line
/// for each literal that costs. The size is taken before the file is made, so that a problem which is not encoded makes none. The summary
/// counts hard clauses alone.
///
/// ```text
/// min: +3 x1 -2 x2 ; +1 x1 +1 x2 >= 1 ;       the problem
/// c offset -2\nh 1 2 0\n3 -1 0\n2 2 0\n       the file
/// ```
pub fn weighted<D: Desk>(
    alloc: Global,
    problem: &Problem,
    options: &Options,
    name: &str,
    desk: &mut D,
) -> Result<Summary, EncodeFault>
    requires within { IsWithinLimits problem.now }
    requires free { (D.state desk.old).view.writing 0 ≡ false }

    // On success the answer is the problem's summary, of the hard clauses alone.
    ensures summary { IfOk result (λ summary. summary ≡ summary_of options.now problem.now) }
    // On success the encoding passes no limit.
    ensures encodable { OnOk result (IsEncodable options.now problem.now) }
    // On success the file was made in slot 0, holds exactly the weighted CNF text, and is closed.
    ensures made { OnOk result (Reaches (made 0 name.now (weighted_text options.now problem.now)) (D.state desk.old) (D.state desk.new)) }

    // A limit is answered only if it is the first that the encoding passes, and nothing was made.
    ensures limit { (k : LimitKind) → result ≡ Err (EncodeFault.Limit k) → Refuses k options.now problem.now (D.state desk.old) (D.state desk.new) }
    // After a write fault nothing was made, or the file with a first part of its text.
    ensures write_fault { result ≡ Err EncodeFault.WriteFault → IsWeightedCutOff options.now problem.now name.now (D.state desk.old) (D.state desk.new) }
    // After `NoMemory` nothing was made, or the file with a first part of its text. At most one write failed, once it was made.
    ensures no_memory { result ≡ Err EncodeFault.NoMemory → WantsForWeighted options.now problem.now name.now (D.state desk.old) (D.state desk.new) }
    // On a steady desk a write fails only if the name or the slot is in use, the name is too long, or room is missing.
    ensures steady { IsSteady (D.state desk.old) → result ≡ Err EncodeFault.WriteFault → LacksForWeighted options.now problem.now name.now (D.state desk.old) }
{
    let mut hints = Hints::new(alloc);
    let summary = measure_telling(alloc, problem, options, &mut hints)?;
    let objective = objective_form(alloc, problem)?;
    let input = Encodable {
        problem,
        options,
        hints: hints.as_slice(),
    };
    let costed = Costed { input, objective };
    make_file(alloc, &costed, 0, name, desk)?;
    Ok(summary)
}

/// The law that the value of a problem's objective is its offset and the weights of the soft literals that are false, added up, under any
/// assignment.
pub fn costs_add_up()
    ensures { CostsAddUp }
{}

/// The law that the models of the hard clauses, restricted, are the problem's solutions, and under each the objective is the offset plus
/// the weights of the false soft literals.
pub fn hard_clauses_have_the_costs()
    ensures { (o : Options) (p : Problem) → IsWithinLimits p → HasCostsOf o p }
{}

/// The law that the weighted CNF text of an encoded problem says its clauses, as hard ones, and a soft literal for each that costs, and
/// nothing else.
pub fn weighted_text_says_the_clauses()
    ensures { (o : Options) (p : Problem) → IsWithinLimits p → IsEncodable o p → WcnfReads (weighted_text o p) (hard_and_soft (problem_clauses o p) (softs_of p)) }
{}
