//! A problem's files: the CNF, and the derivation of its clauses.
//!
//! The names of the files are borrowed: the words of the command line lend them, and the desk takes them as they are. Contracts see
//! them as values (`names_of`).
ghost use Rattle.std.specs.Prelude.{◌≡◌, false, Err, OnOk, IfOk, IsSome};
ghost use Rattle.pb_base.specs.declared.limit.LimitKind.{LimitKind};
ghost use Rattle.pb_base.specs.Problems.{IsWithinLimits};
ghost use Rattle.pb_desk.specs.Desk.{IsSteady, Reaches};
ghost use Rattle.pb_encode.specs.Encodings.{made_files, names_of, problem_text, IsCutOff, Lacks, Refuses, WantsMemory};
ghost use Rattle.pb_encode.specs.inner.SendingTexts.{HandsTextIfMemory};
ghost use Rattle.pb_encode.specs.Summaries.{summary_of, IsEncodable};

use crate::encodable::Encodable;
use crate::fault::EncodeFault;
use crate::file::{FileText, make_file};
use crate::hints::Hints;
use crate::measuring::measure_telling;
use crate::summary::Summary;
use crate::whole::hand_told_clauses;
use pb_base::{Options, Problem};
use pb_desk::Desk;
use pb_dimacs::{ClauseWriter, WriteBuffer, finish};
use pb_family::{ClauseSink, SinkResult};
use std::alloc::Global;

// A problem with the summary of its encoding.
#[derive(Drop)]
struct Measured<'a> {
    input: Encodable<'a>,
    summary: Summary,
    ghost summary_is: { summary ≡ summary_of input.options.now input.problem.now },
}

// Emits the p line and all clauses.
fn hand_cnf<'a, D: Desk>(
    alloc: Global,
    of: &Measured<'_>,
    writer: &mut ClauseWriter<'a, D>,
) -> SinkResult
    ensures { let seen = ⟦<ClauseWriter<'a, D> as ClauseSink>⟧.state in HandsTextIfMemory (problem_text of.now.input.options.now of.now.input.problem.now) result (seen writer.old) (seen writer.new) }
{
    writer.header(of.summary.vars, of.summary.clauses)?;
    hand_told_clauses(alloc, &of.input, writer)
}

impl FileText for Measured<'_> {
    ghost use Rattle.pb_encode.specs.Encodings.{problem_text};

    ghost text = { λ m. problem_text m.input.options.now m.input.problem.now };

    // Emits the CNF text to the slot.
    fn send<D: Desk>(&self, alloc: Global, desk: &mut D, slot: u8) -> SinkResult {
        let mut outbox = WriteBuffer::new(alloc)?;
        let handed = {
            let mut writer = ClauseWriter::new(desk, slot, &mut outbox);
            hand_cnf(alloc, self, &mut writer)
        };
        finish(desk, slot, &mut outbox, handed)
    }
}

/// The names of the files that are made.
#[derive(Clone, Copy)]
pub struct Names<'a> {
    pub cnf: &'a str,
    /// The derivation's file, if one is wanted.
    pub proof: Option<&'a str>,
}

/// Writes the CNF of a problem to a new file in slot 0, and then, if it has a name, the derivation of its clauses to one in slot 1. Of
/// the two files no more than one is open at a time. The size is taken before a file is made, so that a problem which is not encoded
/// makes none.
///
/// ```text
/// +1 x1 +1 x2 >= 1 ;                        the problem
/// p cnf 2 1\n1 2 0\n                        the CNF
/// rup +1 x1 +1 x2 >= 1 ; 1\nout 2\nend\n     the derivation, after its first two lines
/// ```
pub fn encode<D: Desk>(
    alloc: Global,
    problem: &Problem,
    options: &Options,
    names: &Names<'_>,
    desk: &mut D,
) -> Result<Summary, EncodeFault>
    requires within { IsWithinLimits problem.now }
    requires free { (D.state desk.old).view.writing 0 ≡ false }
    requires free_proof { IsSome names.now.proof → (D.state desk.old).view.writing 1 ≡ false }

    // On success the answer is the problem's summary.
    ensures summary { IfOk result (λ summary. summary ≡ summary_of options.now problem.now) }
    // On success the encoding passes no limit.
    ensures encodable { OnOk result (IsEncodable options.now problem.now) }
    // On success the CNF file was made in slot 0, and then the derivation's in slot 1 if it is named; each holds exactly its text and is
    // closed.
    ensures made { OnOk result (Reaches (made_files options.now problem.now (names_of names.now)) (D.state desk.old) (D.state desk.new)) }

    // A limit is answered only if it is the first that the encoding passes, and nothing was made.
    ensures limit { (k : LimitKind) → result ≡ Err (EncodeFault.Limit k) → Refuses k options.now problem.now (D.state desk.old) (D.state desk.new) }
    // After a write fault nothing was made; or the CNF alone, with a first part of its text; or the whole CNF, and the derivation with a
    // first part of its text.
    ensures write_fault { result ≡ Err EncodeFault.WriteFault → IsCutOff options.now problem.now (names_of names.now) (D.state desk.old) (D.state desk.new) }
    // After `NoMemory` nothing was made; or the CNF alone, with a first part of its text; or the whole CNF, and the derivation with a
    // first part. At most one write failed, once a file was made.
    ensures no_memory { result ≡ Err EncodeFault.NoMemory → WantsMemory options.now problem.now (names_of names.now) (D.state desk.old) (D.state desk.new) }
    // On a steady desk a write fails only if a name or slot is in use, a name is too long, the names are equal, or room is missing.
    ensures steady { IsSteady (D.state desk.old) → result ≡ Err EncodeFault.WriteFault → Lacks options.now problem.now (names_of names.now) (D.state desk.old) }
{
    let mut hints = Hints::new(alloc);
    let summary = measure_telling(alloc, problem, options, &mut hints)?;
    let input = Encodable {
        problem,
        options,
        hints: hints.as_slice(),
    };
    let measured = Measured { input, summary };
    make_file(alloc, &measured, 0, names.cnf, desk)?;
    if let Some(proof) = names.proof {
        make_file(alloc, &input, 1, proof, desk)?;
    }
    Ok(summary)
}
