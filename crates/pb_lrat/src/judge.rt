//! Why a clause does not follow by hinted clauses.
//!
//! Hints are judged as they are found. An unknown one ends the line wherever it is, since nothing is added before all were found.
ghost use Rattle.std.specs.Prelude.{◌≡◌, [], not, false, true, if◌then◌else◌, Ok, IfOk, OnOk};
ghost use Rattle.pb_base.specs.declared.literal.Lit.{Lit};
ghost use Rattle.pb_base.specs.Literals.{negated, is_among};
ghost use Rattle.pb_norm.specs.ClauseForm.{is_tautology};
ghost use Rattle.pb_lrat.specs.Hints.{clauses_at, falsified, first_missing, follows, is_nothing, left_of, with_single};
ghost use Rattle.pb_lrat.specs.inner.Looks.{kind_of, left_with, denied_by, hints_deny};

use crate::denied::LratDenied;
use crate::store::Store;
use crate::trail::Trail;
use pb_base::{Lit, NoMemory};

// The literals of a clause that are not false: none, a single one, or more.
#[derive(Clone, Copy)]
pub(crate) enum ClauseStatus {
    Nothing,
    Single(Lit),
    More,
}

// Makes each literal of a clause false. False if two of them are opposite.
fn falsify(clause: &[Lit], trail: &mut Trail) -> Result<bool, NoMemory>
    requires { trail.old ≡ [] }
    ensures apart { IfOk result (λ apart. apart ≡ not (is_tautology clause.now)) }
    ensures falsified { result ≡ Ok true → trail.new ≡ falsified [] clause.now }
{
    for lit in clause {
        if !trail.deny(lit)? {
            return Ok(false);
        }
    }
    Ok(true)
}

// Returns the status with one more literal that is not false; a repeated literal changes nothing.
fn with_one(left: ClauseStatus, lit: &Lit) -> ClauseStatus
    ensures { result ≡ left_with left lit.now }
{
    match left {
        ClauseStatus::Nothing => ClauseStatus::Single(*lit),
        ClauseStatus::Single(found) => {
            if found != *lit {
                return ClauseStatus::More;
            }
            ClauseStatus::Single(found)
        }
        ClauseStatus::More => ClauseStatus::More,
    }
}

// Returns the status with the next literal of the clause, which changes nothing if it is false.
fn with_next(left: ClauseStatus, lit: &Lit, trail: &Trail) -> ClauseStatus
    ensures { result ≡ (if is_among trail.now (negated lit.now) then left else left_with left lit.now) }
{
    if trail.holds(&lit.not()) {
        return left;
    }
    with_one(left, lit)
}

// Returns the status of a clause: its literals that are not false.
fn status_in(clause: &[Lit], trail: &Trail) -> ClauseStatus
    ensures kind { result ≡ kind_of (left_of trail.now clause.now) }
    ensures undecided { (l : Lit) → result ≡ ClauseStatus.Single l → is_among trail.now (negated l) ≡ false }
{
    let mut left = ClauseStatus::Nothing;
    for lit in clause {
        left = with_next(left, lit, trail);
        if let ClauseStatus::More = left {
            return left;
        }
    }
    left
}

// Makes the literal true that alone is not false, if there is just one. True if all literals of the clause are false.
fn propagate_hint(clause: &[Lit], trail: &mut Trail) -> Result<bool, NoMemory>
    ensures conflict { IfOk result (λ none. none ≡ is_nothing (left_of trail.old clause.now)) }
    ensures single { OnOk result (trail.new ≡ with_single trail.old (left_of trail.old clause.now)) }
{
    match status_in(clause, trail) {
        ClauseStatus::Nothing => Ok(true),
        ClauseStatus::More => Ok(false),
        ClauseStatus::Single(lit) => {
            trail.add(&lit)?;
            Ok(false)
        }
    }
}

// Returns why hints do not allow a clause, once some literals are true. A clause may be allowed by itself; its hints must be live all the
// same.
fn denied_by(
    hints: &[u64],
    store: &Store,
    trail: &mut Trail,
    allowed: bool,
) -> Result<Option<LratDenied>, NoMemory>
    ensures { IfOk result (λ why. why ≡ hints_deny store.now.live hints.now allowed trail.old) }
{
    let mut allowed = allowed;
    for id in hints {
        let Some(clause) = store.get(*id) else {
            return Ok(Some(LratDenied::UnknownHint { id: *id }));
        };
        if !allowed {
            allowed = propagate_hint(clause, trail)?;
        }
    }
    if allowed {
        return Ok(None);
    }
    Ok(Some(LratDenied::NoConflict))
}

/// Returns why a clause does not follow by its hints. The trail is left as it happens to be.
pub(crate) fn denial_of(
    clause: &[Lit],
    hints: &[u64],
    store: &Store,
    trail: &mut Trail,
) -> Result<Option<LratDenied>, NoMemory>
    requires { trail.old ≡ [] }
    ensures { IfOk result (λ why. why ≡ denied_by (first_missing store.now.live hints.now) (follows clause.now (clauses_at store.now.live hints.now))) }
{
    let apart = falsify(clause, trail)?;
    denied_by(hints, store, trail, !apart)
}
