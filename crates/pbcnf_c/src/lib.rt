//! The encoder as a C library: each call is a function of what it is passed, and writes into what it is passed.
#![tactic(auto)]

mod bounds;
mod checking;
mod constraint;
mod constraints;
mod decoding;
mod encoding;
mod integers;
mod line_sink;
mod options;
mod outcomes;
mod ready;
mod refusal;
mod room;
mod said;
mod shelves;
mod size;
mod softs;
mod weighing;
mod words;

ghost use Rattle.std.specs.Prelude.{◌≡◌};
ghost use Rattle.pb_columns.specs.Columns.{columns_at};
ghost use Rattle.pbcnf_c.specs.Bounds.{BoundsInto};
ghost use Rattle.pbcnf_c.specs.Choices.{bound_of};
ghost use Rattle.pbcnf_c.specs.Checks.{Checks, Refutes};
ghost use Rattle.pbcnf_c.specs.Constraints.{ConstrainsInto, ConstrainsOneInto, ConstraintsDeriveInto, OneDerivesInto};
ghost use Rattle.pbcnf_c.specs.Decodings.{DecodesInto, MapsInto};
ghost use Rattle.pbcnf_c.specs.Exports.{DerivesInto, EncodesInto, HandsInto};
ghost use Rattle.pbcnf_c.specs.Rooms.{Tells, TellsAt};
ghost use Rattle.pbcnf_c.specs.Softs.{SoftsInto};
ghost use Rattle.pbcnf_c.specs.Weighings.{WeighsInto};
ghost use Rattle.pbcnf_c.specs.WordsSaid.{HasStatusOf, SaysRefusal};

use bounds::{PbcnfRow, bounds_into};
use checking::{check_texts, refute_texts};
use constraint::{Asked, PbcnfSide, constrain_one_into, derive_one_into};
use constraints::{constrain_into, derive_all_into};
use decoding::{decode_into, map_into};
use encoding::{clauses_into, derive_into, encode_into};
use options::{PbcnfBound, PbcnfOptions, bound_of};
use pb_columns::{Columns, PbcnfSum};
use refusal::{PbcnfRefusal, tell, tell_at};
use size::PbcnfSize;
use softs::{PbcnfCosts, softs_into};
use std::alloc::Global;
use weighing::weigh_into;
use words::words_into;

// 0.4.1, a byte for each of its numbers.
const VERSION: u32 = 0x00_04_01;

// Which calls and structs there are: one more where a struct, a number or what a call means becomes another.
const ABI: u32 = 1;

/// Returns the version of the library, a byte for each of its three numbers, as 0x000401 for 0.4.1.
#[unsafe(no_mangle)]
pub extern "C" fn pbcnf_version() -> u32
    ensures { result ≡ 1025 }
{
    VERSION
}

/// Returns the number of the structs and numbers that the calls have, so that a program can refuse a library of others.
#[unsafe(no_mangle)]
pub extern "C" fn pbcnf_abi() -> u32
    ensures { result ≡ 1 }
{
    ABI
}

/// Copies the CNF text of an OPB text into the room, or answers status 5 and the size that is needed.
///
/// ```text
/// min: +3 x1 +2 x2 ; +1 x1 +1 x2 >= 1 ;     status 0: p cnf 2 1\n1 2 0\n, vars 2, clauses 1, length 16
/// +1 x1 >= ;                                status 1: file 1, line 1, column 10, expected 6 (an integer)
/// ```
#[unsafe(no_mangle)]
pub extern "C" fn pbcnf_encode(
    alloc: Global,
    opb: &[u8],
    options: &PbcnfOptions,
    bound: &PbcnfBound,
    cnf: &mut [u8],
    size: &mut PbcnfSize,
    refusal: &mut PbcnfRefusal,
) -> u8
    // The call ends as its status says: the CNF text that `encode` makes is at the front of the room, or the room is too small, or the
    // cause is the one that is there.
    ensures { Tells (EncodesInto options.now (bound_of bound.now) opb.now cnf.old cnf.new size.new) result refusal.new }
{
    let ending = encode_into(alloc, opb, options, bound, cnf);
    *size = ending.size;
    tell(ending.outcome, refusal)
}

/// Copies the clauses of an OPB text into the room as integers, as IPASIR takes them: the literals of each, and 0.
///
/// ```text
/// +1 x1 +1 x2 >= 1 ;     status 0: 1 2 0, length 3
/// ```
#[unsafe(no_mangle)]
pub extern "C" fn pbcnf_clauses(
    alloc: Global,
    opb: &[u8],
    options: &PbcnfOptions,
    bound: &PbcnfBound,
    integers: &mut [i32],
    size: &mut PbcnfSize,
    refusal: &mut PbcnfRefusal,
) -> u8
    // The call ends as its status says: the integers of the problem's clauses, each with a 0 after it, are at the front of the room, or
    // the room is too small, or the cause is the one that is there.
    ensures { Tells (HandsInto options.now (bound_of bound.now) opb.now integers.old integers.new size.new) result refusal.new }
{
    let ending = clauses_into(alloc, opb, options, bound, integers);
    *size = ending.size;
    tell(ending.outcome, refusal)
}

/// Copies the derivation of the clauses of an OPB text into the room, as `encode` writes it.
///
/// ```text
/// +1 x1 +1 x2 >= 1 ;     status 0; the text ends in rup +1 x1 +1 x2 >= 1 ; 1\nout 2\nend\n
/// ```
#[unsafe(no_mangle)]
pub extern "C" fn pbcnf_derive(
    alloc: Global,
    opb: &[u8],
    options: &PbcnfOptions,
    bound: &PbcnfBound,
    proof: &mut [u8],
    size: &mut PbcnfSize,
    refusal: &mut PbcnfRefusal,
) -> u8
    // The call ends as its status says: the derivation that `encode` writes is at the front of the room, or the room is too small, or the
    // cause is the one that is there.
    ensures { Tells (DerivesInto options.now (bound_of bound.now) opb.now proof.old proof.new size.new) result refusal.new }
{
    let ending = derive_into(alloc, opb, options, bound, proof);
    *size = ending.size;
    tell(ending.outcome, refusal)
}

/// Copies the rows of the table of bounds on the objective of an OPB text into the room, the values ascending.
///
/// ```text
/// min: +2 x1 +3 x2 ; +1 x1 +1 x2 >= 1 ;     with table 1: (2, 3), (3, 4), (5, 5), length 3
/// ```
#[unsafe(no_mangle)]
pub extern "C" fn pbcnf_bounds(
    alloc: Global,
    opb: &[u8],
    options: &PbcnfOptions,
    bound: &PbcnfBound,
    rows: &mut [PbcnfRow],
    size: &mut PbcnfSize,
    refusal: &mut PbcnfRefusal,
) -> u8
    // The call ends as its status says: the rows of the table of bounds are at the front of the room, or the room is too small, or the
    // cause is the one that is there.
    ensures { Tells (BoundsInto options.now (bound_of bound.now) opb.now rows.old rows.new size.new) result refusal.new }
{
    let ending = bounds_into(alloc, opb, options, bound, rows);
    *size = ending.size;
    tell(ending.outcome, refusal)
}

/// Copies the text of the solution that a solver's text gives into the room, once the values are tested.
///
/// ```text
/// min: +3 x1 +2 x2 ; +1 x1 +1 x2 >= 1 ;     the problem
/// s SATISFIABLE\nv -1 2 0\n                  status 0: o 2\ns SATISFIABLE\nv -x1 x2\n, length 27
/// s SATISFIABLE\nv -1 -2 0\n                 status 8: number 1, the violated statement
/// ```
#[unsafe(no_mangle)]
pub extern "C" fn pbcnf_decode(
    alloc: Global,
    opb: &[u8],
    bound: &PbcnfBound,
    model: &[u8],
    said: &mut [u8],
    length: &mut u64,
    refusal: &mut PbcnfRefusal,
) -> u8
    // The call ends as its status says: the solution's text is at the front of the room, or the room is too small, or the cause is the
    // one that is there.
    ensures { Tells (DecodesInto (bound_of bound.now) opb.now model.now said.old said.new length.new) result refusal.new }
{
    let ending = decode_into(alloc, opb, bound, model, said);
    *length = ending.length;
    tell(ending.outcome, refusal)
}

/// Copies a line for each free name of an OPB text into the room: the variable's number and the name.
///
/// ```text
/// +1 rain +1 sun >= 1 ;     status 0: 1 rain\n2 sun\n, length 13
/// ```
#[unsafe(no_mangle)]
pub extern "C" fn pbcnf_map(
    alloc: Global,
    opb: &[u8],
    said: &mut [u8],
    length: &mut u64,
    refusal: &mut PbcnfRefusal,
) -> u8
    // The call ends as its status says: a line for each free name is at the front of the room, or the room is too small, or the cause is
    // the one that is there.
    ensures { Tells (MapsInto opb.now said.old said.new length.new) result refusal.new }
{
    let ending = map_into(alloc, opb, said);
    *length = ending.length;
    tell(ending.outcome, refusal)
}

/// Copies the weighted CNF text of an OPB text and its objective into the room.
///
/// ```text
/// min: +3 x1 +2 x2 ; +1 x1 +1 x2 >= 1 ;     status 0: c offset 0\nh 1 2 0\n3 -1 0\n2 -2 0\n, length 33
/// ```
#[unsafe(no_mangle)]
pub extern "C" fn pbcnf_wcnf(
    alloc: Global,
    opb: &[u8],
    options: &PbcnfOptions,
    bound: &PbcnfBound,
    wcnf: &mut [u8],
    size: &mut PbcnfSize,
    refusal: &mut PbcnfRefusal,
) -> u8
    // The call ends as its status says: the weighted CNF text that `wcnf` makes is at the front of the room, or the room is too small, or
    // the cause is the one that is there.
    ensures { Tells (WeighsInto options.now (bound_of bound.now) opb.now wcnf.old wcnf.new size.new) result refusal.new }
{
    let ending = weigh_into(alloc, opb, options, bound, wcnf);
    *size = ending.size;
    tell(ending.outcome, refusal)
}

/// Copies the soft literals of an OPB text's objective into the room: a row's literal costs its value if it is false.
///
/// ```text
/// min: +3 x1 +2 x2 ; +1 x1 +1 x2 >= 1 ;     status 0: (3, -1), (2, -2), offset 0, length 2
/// ```
#[unsafe(no_mangle)]
pub extern "C" fn pbcnf_softs(
    alloc: Global,
    opb: &[u8],
    bound: &PbcnfBound,
    softs: &mut [PbcnfRow],
    costs: &mut PbcnfCosts,
    refusal: &mut PbcnfRefusal,
) -> u8
    // The call ends as its status says: the soft literals of the objective are at the front of the room, and the offset is reported, or the
    // room is too small, or the cause is the one that is there.
    ensures { Tells (SoftsInto (bound_of bound.now) opb.now softs.old softs.new costs.new) result refusal.new }
{
    let costed = softs_into(alloc, opb, bound, softs);
    *costs = costed.costs;
    tell(costed.outcome, refusal)
}

/// Checks a derivation: status 0 says that each solution of the problem extends to a model of the CNF.
///
/// ```text
/// +1 x1 +1 x2 >= 1 ;      the problem; the derivation is that of `encode`
/// p cnf 2 1\n1 2 0\n      status 0
/// p cnf 2 1\n1 0\n        status 7: line 4, denied 9 (not implied by), number 2
/// ```
#[unsafe(no_mangle)]
pub extern "C" fn pbcnf_check(
    alloc: Global,
    opb: &[u8],
    bound: &PbcnfBound,
    cnf: &[u8],
    proof: &[u8],
    refusal: &mut PbcnfRefusal,
) -> u8
    // The call is done only if the derivation is accepted with the problem and the CNF; else the status is that of the first fault, or of
    // the first step that is not allowed.
    ensures { Tells (Checks (bound_of bound.now) opb.now cnf.now proof.now) result refusal.new }
{
    tell(
        check_texts(alloc, opb, bound_of(bound), cnf, proof),
        refusal,
    )
}

/// Checks a derivation and a refutation: status 0 says that the problem has no solution.
///
/// ```text
/// +1 x1 >= 1 ;\n+1 ~x1 >= 1 ;\n      the problem; CNF and derivation are those of `encode`
/// 3 0 1 2 0\n                        status 0
/// ```
#[unsafe(no_mangle)]
pub extern "C" fn pbcnf_refute(
    alloc: Global,
    opb: &[u8],
    bound: &PbcnfBound,
    cnf: &[u8],
    proof: &[u8],
    lrat: &[u8],
    refusal: &mut PbcnfRefusal,
) -> u8
    // The call is done only if the derivation is accepted with the problem and the CNF, and the LRAT text refutes the CNF's clauses. Else
    // the status is that of the first fault, of the first step that is not allowed, or of the line that is denied.
    ensures { Tells (Refutes (bound_of bound.now) opb.now cnf.now proof.now lrat.now) result refusal.new }
{
    tell(
        refute_texts(alloc, opb, bound_of(bound), cnf, proof, lrat),
        refusal,
    )
}

/// Copies the words of a refusal into the room, as the program prints them, without the line's end.
///
/// ```text
/// status 1, file 1, line 1, column 10, expected 6     pbcnf: OPB 1:10: expected an integer, length 36
/// ```
#[unsafe(no_mangle)]
pub extern "C" fn pbcnf_words(
    alloc: Global,
    refusal: &PbcnfRefusal,
    said: &mut [u8],
    length: &mut u64,
) -> u8
    // The words are those of an outcome with the refusal's numbers, or no outcome has them.
    ensures { HasStatusOf (SaysRefusal refusal.now said.old said.new length.new) result }
{
    let ending = words_into(alloc, refusal, said);
    *length = ending.length;
    ending.outcome.status()
}

/// Copies the clauses of many constraints into the room as integers, those of each constraint after those of the one before. Each sum has
/// as many of the next terms as it says. A coefficient is one word, or two, for each literal.
///
/// ```text
/// literals 1 2 3 -1, coefficients 1 1 1 1, first 4
/// two terms >= 1, two terms <= 1     status 0: 1 2 0 1 -3 0, length 6
/// ```
#[unsafe(no_mangle)]
pub extern "C" fn pbcnf_constraints(
    alloc: Global,
    coefficients: &[u64],
    literals: &[i32],
    sums: &[PbcnfSum],
    first: u32,
    options: &PbcnfOptions,
    integers: &mut [i32],
    size: &mut PbcnfSize,
    refusal: &mut PbcnfRefusal,
) -> u8
    // The call ends as its status says: the integers of the clauses of all constraints are at the front of the room, or the room is too
    // small, or the cause is the one that is there, with the number of the constraint to blame.
    ensures { TellsAt (ConstrainsInto options.now (columns_at coefficients.now literals.now sums.now first) integers.old integers.new size.new) result refusal.new }
{
    let columns = Columns {
        words: coefficients,
        literals,
        sums,
        first,
    };
    let blamed = constrain_into(alloc, &columns, options, integers);
    *size = blamed.ending.size;
    tell_at(blamed.ending.outcome, blamed.at, refusal)
}

/// Copies the derivation of the clauses of many constraints into the room, as a text for the problem of these constraints alone.
#[unsafe(no_mangle)]
pub extern "C" fn pbcnf_constraints_derive(
    alloc: Global,
    coefficients: &[u64],
    literals: &[i32],
    sums: &[PbcnfSum],
    first: u32,
    options: &PbcnfOptions,
    proof: &mut [u8],
    size: &mut PbcnfSize,
    refusal: &mut PbcnfRefusal,
) -> u8
    // The call ends as its status says: the derivation of the clauses of all constraints is at the front of the room, or the room is too
    // small, or the cause is the one that is there, with the number of the constraint to blame.
    ensures { TellsAt (ConstraintsDeriveInto options.now (columns_at coefficients.now literals.now sums.now first) proof.old proof.new size.new) result refusal.new }
{
    let columns = Columns {
        words: coefficients,
        literals,
        sums,
        first,
    };
    let blamed = derive_all_into(alloc, &columns, options, proof);
    *size = blamed.ending.size;
    tell_at(blamed.ending.outcome, blamed.at, refusal)
}

/// Copies the clauses of one constraint into the room as integers. A coefficient is one word, or two, for each literal.
///
/// ```text
/// literals 1 2 3, coefficients 1 1 1, at most 1, first 4     status 0: -1 -2 0 -1 -3 0 -2 -3 0, length 9
/// ```
#[unsafe(no_mangle)]
pub extern "C" fn pbcnf_constraint(
    alloc: Global,
    coefficients: &[u64],
    literals: &[i32],
    side: &PbcnfSide,
    options: &PbcnfOptions,
    integers: &mut [i32],
    size: &mut PbcnfSize,
    refusal: &mut PbcnfRefusal,
) -> u8
    // The call ends as its status says: the integers of the constraint's clauses are at the front of the room, or the room is too small,
    // or the cause is the one that is there.
    ensures { Tells (ConstrainsOneInto options.now coefficients.now literals.now side.now integers.old integers.new size.new) result refusal.new }
{
    let asked = Asked {
        words: coefficients,
        literals,
        side,
    };
    let ending = constrain_one_into(alloc, &asked, options, integers);
    *size = ending.size;
    tell(ending.outcome, refusal)
}

/// Copies the derivation of the clauses of one constraint into the room, as a text for the problem of this constraint alone.
#[unsafe(no_mangle)]
pub extern "C" fn pbcnf_constraint_derive(
    alloc: Global,
    coefficients: &[u64],
    literals: &[i32],
    side: &PbcnfSide,
    options: &PbcnfOptions,
    proof: &mut [u8],
    size: &mut PbcnfSize,
    refusal: &mut PbcnfRefusal,
) -> u8
    // The call ends as its status says: the derivation of the constraint's clauses is at the front of the room, or the room is too small,
    // or the cause is the one that is there.
    ensures { Tells (OneDerivesInto options.now coefficients.now literals.now side.now proof.old proof.new size.new) result refusal.new }
{
    let asked = Asked {
        words: coefficients,
        literals,
        side,
    };
    let ending = derive_one_into(alloc, &asked, options, proof);
    *size = ending.size;
    tell(ending.outcome, refusal)
}
