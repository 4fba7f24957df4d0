//! Literals and numbers in little room.
ghost use Rattle.std.specs.Prelude.{◌≡◌, IfOk, length, take};
ghost use Rattle.pb_base.specs.inner.Packing.{number_in, IsKept};

use crate::fault::NoMemory;
use crate::literal::{Lit, Var};
use std::marker::Model;

/// A literal in four bytes: the number of its variable, negative where the literal is.
#[derive(Drop)]
pub(crate) struct PackedLit {
    signed: i32,
}

impl Model for PackedLit {
    ghost use Rattle.std.specs.Prelude.{◌≤◌, ◌<◌, ◌^◌};
    ghost use Rattle.std.specs.Int.RustNames.{unsigned_abs};
    ghost use Rattle.pb_base.specs.declared.literal.Lit.{Lit};
    ghost use Rattle.pb_base.specs.inner.SignedLits.{lit_of_signed};

    ghost Value = { Lit };

    ghost view = { λ l. lit_of_signed l.signed };

    ghost invariant = { λ l. (1 ≤ unsigned_abs l.signed) × (unsigned_abs l.signed < 2 ^ 31) };
}

impl PackedLit {
    /// A literal's.
    pub fn new(lit: &Lit) -> PackedLit
        ensures { result ≡ lit.now }
    {
        let index = lit.index() as i32;
        PackedLit {
            signed: if lit.positive { index } else { -index },
        }
    }

    /// The literal.
    pub fn lit(&self) -> Lit
        ensures { result ≡ self.now }
    {
        Lit {
            var: Var::new(self.signed.unsigned_abs()),
            positive: self.signed >= 0,
        }
    }
}

/// A term in eight bytes: the code of its coefficient, and its literal.
#[derive(Drop)]
pub(crate) struct PackedTerm {
    pub coef: u32,
    pub lit: PackedLit,
}

// Codes below this are of small numbers, and others of wide ones.
const WIDE: u32 = 1 << 31;

// How far small numbers are moved up.
const MIDDLE: i128 = 1 << 30;

/// The code of a number. A wide one is added to the others.
pub(crate) fn pack(wide: &mut Vec<i128>, number: i128) -> Result<u32, NoMemory>
    ensures longer { take (length wide.old.items) wide.new.items ≡ wide.old.items }
    ensures number { IfOk result (λ code. number_in wide.new.items code ≡ number) }
    ensures kept { IfOk result (λ code. IsKept (length wide.new.items) code) }
{
    if -MIDDLE <= number && number < MIDDLE {
        return Ok((number + MIDDLE) as u32);
    }
    let place = wide.len();
    if place >= WIDE as usize {
        return Err(NoMemory);
    }
    wide.push(number)?;
    Ok(WIDE + place as u32)
}

/// The number of a code.
pub(crate) fn unpack(wide: &[i128], code: u32) -> i128
    ensures { result ≡ number_in wide.now code }
{
    if code < WIDE {
        return code as i128 - MIDDLE;
    }
    match wide.get((code - WIDE) as usize) {
        Some(number) => *number,
        None => 0,
    }
}
