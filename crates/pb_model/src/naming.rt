//! What the variables of a problem are named.
ghost use Rattle.std.specs.Prelude.{◌≡◌, ◌+◌, ◌≤◌, ◌++◌, OnOk, OnErr, length, take};
ghost use Rattle.pb_base.specs.Problems.{IsWithinLimits};
ghost use Rattle.pb_model.specs.VariableNames.{name_at};
ghost use Rattle.pb_model.specs.MapText.{map_line, map_text};

use crate::appending::whole_or_none;
use itoa::Buffer;
use pb_base::{NoMemory, Problem};
use std::alloc::{AllocError, Global};

/// Appends the name of a variable.
pub(crate) fn push_name(
    out: &mut Vec<u8>,
    problem: &Problem,
    variable: u64,
) -> Result<(), AllocError>
    requires { variable ≤ problem.now.numbered + length problem.now.names }
    ensures ok { OnOk result (out.new.items ≡ out.old.items ++ name_at problem.now variable) }
    ensures before { take (length out.old.items) out.new.items ≡ out.old.items }
{
    let numbered = problem.numbered as u64;
    if variable <= numbered {
        out.extend_from_slice(b"x")?;
        out.extend_from_slice(Buffer::new().format(variable).as_bytes())
    } else {
        let place = (variable - (numbered + 1)) as usize;
        out.extend_from_slice(problem.names.as_slice()[place].as_slice())
    }
}

// Appends the number and the name of a variable.
fn push_line(out: &mut Vec<u8>, problem: &Problem, variable: u64) -> Result<(), AllocError>
    requires { variable ≤ problem.now.numbered + length problem.now.names }
    ensures ok { OnOk result (out.new.items ≡ out.old.items ++ map_line problem.now variable) }
    ensures before { take (length out.old.items) out.new.items ≡ out.old.items }
{
    out.extend_from_slice(Buffer::new().format(variable).as_bytes())?;
    out.extend_from_slice(b" ")?;
    push_name(out, problem, variable)?;
    out.extend_from_slice(b"\n")
}

// Appends the lines of the free names, or some of them.
fn push_lines(out: &mut Vec<u8>, problem: &Problem) -> Result<(), AllocError>
    requires { IsWithinLimits problem.now }
    ensures ok { OnOk result (out.new.items ≡ out.old.items ++ map_text problem.now) }
    ensures before { take (length out.old.items) out.new.items ≡ out.old.items }
{
    let first = problem.numbered as u64 + 1;
    for place in 0..problem.names.len() {
        push_line(out, problem, first + place as u64)?;
    }
    Ok(())
}

/// Appends a line for each free name: the number of its variable, and the name. If memory runs out, the bytes are as they were.
pub fn write_map(_alloc: Global, problem: &Problem, out: &mut Vec<u8>) -> Result<(), NoMemory>
    requires within { IsWithinLimits problem.now }
    // On success a line for each free name was appended, of its number and the name, in the order of the numbers.
    ensures ok { OnOk result (out.new.items ≡ out.old.items ++ map_text problem.now) }
    // After `NoMemory` the bytes are as they were.
    ensures err { OnErr result (out.new.items ≡ out.old.items) }
{
    let before = out.len();
    let appended = push_lines(out, problem);
    whole_or_none(out, before, appended)
}
