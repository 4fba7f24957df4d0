// Lines that are read, and written again.
use crate::cases::assert_page;
use pb_steps::{Step, StepFault, read_step, write_step};
use std::alloc::Global;

// The line of a step without its end, after what precedes it.
fn step_text(alloc: Global, step: &Step) -> Option<String> {
    let mut out = Vec::from_slice(alloc, b"<").ok()?;
    write_step(alloc, step, &mut out).ok()?;
    let line = str::from_utf8(out.as_slice()).ok()?.strip_suffix("\n")?;
    line.to_string(alloc).ok()
}

fn fault_text(alloc: Global, fault: StepFault) -> Option<String> {
    match fault {
        StepFault::Token { column, expected } => format!(in alloc; "{column}: {expected}").ok(),
        StepFault::Limit { column, which } => format!(in alloc; "{column}: limit {which}").ok(),
        StepFault::NoMemory => None,
    }
}

// The line of the step that a line says, or the line's fault.
fn rewritten(alloc: Global, line: &str) -> Option<String> {
    match read_step(alloc, line.as_bytes()) {
        Ok(step) => step_text(alloc, &step),
        Err(fault) => fault_text(alloc, fault),
    }
}

// Each line is read and written, after `<`, as what follows `=>`; or this is its fault.
const LINES: &str = "\
\x20 * note => <
\tpseudo-Boolean  derivation profile 1\r => <pseudo-Boolean derivation profile 1
f 007 => <f 7
pol 1 02 + 3 d ~x4 85070591730234615865843651857942052863 * s ~x5 w 9223372036854775807 => <pol 1 2 + 3 d ~x4 85070591730234615865843651857942052863 * s x5 w 9223372036854775807
rup 1 x1 -02 ~x2147483647 +0 x3 >= +4 ; 5 6 => <rup +1 x1 -2 ~x2147483647 0 x3 >= 4 ; 5 6
red >= -0 ; x1 -> 0 x007 -> 1 => <red >= 0 ; x1 -> 0 x7 -> 1
del 3 3 => <del 3 3
out 1 => <out 1
end => <end
pol 1 0 d => 7: factor
pol x1 * => 8: operand
pol 1 85070591730234615865843651857942052864 * => 7: limit number
red +1 x1 >= 0 ; x2 -> 2 => 24: bit
rup +1 x2147483648 >= 0 ; => 8: limit variables
foo => 1: step word";

// A line of more than 64 KiB.
fn long_line(alloc: Global) -> Option<String> {
    let mut line = "pol 1".to_string(alloc).ok()?;
    for _ in 0..20_000 {
        line.push_str(" 1 +").ok()?;
    }
    Some(line)
}

// It is written as it was read.
fn is_rewritten(alloc: Global) -> Option<bool> {
    let line = long_line(alloc)?;
    let found = rewritten(alloc, line.as_str())?;
    Some(found.as_str().strip_prefix("<") == Some(line.as_str()))
}

#[test]
fn lines_are_written_as_they_are_said(rt: HostRuntime) {
    assert_page(&rt, rewritten, "\n", LINES);
    assert_eq!(rt; is_rewritten(rt.alloc()), Some(true));
}
