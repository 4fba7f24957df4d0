//! The reader of model texts.
//!
//! There have to be fewer than 2^31 variables, so that each value is a variable's. Every problem within the limits has so few.
ghost use Rattle.std.specs.Prelude.{◌≡◌, ◌≤◌, ◌<◌, ◌^◌, [], length, Ok, IfOk, IfErr};
ghost use Rattle.pb_model.specs.ModelLines.{symbols_of};
ghost use Rattle.pb_model.specs.ModelReading.{told, told_in, IsFaultOf};
ghost use Rattle.pb_model.specs.inner.Reading.{Knows};

use crate::fault::ModelFault;
use crate::line::{cut_line, take_line};
use crate::model::Model;
use crate::reader::Reader;
use pb_base::{LimitKind, MAX_TEXT, Place};
use std::alloc::Global;

// Takes the lines of a text, and then its end.
fn read_lines(reader: Reader, text: &[u8]) -> Result<Model, ModelFault>
    requires fresh { Knows reader.listing.vars [] reader }
    requires bytes { length text.now ≤ 2 ^ 32 }
    ensures { result ≡ told_in reader.listing.vars (symbols_of reader.listing.vars text.now) }
{
    let mut reader = reader;
    let mut left = text;
    let mut number = 1;
    'lines: while !left.is_empty() {
        let cut = cut_line(left);
        match take_line(&mut reader, number, cut.line) {
            Ok(()) => {}
            Err(fault) => return Err(fault),
        }
        left = cut.behind;
        number += 1;
    }
    reader.finish(Place {
        line: number,
        column: 1,
    })
}

/// Reads what a solver printed, as it says of so many variables, or answers the text's first fault.
///
/// Variables that are not listed are false; those past the given ones are read and passed over.
/// The text has at most 2^32 bytes, and variables are at most 2^31 - 1.
pub fn read_model(alloc: Global, text: &[u8], vars: u32) -> Result<Model, ModelFault>
    requires { vars < 2 ^ 31 }
    // The model is what the text says: the words of its status line, and for each variable whether it is listed.
    ensures says { IfOk result (λ m. told vars text.now ≡ Ok m) }
    // There is a value for each variable.
    ensures covers { IfOk result (λ m. length m.values ≡ vars) }
    // A fault is `NoMemory`, or the text's first with its place and what was expected.
    ensures fault { IfErr result (IsFaultOf (told vars text.now)) }
{
    if text.len() as u64 > MAX_TEXT {
        return Err(ModelFault::Limit {
            place: None,
            which: LimitKind::Text,
        });
    }
    let Ok(reader) = Reader::new(alloc, vars) else {
        return Err(ModelFault::NoMemory);
    };
    read_lines(reader, text)
}
