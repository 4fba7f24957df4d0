//! Making a file of a text.
ghost use Rattle.std.specs.Prelude.{◌≡◌, ◌<◌, ℕ, List, false, Err, OnOk, IsTrue};
ghost use Rattle.pb_base.specs.declared.limit.LimitKind.{LimitKind};
ghost use Rattle.pb_desk.specs.Desk.{IsSteady, Reaches};
ghost use Rattle.pb_encode.specs.Encodings.{made, LacksToMake, LeavesPart, StopsMaking};
ghost use Rattle.pb_encode.specs.inner.Sending.{Sends};

use crate::fault::EncodeFault;
use pb_desk::Desk;
use pb_family::SinkResult;
use std::alloc::Global;

/// A text that can be written to a file piece by piece.
pub trait FileText {
    /// The text that the file has.
    ghost text: { Self → List ℕ };

    /// Emits the text to an open slot whose file is not ended yet, and ends the file after what the buffer holds, even if memory runs
    /// out.
    fn send<D: Desk>(&self, alloc: Global, desk: &mut D, slot: u8) -> SinkResult
        requires kind { slot < 2 }
        requires open { IsTrue ((D.state desk.old).view.writing slot) }
        requires not_finished { (D.state desk.old).finished slot ≡ false }
        ensures { Sends slot (text self.now) result (D.state desk.old) (D.state desk.new) };
}

/// Writes a text to a new file in a slot.
pub fn make_file<T: FileText, D: Desk>(
    alloc: Global,
    of: &T,
    slot: u8,
    name: &str,
    desk: &mut D,
) -> Result<(), EncodeFault>
    requires kind { slot < 2 }
    requires free { (D.state desk.old).view.writing slot ≡ false }
    ensures made { OnOk result (Reaches (made slot name.now (T.text of.now)) (D.state desk.old) (D.state desk.new)) }
    ensures limit { (k : LimitKind) → result ≡ Err (EncodeFault.Limit k) → ⊥ }
    ensures write_fault { result ≡ Err EncodeFault.WriteFault → StopsMaking slot name.now (T.text of.now) (D.state desk.old) (D.state desk.new) }
    ensures no_memory { result ≡ Err EncodeFault.NoMemory → LeavesPart slot name.now (T.text of.now) (D.state desk.old) (D.state desk.new) }
    ensures steady { IsSteady (D.state desk.old) → result ≡ Err EncodeFault.WriteFault → LacksToMake slot name.now (T.text of.now) (D.state desk.old) }
{
    desk.create(slot, name)?;
    of.send(alloc, desk, slot)?;
    desk.close(slot)?;
    Ok(())
}
