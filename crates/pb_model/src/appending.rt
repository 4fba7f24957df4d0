//! Bytes that are appended whole or not at all.
ghost use Rattle.std.specs.Prelude.{◌≡◌, OnOk, OnErr, take};
ghost use Rattle.std.specs.Result.{IsOk};

use pb_base::NoMemory;
use std::alloc::AllocError;

/// Cuts the bytes back to so many, unless all was appended.
pub(crate) fn whole_or_none(
    out: &mut Vec<u8>,
    before: usize,
    appended: Result<(), AllocError>,
) -> Result<(), NoMemory>
    ensures whole { OnOk result (IsOk appended) }
    ensures ok { OnOk result (out.new.items ≡ out.old.items) }
    ensures err { OnErr result (out.new.items ≡ take before out.old.items) }
{
    match appended {
        Ok(()) => Ok(()),
        Err(_) => {
            out.truncate(before);
            Err(NoMemory)
        }
    }
}
