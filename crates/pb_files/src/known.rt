// Which files the desk knows.
ghost use Rattle.std.specs.Prelude.{◌≡◌};
ghost use Rattle.std.specs.List.{list_any};
ghost use Rattle.pb_files.specs.Asked.{is_id, is_known};

use crate::FileId;

// True if a known file has this identity: the same device and number.
#[tactic(auto, unfolding(crate::specs::Asked::is_id))]
fn is_id(id: FileId, known: &Option<FileId>) -> bool
    ensures { result ≡ is_id id known.now }
{
    match known {
        Some(known) => known.device == id.device && known.number == id.number,
        None => false,
    }
}

// True if one of the known files has this identity.
fn is_among(known: &[Option<FileId>], id: FileId) -> bool
    ensures { result ≡ list_any (is_id id) known.now }
{
    known.iter().any(|known| is_id(id, known))
}

/// True if the identity of the file is known, and one of the known files has it.
pub fn is_known(known: &[Option<FileId>], id: Option<FileId>) -> bool
    ensures { result ≡ is_known known.now id }
{
    match id {
        Some(id) => is_among(known, id),
        None => false,
    }
}
