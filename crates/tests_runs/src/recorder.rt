//! A system that keeps a record of its calls, over another one, and whether what files are supposed to hold gives each answer.
ghost use Rattle.std.specs.Prelude.{◌≡◌, ℕ, List, ◌∷◌, map};
ghost use Rattle.pb_desk.specs.Memory.{shelf_of};
ghost use Rattle.pb_files.specs.Calls.{Call};
ghost use Rattle.tests_runs.specs.Records.{call_of};

use pb_base::{Bytes, Failed, Text};
use pb_desk::Named;
use pb_files::{FileId, System};

/// A call with its answer.
#[derive(Drop)]
pub enum Kept {
    /// A slot, and a name.
    Open(u8, Text, Result<Option<FileId>, Failed>),
    /// A slot, and a name.
    Create(u8, Text, Result<Option<FileId>, Failed>),
    /// A slot.
    Truncate(u8, Result<(), Failed>),
    /// A slot, how many bytes the room has, and what is in it after the call.
    Read(u8, usize, Bytes, Result<usize, Failed>),
    /// A slot, and a piece.
    Write(u8, Bytes, Result<usize, Failed>),
    /// A slot.
    Sync(u8, Result<(), Failed>),
    /// A piece.
    Say(Bytes, Result<usize, Failed>),
}

/// What keeps calls, and copies what they are of. It has memory for all.
pub trait Keeper {
    /// The calls, the newest first.
    ghost kept: { Self → List Call };

    /// Keeps one more call.
    fn keep(&mut self, call: Kept)
        ensures { kept self.new ≡ call_of call ∷ kept self.old };

    /// A copy of the bytes.
    fn copy(&self, bytes: &[u8]) -> Bytes
        ensures { result ≡ bytes.now };

    /// A copy of the name.
    fn copy_name(&self, name: &str) -> Text
        ensures { result ≡ name.now };
}

/// A system whose calls are kept, over files that are supposed to hold this.
#[derive(Drop)]
pub struct Recorder<'a, S: System + Drop, K: Keeper + Drop> {
    pub system: S,
    pub files: &'a [Named],
    pub keeper: K,
}

impl<'a, S: System + Drop, K: Keeper + Drop> System for Recorder<'a, S, K> {
    ghost use Rattle.std.specs.Prelude.{Some};

    ghost calls = { λ recorder. Some (K.kept recorder.keeper) };

    ghost files = { λ recorder. shelf_of recorder.files.now };

    ghost output = { λ recorder. S.output recorder.system };

    fn output(&self) -> Option<FileId> {
        self.system.output()
    }

    fn open(&mut self, slot: u8, name: &str) -> Result<Option<FileId>, Failed> {
        let answer = self.system.open(slot, name);
        let name = self.keeper.copy_name(name);
        self.keeper.keep(Kept::Open(slot, name, answer));
        answer
    }

    fn create(&mut self, slot: u8, name: &str) -> Result<Option<FileId>, Failed> {
        let answer = self.system.create(slot, name);
        let name = self.keeper.copy_name(name);
        self.keeper.keep(Kept::Create(slot, name, answer));
        answer
    }

    fn truncate(&mut self, slot: u8) -> Result<(), Failed> {
        let answer = self.system.truncate(slot);
        self.keeper.keep(Kept::Truncate(slot, answer));
        answer
    }

    fn read(&mut self, slot: u8, room: &mut [u8]) -> Result<usize, Failed> {
        let length = room.len();
        let answer = self.system.read(slot, room);
        let bytes = self.keeper.copy(room);
        self.keeper.keep(Kept::Read(slot, length, bytes, answer));
        answer
    }

    fn write(&mut self, slot: u8, piece: &[u8]) -> Result<usize, Failed> {
        let answer = self.system.write(slot, piece);
        let piece = self.keeper.copy(piece);
        self.keeper.keep(Kept::Write(slot, piece, answer));
        answer
    }

    fn sync(&mut self, slot: u8) -> Result<(), Failed> {
        let answer = self.system.sync(slot);
        self.keeper.keep(Kept::Sync(slot, answer));
        answer
    }

    fn say(&mut self, piece: &[u8]) -> Result<usize, Failed> {
        let answer = self.system.say(piece);
        let piece = self.keeper.copy(piece);
        self.keeper.keep(Kept::Say(piece, answer));
        answer
    }
}
