// A file that the host holds, and which file it is.
ghost use Rattle.std.specs.Prelude.{pos, ◌<ℤ◌};
ghost use Rattle.std.specs.Fd.{file_raw_fd};

use crate::FileId;
use pb_base::Failed;
use std::fs::{File, Metadata};
use std::io;
use std::os::fd::AsRawFd;
use std::os::unix::fs::{FileTypeExt, MetadataExt};

/// An open file that has the number of no standard stream, so that what is said never goes into it.
#[derive(Drop)]
pub struct Opened {
    file: File,
    ghost above: { pos 2 <ℤ file_raw_fd file },
}

impl Opened {
    /// Takes a file over, unless it has the number of a standard stream.
    pub fn new(file: File) -> Result<Opened, Failed> {
        if file.as_raw_fd() > 2 {
            Ok(Opened { file })
        } else {
            Err(Failed)
        }
    }

    /// Returns the file.
    pub fn file(&self) -> &File {
        &self.file
    }
}

/// Returns the identity of a file. A terminal or another device may be read and written at once, so it has none.
pub fn id_of(told: io::Result<Metadata>) -> Result<Option<FileId>, Failed> {
    let Ok(data) = told else {
        return Err(Failed);
    };
    let kind = data.file_type();
    Ok(
        (kind.is_file() || kind.is_fifo()).then_some(FileId {
            device: data.dev(),
            number: data.ino(),
        }),
    )
}
