//! Reading a whole file from a store.

ghost use Rattle.std.specs.Prelude.{◌≡◌, ◌≤◌, ◌++◌, length, vec_len, IfOk, OnOk, IsErrOf};
ghost use Rattle.bound_base.specs.Outside.{contents_under, Rose};
ghost use Rattle.bound_base.specs.Names.{IsBytes};
ghost use Rattle.host_run.specs.Files.{IsWhole, CountsFile, file_limit};
ghost use Rattle.host_run.specs.declared.files.FileError.TheVariants.{Memory};

use bound_base::{Bytes, Store, StoreFault};
use std::alloc::{AllocError, Global};

/// The most bytes that a file may have.
const FILE_LIMIT: usize = 67_108_864;

/// How many bytes are asked for at a time.
const PIECE: usize = 65_536;

/// Why a file wasn't read.
#[derive(Clone, Copy, Debug, PartialEq, Eq)]
pub enum FileError {
    /// The store doesn't hold it.
    Absent,
    /// A read failed.
    Failed,
    /// It has more than 67,108,864 bytes.
    TooLarge,
    Memory,
}

impl From<AllocError> for FileError {
    ghost from_gives = { λ _ e. e ≡ Memory };

    fn from(_: AllocError) -> FileError {
        FileError::Memory
    }
}

impl From<StoreFault> for FileError {
    ghost use Rattle.host_run.specs.Files.{fault_error};

    ghost from_gives = { λ fault e. e ≡ fault_error fault };

    fn from(fault: StoreFault) -> FileError {
        match fault {
            StoreFault::Absent => FileError::Absent,
            StoreFault::Failed => FileError::Failed,
            StoreFault::Memory => FileError::Memory,
        }
    }
}

/// All bytes of a file, read in pieces. Of a file that is too large no piece is read after the one that shows it.
pub fn read_file<S: Store>(alloc: Global, name: &str, store: &mut S) -> Result<Bytes, FileError>
    ensures whole { IsWhole (contents_under (S.held store.old) name.now) result }
    ensures failed { IsErrOf result FileError.Failed →
        Rose (S.faults store.old) (S.faults store.new) }
    ensures uncounted { CountsFile result (S.faults store.old) (S.faults store.new) }
    ensures count { S.faults store.old ≤ S.faults store.new }
    ensures small { IfOk result (λ bytes. length bytes ≤ file_limit) }
    ensures of_bytes { IfOk result IsBytes }
    ensures kept { S.held store.new ≡ S.held store.old }
{
    let mut piece = buffer(alloc, PIECE)?;
    let mut file = Bytes::new(alloc);
    loop {
        let n = store.read(name, file.len() as u64, piece.as_mut_slice())?;
        if n == 0 {
            return Ok(file);
        }
        append(&mut file, &piece[..n])?;
        if file.len() > FILE_LIMIT {
            return Err(FileError::TooLarge);
        }
    }
}

/// Appends what was read.
fn append(file: &mut Bytes, piece: &[u8]) -> Result<(), AllocError>
    ensures ok { OnOk result (file.new ≡ file.old ++ piece.now) }
    ensures of_bytes { IsBytes piece.now }
{
    file.extend_from_slice(piece)
}

fn buffer(alloc: Global, len: usize) -> Result<Vec<u8>, AllocError>
    ensures { IfOk result (λ bytes. vec_len bytes ≡ len) }
{
    vec![in alloc; 0u8; len]
}
