//! The files of the system.

ghost use Rattle.std.specs.Prelude.{◌≡◌, ◌≢◌, ◌≤◌, ◌↔◌, length, IfOk, None};
ghost use Rattle.std.specs.IoError.{error_kind};
ghost use Rattle.bound_base.specs.Outside.{Rose};

use bound_base::{Store, StoreFault};
use std::io::{ErrorKind, Read, Seek, SeekFrom};
use std::rt::Files;
use std::{fs, io};

/// The files of the runtime, by their paths. Each read opens the file anew, so read in large pieces. It tells nothing
/// of what they hold.
#[derive(Drop)]
pub struct FileStore<R: Files + Drop> {
    rt: R,
    faults: u64,
}

impl<R: Files + Drop> FileStore<R> {
    /// The files of `rt`, of whose reads none has failed.
    pub fn new(rt: R) -> FileStore<R>
        ensures { ⟦<FileStore<R> as Store>⟧.faults result ≡ 0 }
    {
        FileStore { rt, faults: 0 }
    }

    /// The answer to an error of the system: Memory where it had none, else Failed, which is counted.
    fn fault_of(&mut self, error: &io::Error) -> StoreFault
        ensures memory { (result ≡ StoreFault.Memory)
            ↔ (error_kind error.now ≡ ErrorKind.OutOfMemory) }
        ensures never_absent { result ≢ StoreFault.Absent }
        ensures failed { result ≡ StoreFault.Failed → Rose self.old.faults self.new.faults }
        ensures uncounted { result ≡ StoreFault.Memory → self.new.faults ≡ self.old.faults }
        ensures count { self.old.faults ≤ self.new.faults }
    {
        if error.kind() == ErrorKind::OutOfMemory {
            return StoreFault::Memory;
        }
        self.faults = self.faults.saturating_add(1);
        StoreFault::Failed
    }
}

impl<R: Files + Drop> Store for FileStore<R> {
    ghost held = { λ _. None };

    ghost faults = { λ store. store.faults };

    /// Absent where the file or a folder on its path isn't there; Failed where it can't be opened or read, as a
    /// folder can't.
    fn read(&mut self, name: &str, at: u64, into: &mut [u8]) -> Result<usize, StoreFault> {
        let mut file = match fs::open(&self.rt, name) {
            Ok(file) => file,
            Err(error) if error.kind() == ErrorKind::NotFound => return Err(StoreFault::Absent),
            Err(error) => return Err(self.fault_of(&error)),
        };
        match read_from(&mut file, at, into) {
            Ok(count) => Ok(count),
            Err(error) => Err(self.fault_of(&error)),
        }
    }
}

/// Fills `into` from the offset on, up to the end of the file, and answers how many bytes it read. A read that was
/// interrupted is done again; after 2^64 - 1 reads it fails.
pub fn read_from<F: Read + Seek>(file: &mut F, at: u64, into: &mut [u8]) -> io::Result<usize>
    ensures { IfOk result (λ count. count ≤ length into.old) }
{
    file.seek(SeekFrom::Start(at))?;
    let mut filled = 0;
    'reads: for _ in 0..u64::MAX {
        if filled == into.len() {
            return Ok(filled);
        }
        match file.read(&mut into[filled..]) {
            Ok(0) => return Ok(filled),
            Ok(count) => filled += count,
            Err(error) if error.kind() == ErrorKind::Interrupted => {}
            Err(error) => return Err(error),
        }
    }
    Err(io::Error::from(ErrorKind::Interrupted))
}
