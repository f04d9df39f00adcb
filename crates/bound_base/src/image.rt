//! The parts of an image, in the order in which they are read, and why an image is refused.

ghost use Rattle.std.specs.Prelude.{◌≡◌, Some};
ghost use Rattle.bound_base.specs.declared.image.BadImage.TheVariants.{Memory};

use std::alloc::{AllocError, AllocFailed};
use std::fmt;
use thiserror::Error;

/// A part of an image, in reading order (ECMA-335 II.24 and II.25).
#[derive(Clone, Copy, Debug, PartialEq, Eq)]
pub enum Part {
    /// The MS-DOS header's magic (II.25.2.1).
    Mz,
    /// The offset of the PE signature, `lfanew` (II.25.2.1).
    PeOffset,
    /// The PE signature (II.25.2.1).
    PeSignature,
    /// The PE file header (II.25.2.2).
    CoffHeader,
    /// The magic of the PE optional header (II.25.2.3).
    OptionalHeader,
    /// The data directories, of which the CLI header's is asked (II.25.2.3.3).
    Directories,
    /// The section headers (II.25.3).
    Sections,
    /// The CLI header (II.25.3.3).
    CliHeader,
    /// The CLI header's flags (II.25.3.3.1).
    CliFlags,
    /// The metadata root (II.24.2.1).
    MetadataRoot,
    /// The stream headers (II.24.2.2).
    Streams,
    /// The `#~` stream's header and the sizes of its tables (II.24.2.6).
    Tables,
    /// A cell of a checked table (II.22).
    Cell,
    /// The types and their members.
    Types,
    /// The entry point.
    EntryPoint,
}

impl fmt::Display for Part {
    ghost use Rattle.bound_base.specs.Image.{part_name};

    ghost output = { λ part. Some (part_name part) };

    fn fmt<W: fmt::Write>(&self, f: &mut fmt::Formatter<W>) -> fmt::Result {
        match self {
            Part::Mz => write!(f, "mz"),
            Part::PeOffset => write!(f, "pe offset"),
            Part::PeSignature => write!(f, "pe signature"),
            Part::CoffHeader => write!(f, "coff header"),
            Part::OptionalHeader => write!(f, "optional header"),
            Part::Directories => write!(f, "directories"),
            Part::Sections => write!(f, "sections"),
            Part::CliHeader => write!(f, "cli header"),
            Part::CliFlags => write!(f, "cli flags"),
            Part::MetadataRoot => write!(f, "metadata root"),
            Part::Streams => write!(f, "streams"),
            Part::Tables => write!(f, "tables"),
            Part::Cell => write!(f, "cell"),
            Part::Types => write!(f, "types"),
            Part::EntryPoint => write!(f, "entry point"),
        }
    }
}

/// Why an image is refused.
#[derive(Clone, Copy, Debug, PartialEq, Eq, Error)]
pub enum BadImage {
    /// The first broken part, and the file offset of its first field that is missing or wrong.
    #[error("bad image: {part} at {at}")]
    Bad { part: Part, at: u64 },
    /// There is no memory for what is read.
    #[error("out of memory")]
    Memory,
}

impl From<AllocError> for BadImage {
    ghost from_gives = { λ _ e. e ≡ Memory };

    fn from(_: AllocError) -> BadImage {
        BadImage::Memory
    }
}

impl<T: Drop> From<AllocFailed<T>> for BadImage {
    ghost from_gives = { λ _ e. e ≡ Memory };

    fn from(_: AllocFailed<T>) -> BadImage {
        BadImage::Memory
    }
}
