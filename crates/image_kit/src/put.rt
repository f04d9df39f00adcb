//! Numbers at the end of a list of bytes, lowest byte first.

ghost use Rattle.std.specs.Prelude.{◌≡◌, ◌++◌, OnOk};
ghost use Rattle.image_kit.specs.LibraryFile.{u16, u32, u64};
ghost use Rattle.image_kit.specs.AssemblyFile.{zeros};

use bound_base::Bytes;
use std::alloc::AllocError;

#[tactic(auto, unfolding(crate::specs::LibraryFile::u16))]
pub(crate) fn put16(out: &mut Bytes, number: u16) -> Result<(), AllocError>
    ensures { OnOk result (out.new ≡ out.old ++ u16 number) }
{
    out.extend_from_slice(&number.to_le_bytes())
}

#[tactic(auto, unfolding(crate::specs::LibraryFile::u32))]
pub(crate) fn put32(out: &mut Bytes, number: u32) -> Result<(), AllocError>
    ensures { OnOk result (out.new ≡ out.old ++ u32 number) }
{
    out.extend_from_slice(&number.to_le_bytes())
}

#[tactic(auto, unfolding(crate::specs::LibraryFile::u64))]
pub(crate) fn put64(out: &mut Bytes, number: u64) -> Result<(), AllocError>
    ensures { OnOk result (out.new ≡ out.old ++ u64 number) }
{
    out.extend_from_slice(&number.to_le_bytes())
}

/// So many zeros.
pub(crate) fn put_zeros(out: &mut Bytes, count: u32) -> Result<(), AllocError>
    ensures { OnOk result (out.new ≡ out.old ++ zeros count) }
{
    for _ in 0..count {
        out.push(0)?;
    }
    Ok(())
}
