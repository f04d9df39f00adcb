//! Reading an assembly, from its headers to its types.

ghost use Rattle.bound_base.specs.Image.{refusal};
ghost use Rattle.byte_view.specs.Reading.{Reads};
ghost use Rattle.type_model.specs.Part.{assembly_types};

use bound_base::BadImage;
use meta_tables::read_meta;
use pe_reader::read_pe;
use std::alloc::Global;
use type_model::{Types, load};

/// The types of an assembly, or its first broken part: of its headers, its metadata and its types.
pub fn read_assembly(alloc: Global, bytes: &[u8]) -> Result<Types, BadImage>
    ensures { Reads refusal (λ types. types) result (assembly_types bytes.now) }
{
    let pe = read_pe(alloc, bytes)?;
    let meta = read_meta(alloc, bytes, pe.meta_at, pe.meta_size)?;
    load(alloc, bytes, &pe, &meta)
}
