//! The types of a file whose headers and metadata were read.

ghost use Rattle.bound_base.specs.Image.{refusal};
ghost use Rattle.byte_view.specs.Reading.{Reads};
ghost use Rattle.pe_reader.specs.Pe.{headers_of};
ghost use Rattle.type_model.specs.Part.{types_in};

use crate::model::Types;
use crate::part::check_types;
use bound_base::{BadImage, NoMemory};
use meta_tables::Meta;
use pe_reader::Pe;
use std::alloc::Global;

/// Loads the types of a file: `bytes` is the file, `pe` what its headers tell, `meta` its metadata.
///
/// The first type that isn't sound is refused at the start of its row of TypeDef: one that extends itself, encloses itself or
/// stands inside itself, at whatever distance, or that declares a field whose signature is outside the grammar (ECMA-335
/// II.22.37, II.22.32, II.23.2.4); and a file for which there is no memory, with `BadImage::Memory`.
#[tactic(auto, unfolding(crate::specs::Part::types_in))]
pub fn load(alloc: Global, bytes: &[u8], pe: &Pe, meta: &Meta<'_>) -> Result<Types, BadImage>
    ensures { Reads refusal (λ types. types) result
        (types_in bytes.now (headers_of pe.now) meta.now) }
{
    match Types::read(alloc, bytes, pe, meta) {
        Err(NoMemory) => Err(BadImage::Memory),
        Ok(types) => {
            check_types(alloc, &types, meta)?;
            Ok(types)
        }
    }
}
