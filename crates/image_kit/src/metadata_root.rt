//! The root of metadata, the headers of its streams, and its heaps (ECMA-335 II.24.2.1 and II.24.2.2).

ghost use Rattle.std.specs.Prelude.{◌≡◌, ◌+◌, ◌*◌, ◌≤◌, ◌++◌, length, OnOk};
ghost use Rattle.image_kit.specs.AssemblyFile.{padded, tables_size, strings_offset, user_offset, guids_offset, blobs_offset, metadata_root, stream_header, stream_headers, heaps_bytes, bodies_bytes};
ghost use Rattle.image_kit.specs.AssemblyPlaces.{ArePlaces};

use crate::assembly_plan::{AssemblyPlan, MethodBody};
use crate::places::Places;
use crate::put::{put_zeros, put16, put32};
use bound_base::Bytes;
use std::alloc::AllocError;

const SIGNATURE: [u8; 4] = *b"BSJB";

const VERSION: [u8; 12] = *b"v4.0.30319\0\0";

const TABLES: [u8; 4] = *b"#~\0\0";

const STRINGS: [u8; 12] = *b"#Strings\0\0\0\0";

const USER_STRINGS: [u8; 4] = *b"#US\0";

const GUIDS: [u8; 8] = *b"#GUID\0\0\0";

const BLOBS: [u8; 8] = *b"#Blob\0\0\0";

/// The signature, a version, and the number of streams.
#[tactic(auto, unfolding(crate::specs::AssemblyFile::metadata_root))]
pub(crate) fn put_metadata_root(out: &mut Bytes) -> Result<(), AllocError>
    ensures { OnOk result (out.new ≡ out.old ++ metadata_root) }
{
    out.extend_from_slice(&SIGNATURE)?;
    put16(out, 1)?;
    put16(out, 1)?;
    put32(out, 0)?;
    put32(out, 12)?;
    out.extend_from_slice(&VERSION)?;
    put16(out, 0)?;
    put16(out, 5)
}

/// The headers of the five streams.
#[tactic(auto, unfolding(crate::specs::AssemblyFile::stream_headers))]
pub(crate) fn put_stream_headers(
    out: &mut Bytes,
    p: &AssemblyPlan,
    places: &Places,
) -> Result<(), AllocError>
    requires places { ArePlaces p.now places.now }
    requires strings { length p.now.strings ≤ 67108864 }
    requires user { length p.now.user ≤ 67108864 }
    requires blobs { length p.now.blobs ≤ 67108864 }
    ensures { OnOk result (out.new ≡ out.old ++ stream_headers p.now) }
{
    put_stream_header(out, 108, places.tables, &TABLES)?;
    put_stream_header(out, places.strings, p.strings.len() as u32, &STRINGS)?;
    put_stream_header(out, places.user, p.user.len() as u32, &USER_STRINGS)?;
    put_stream_header(out, places.guids, 16, &GUIDS)?;
    put_stream_header(out, places.blobs, p.blobs.len() as u32, &BLOBS)
}

#[tactic(auto, unfolding(crate::specs::AssemblyFile::stream_header))]
fn put_stream_header(out: &mut Bytes, offset: u32, size: u32, name: &[u8]) -> Result<(), AllocError>
    ensures { OnOk result (out.new ≡ out.old ++ stream_header offset size name.now) }
{
    put32(out, offset)?;
    put32(out, size)?;
    out.extend_from_slice(name)
}

/// The heaps, each up to a multiple of four, and between them the one GUID.
#[tactic(auto, unfolding(crate::specs::AssemblyFile::heaps_bytes))]
pub(crate) fn put_heaps(out: &mut Bytes, p: &AssemblyPlan) -> Result<(), AllocError>
    ensures { OnOk result (out.new ≡ out.old ++ heaps_bytes p.now) }
{
    put_padded(out, p.strings.as_slice())?;
    put_padded(out, p.user.as_slice())?;
    put_zeros(out, 16)?;
    put_padded(out, p.blobs.as_slice())
}

/// Bytes, and zeros up to a multiple of four.
pub(crate) fn put_padded(out: &mut Bytes, bytes: &[u8]) -> Result<(), AllocError>
    ensures { OnOk result (out.new ≡ out.old ++ padded bytes.now) }
{
    out.extend_from_slice(bytes)?;
    put_zeros(out, ((4 - bytes.len() % 4) % 4) as u32)
}

/// The bodies of methods, each up to a multiple of four.
#[tactic(auto, unfolding(crate::specs::AssemblyFile::bodies_bytes))]
pub(crate) fn put_bodies(out: &mut Bytes, bodies: &[MethodBody]) -> Result<(), AllocError>
    ensures { OnOk result (out.new ≡ out.old ++ bodies_bytes bodies.now) }
{
    for body in bodies {
        put_padded(out, body.bytes.as_slice())?;
    }
    Ok(())
}
