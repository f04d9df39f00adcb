//! The file of an assembly (ECMA-335 II.24 and II.25).

ghost use Rattle.std.specs.Prelude.{◌≡◌, ◌+◌, ◌*◌, ◌≤◌, ◌++◌, length, IfOk, OnOk};
ghost use Rattle.image_kit.specs.AssemblyFile.{heap_sizes, row_counts, rows_among, assembly_end, metadata_bytes, assembly_file};
ghost use Rattle.image_kit.specs.AssemblyPlaces.{ArePlaces};
ghost use Rattle.image_kit.specs.AssemblyReads.{Fits, ReadsBack};

use crate::assembly_plan::AssemblyPlan;
use crate::metadata_root::{put_bodies, put_heaps, put_metadata_root, put_stream_headers};
use crate::pe_head::{put_cli_header, put_pe_headers};
use crate::places::Places;
use crate::plan_tables::IndexSizes;
use crate::put::put_zeros;
use crate::table_stream::put_tables_stream;
use bound_base::{Bytes, NoMemory};
use std::alloc::{AllocError, Global};

/// The file of an assembly: a PE32 image for the CLI with one section, which has the CLI header, the bodies of the methods,
/// each at a multiple of four bytes, and the metadata. A method that has a body gets its address as RVA.
pub fn assembly(alloc: Global, p: &AssemblyPlan) -> Result<Bytes, NoMemory>
    requires { Fits p.now }
    ensures file { IfOk result (λ bytes. bytes ≡ assembly_file p.now) }
    ensures read { IfOk result (λ bytes. ReadsBack p.now bytes) }
{
    let mut out = Bytes::new(alloc);
    put_assembly(&mut out, p)?;
    Ok(out)
}

#[tactic(auto, unfolding(crate::specs::AssemblyFile::assembly_file))]
fn put_assembly(out: &mut Bytes, p: &AssemblyPlan) -> Result<(), AllocError>
    requires { Fits p.now }
    ensures { OnOk result (out.new ≡ out.old ++ assembly_file p.now) }
{
    let sizes = IndexSizes::of(p);
    let places = Places::of(p, &sizes);
    put_pe_headers(out, places.section, places.raw)?;
    put_cli_header(out, 0x2048 + places.bodies, places.metadata, p.entry)?;
    put_bodies(out, p.bodies.as_slice())?;
    put_metadata(out, p, &sizes, &places)?;
    put_zeros(out, places.raw - places.section)
}

#[tactic(auto, unfolding(crate::specs::AssemblyFile::metadata_bytes))]
fn put_metadata(
    out: &mut Bytes,
    p: &AssemblyPlan,
    sizes: &IndexSizes,
    places: &Places,
) -> Result<(), AllocError>
    requires heap_sizes { sizes.now.heap_sizes ≡ heap_sizes p.now }
    requires rows { sizes.now.rows ≡ row_counts p.now }
    requires places { ArePlaces p.now places.now }
    requires small { assembly_end p.now ≤ 67108864 }
    requires methods { length (rows_among p.now.tables 6) ≤ 67108864 }
    ensures { OnOk result (out.new ≡ out.old ++ metadata_bytes p.now) }
{
    put_metadata_root(out)?;
    put_stream_headers(out, p, places)?;
    put_tables_stream(out, p, sizes)?;
    put_zeros(out, (4 - places.tables % 4) % 4)?;
    put_heaps(out, p)
}
