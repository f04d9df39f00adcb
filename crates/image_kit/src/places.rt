//! Where the parts of an assembly's file stand.

ghost use Rattle.std.specs.Prelude.{◌≡◌, ◌+◌, ◌*◌, ◌≤◌, length};
ghost use Rattle.image_kit.specs.AssemblyFile.{rounded, heap_sizes, row_counts, assembly_end};

use crate::assembly_plan::AssemblyPlan;
use crate::plan_tables::{IndexSizes, bodies_size, rounded4, tables_size};

/// The sizes of the bodies, of the stream of the tables, of the metadata, of the section and of its raw data, and the places of
/// the heaps in the metadata.
#[derive(Clone, Copy)]
pub(crate) struct Places {
    pub bodies: u32,
    pub tables: u32,
    pub strings: u32,
    pub user: u32,
    pub guids: u32,
    pub blobs: u32,
    pub metadata: u32,
    pub section: u32,
    pub raw: u32,
}

impl Places {
    ghost use Rattle.image_kit.specs.AssemblyPlaces.{ArePlaces};

    pub(crate) fn of(p: &AssemblyPlan, sizes: &IndexSizes) -> Places
        requires heap_sizes { sizes.now.heap_sizes ≡ heap_sizes p.now }
        requires rows { sizes.now.rows ≡ row_counts p.now }
        requires small { assembly_end p.now ≤ 67108864 }
        ensures { ArePlaces p.now result }
    {
        let bodies = bodies_size(p.bodies.as_slice()) as u32;
        let tables = tables_size(sizes) as u32;
        let strings = 108 + rounded4(tables);
        let user = strings + rounded4(p.strings.len() as u32);
        let guids = user + rounded4(p.user.len() as u32);
        let blobs = guids + 16;
        let metadata = blobs + rounded4(p.blobs.len() as u32);
        let section = 72 + bodies + metadata;
        Places {
            bodies,
            tables,
            strings,
            user,
            guids,
            blobs,
            metadata,
            section,
            raw: section + (512 - section % 512) % 512,
        }
    }
}
