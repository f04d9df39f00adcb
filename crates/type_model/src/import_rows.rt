//! The rows of ImplMap, each an import as it is written (ECMA-335 II.22.22).

ghost use Rattle.std.specs.Prelude.{◌≡◌, option_map};
ghost use Rattle.type_model.specs.Module.{row_count};
ghost use Rattle.type_model.specs.Rows.{impl_maps};
ghost use Rattle.type_model.specs.MemberViews.{view_import_row};
ghost use Rattle.type_model.specs.ImportRows.{forwarded_method as method_forwarded, import_row as import_row_of};

use crate::model::Types;
use crate::table_numbers::IMPL_MAPS;

/// An import as its row of ImplMap has it.
#[derive(Clone, Copy, Debug)]
pub struct ImportRow<'a> {
    /// The library's name, as written.
    pub module: &'a [u8],
    /// The function's name.
    pub entry: &'a [u8],
    /// The row of MethodDef of the method that stands for the function; None where a field does.
    pub method: Option<u32>,
}

impl Types {
    /// How many rows ImplMap has.
    pub fn import_count(&self) -> u32
        ensures { result ≡ row_count self.now impl_maps }
    {
        self.image().row_count(IMPL_MAPS)
    }

    /// An import, by its row of ImplMap, from 1; None exactly where there is no such row.
    #[tactic(auto, unfolding(crate::specs::ImportRows::import_row))]
    pub fn import_row(&self, n: u32) -> Option<ImportRow<'_>>
        ensures { option_map view_import_row result ≡ import_row_of self.now n }
    {
        let row = self.image().row(IMPL_MAPS, u64::from(n))?;
        Some(ImportRow {
            module: self.library_name(row[3]),
            entry: self.image().text(row[2]),
            method: forwarded_method(row[1]),
        })
    }
}

/// The row of MethodDef that a coded index MemberForwarded names.
fn forwarded_method(coded: u32) -> Option<u32>
    ensures { result ≡ method_forwarded coded }
{
    if coded % 2 == 1 {
        Some(coded / 2)
    } else {
        None
    }
}
