//! Methods, fields, imports and types by their rows (ECMA-335 II.22).

ghost use Rattle.std.specs.Prelude.{◌≡◌, ◌<◌, ◌+◌, ◌*◌, ◌^◌, option_map, slice_index, Some, IfSome};
ghost use Rattle.marshal_spec.specs.Reading.{spec_of};
ghost use Rattle.std.specs.Option.{option_copied};
ghost use Rattle.type_model.specs.Module.{in_column};
ghost use Rattle.type_model.specs.Members as definition;
ghost use Rattle.type_model.specs.MemberViews.{view_method, view_import, view_field, view_type_row, view_marshalled};

use crate::core_types::{FIRST_CORE, core_type};
use crate::model::Types;
use crate::table::Row;
use crate::table_numbers::{FIELDS, METHOD_DEFS, MODULE_REFS, PARAMS, TYPE_DEFS};
use managed_value::TypeId;
use marshal_spec::{Spec, SpecBad, read_spec};
use sig_reader::{Sig, TypeSig};

/// A descriptor of a field, a parameter or a result (ECMA-335 II.22.17).
#[derive(Clone, Copy, Debug)]
pub enum Marshalled {
    /// There is none.
    Nothing,
    /// There is a blob, which is no descriptor.
    Unread,
    Is(Spec),
}

/// A method, by its row of MethodDef (ECMA-335 II.22.26).
#[derive(Clone, Copy, Debug)]
pub struct MethodRow<'a> {
    /// The row of TypeDef of the type that has it.
    pub owner: u32,
    /// Its MethodAttributes (II.23.1.10).
    pub flags: u32,
    /// Its MethodImplAttributes (II.23.1.11).
    pub impl_flags: u32,
    pub name: &'a [u8],
    /// Its signature, None outside the grammar.
    pub sig: Option<&'a Sig>,
}

/// A method that stands for a function of a library (ECMA-335 II.22.22).
#[derive(Clone, Copy, Debug)]
pub struct Import<'a> {
    /// The method's row of MethodDef.
    pub method: u32,
    /// The library's name, as written.
    pub module: &'a [u8],
    /// The function's name.
    pub entry: &'a [u8],
    /// The PInvokeAttributes of its row (II.23.1.8).
    pub flags: u32,
    /// Its signature, None outside the grammar.
    pub sig: Option<&'a Sig>,
}

/// A field, by its row of Field (ECMA-335 II.22.15).
#[derive(Clone, Copy, Debug)]
pub struct FieldRow<'a> {
    pub row: u32,
    /// The row of TypeDef of the type that has it, 0 where none has.
    pub owner: u32,
    /// Its FieldAttributes (II.23.1.5).
    pub flags: u32,
    /// Its signature; None only where no type has it, since files with others are refused.
    pub sig: Option<&'a TypeSig>,
    /// Where it is said to stand in a struct (II.22.16).
    pub offset: Option<u32>,
    pub spec: Marshalled,
}

/// A type, by its row of TypeDef or its place among the core types (ECMA-335 II.22.37).
#[derive(Clone, Copy, Debug)]
pub struct TypeRow {
    /// Its TypeAttributes (II.23.1.15).
    pub flags: u32,
    pub extends: Option<TypeId>,
    /// Its packing, 0 where none is given (II.22.8).
    pub pack: u32,
    /// Its least size in bytes, 0 where none is given (II.22.8).
    pub least: u32,
    /// Its methods are the rows of MethodDef from here.
    pub first: u32,
    /// Its methods are the rows of MethodDef up to here, this one not included.
    pub end: u64,
}

impl Types {
    /// A method; None exactly where there is no such row.
    #[tactic(auto, unfolding(crate::specs::Members::method))]
    pub fn method(&self, n: u32) -> Option<MethodRow<'_>>
        ensures { option_map view_method result ≡ definition.method self.now n }
    {
        if n < 1 || self.image().row_count(METHOD_DEFS) < n {
            return None;
        }
        let image = self.image();
        Some(MethodRow {
            owner: image.owner_of_method(n),
            flags: image.cell(METHOD_DEFS, u64::from(n), 2),
            impl_flags: image.cell(METHOD_DEFS, u64::from(n), 1),
            name: image.text(image.cell(METHOD_DEFS, u64::from(n), 3)),
            sig: self.method_sig(n),
        })
    }

    /// The import that a method is, by the first row of ImplMap that forwards it; None exactly where there is none.
    #[tactic(auto, unfolding(crate::specs::Members::import_of))]
    pub fn import_of(&self, method: u32) -> Option<Import<'_>>
        ensures { option_map view_import result ≡ definition.import_of self.now method }
    {
        let row = self.image().forwarding_row(2 * u64::from(method) + 1)?;
        Some(Import {
            method,
            module: self.library_name(row[3]),
            entry: self.image().text(row[2]),
            flags: row[0],
            sig: self.method_sig(method),
        })
    }

    /// The name of a library, by its row of ModuleRef; empty for row 0.
    pub fn library_name(&self, scope: u32) -> &[u8]
        ensures { result.now ≡ definition.library_name self.now scope }
    {
        match self.image().row(MODULE_REFS, u64::from(scope)) {
            Some(row) => self.image().text(row[0]),
            None => &[],
        }
    }

    /// The marks of a method's result, at place 0, or of its parameter of a place, from 1: its ParamAttributes (ECMA-335
    /// II.23.1.13), 0 without a row of Param.
    #[tactic(auto, unfolding(crate::specs::Members::mark_of))]
    pub fn mark(&self, method: u32, place: u32) -> u32
        ensures { result ≡ definition.mark_of self.now method place }
    {
        match self.param_of(method, place) {
            Some(param) => self.image().cell(PARAMS, param, 0),
            None => 0,
        }
    }

    /// The descriptor of a method's result, at place 0, or of its parameter of a place, from 1.
    #[tactic(auto, unfolding(crate::specs::Members::marshalled))]
    pub fn spec(&self, method: u32, place: u32) -> Marshalled
        ensures { view_marshalled result ≡ definition.marshalled self.now method place }
    {
        match self.param_of(method, place) {
            Some(param) => self.marshalled_by(2 * param + 1),
            None => Marshalled::Nothing,
        }
    }

    /// The row of Param of a place; None where there is no such row, or no such method.
    #[tactic(auto, unfolding(crate::specs::Members::param_of))]
    fn param_of(&self, method: u32, place: u32) -> Option<u64>
        ensures param { result ≡ definition.param_of self.now method place }
        ensures few { IfSome result (λ param. param < 2 ^ 32) }
    {
        if method < 1 || self.image().row_count(METHOD_DEFS) < method {
            return None;
        }
        self.param_in_run(method, place)
    }

    /// The first row of Param in a method's run with that sequence.
    #[tactic(auto, unfolding(crate::specs::Members::param_in_run))]
    fn param_in_run(&self, method: u32, place: u32) -> Option<u64>
        ensures param { result ≡ definition.param_in_run self.now method place }
        ensures few { IfSome result (λ param. param < 2 ^ 32) }
    {
        let first = u64::from(self.image().cell(METHOD_DEFS, u64::from(method), 5));
        let end = self.image().run_end(METHOD_DEFS, method, 5, PARAMS);
        (first..end).find(|param| self.image().cell(PARAMS, *param, 1) == place)
    }

    /// The descriptor of a row of Field or of Param, by its coded index HasFieldMarshal.
    fn marshalled_by(&self, parent: u64) -> Marshalled
        ensures { view_marshalled result ≡ definition.marshalled_by self.now parent }
    {
        match self.image().marshal_row(parent) {
            Some(row) => spec_in(self.image().blob(row[1])),
            None => Marshalled::Nothing,
        }
    }

    /// A field; None exactly where there is no such row.
    #[tactic(auto, unfolding(crate::specs::Members::field))]
    pub fn field(&self, n: u32) -> Option<FieldRow<'_>>
        ensures { option_map view_field result ≡ definition.field self.now n }
    {
        if n < 1 || self.image().row_count(FIELDS) < n {
            return None;
        }
        Some(FieldRow {
            row: n,
            owner: self.image().owner_of_field(n),
            flags: self.image().cell(FIELDS, u64::from(n), 0),
            sig: self.field_sig(n),
            offset: self.offset_of(n),
            spec: self.marshalled_by(2 * u64::from(n)),
        })
    }

    /// Where a field is said to stand, by the first row of FieldLayout that names it.
    fn offset_of(&self, n: u32) -> Option<u32>
        ensures { result ≡ definition.offset_of self.now n }
    {
        let row = self.image().field_layout_row(n)?;
        Some(row[0])
    }

    /// A type, by the base of its id; None exactly where that names no row of TypeDef and no core type.
    #[tactic(auto, unfolding(crate::specs::Members::type_row))]
    pub fn type_row(&self, base: u32) -> Option<TypeRow>
        ensures { option_map view_type_row result ≡ definition.type_row self.now base }
    {
        if FIRST_CORE <= base {
            let known = core_type(base - FIRST_CORE)?;
            return Some(self.core_row(base, known.flags));
        }
        if !self.image().is_row(TYPE_DEFS, base) {
            return None;
        }
        Some(self.file_row(base))
    }

    fn core_row(&self, base: u32, flags: u32) -> TypeRow
        ensures { view_type_row result ≡ definition.core_row self.now base flags }
    {
        TypeRow {
            flags,
            extends: self.extends_of(TypeId { base, arrays: 0 }),
            pack: 0,
            least: 0,
            first: 0,
            end: 0,
        }
    }

    fn file_row(&self, t: u32) -> TypeRow
        ensures { view_type_row result ≡ definition.type_row_of self.now t }
    {
        let image = self.image();
        let layout = image.class_layout_row(t);
        TypeRow {
            flags: image.cell(TYPE_DEFS, u64::from(t), 0),
            extends: self.extends_of(TypeId { base: t, arrays: 0 }),
            pack: number_in(layout, 0),
            least: number_in(layout, 1),
            first: image.cell(TYPE_DEFS, u64::from(t), 5),
            end: image.run_end(TYPE_DEFS, t, 5, METHOD_DEFS),
        }
    }

    /// The bytes from a method's address to the end of its section's data in the file. None exactly where there is no such
    /// row, its address is 0, or no section holds it.
    #[tactic(auto, unfolding(crate::specs::Members::code_at))]
    pub fn code_at(&self, n: u32) -> Option<&[u8]>
        ensures { option_copied result ≡ definition.code_at self.now n }
    {
        let rva = self.image().cell(METHOD_DEFS, u64::from(n), 0);
        if rva == 0 {
            return None;
        }
        self.image().rest_at(rva)
    }

    /// The `len` bytes at a field's address, by the first row of FieldRVA that names it; None exactly where there is none, or
    /// no section holds them all.
    #[tactic(auto, unfolding(crate::specs::Members::field_bytes))]
    pub fn field_bytes(&self, field: u32, len: u32) -> Option<&[u8]>
        ensures { option_copied result ≡ definition.field_bytes self.now field len }
    {
        let row = self.image().field_rva_row(field)?;
        self.image().bytes_at(row[0], len)
    }
}

/// What the blob of a row of FieldMarshal says.
#[tactic(auto, unfolding(marshal_spec::specs::Reading::spec_of))]
fn spec_in(blob: &[u8]) -> Marshalled
    ensures { view_marshalled result ≡ Some (spec_of blob.now) }
{
    match read_spec(blob) {
        Ok(spec) => Marshalled::Is(spec),
        Err(SpecBad::BadSpec(_)) => Marshalled::Unread,
    }
}

/// The number in a column of a row, 0 without one.
fn number_in(row: Option<&Row>, column: usize) -> u32
    requires { column < 9 }
    ensures { result ≡ in_column column (option_copied row.entry) }
{
    match row {
        Some(row) => row[column],
        None => 0,
    }
}
