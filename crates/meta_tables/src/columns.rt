//! The columns of the metadata tables (ECMA-335 II.22), and their widths (II.24.2.6).

ghost use Rattle.std.specs.Prelude.{◌≡◌, ◌≤◌, ◌^◌, nat_lt, map, length, slice_index, if◌then◌else◌};
ghost use Rattle.std.specs.List.{list_all};
ghost use Rattle.byte_view.specs.Columns.{CodedRow, columns as columns_of, width as column_width, heap_width as heap_width_of, rows_of_tag};
ghost use Rattle.meta_tables.specs.View.{view_coded, view_column, bytes_of};

use CodedIndex::{
    CustomAttributeType, HasConstant, HasCustomAttribute, HasDeclSecurity, HasFieldMarshal,
    HasSemantics, Implementation, MemberForwarded, MemberRefParent, MethodDefOrRef,
    ResolutionScope, TypeDefOrRef, TypeOrMethodDef,
};
use Column::{Blob, Coded, Guid, Number, Row, Run, String};
use Width::{Four, One, Two};

/// How many bytes a cell takes. A column that a table doesn't have takes none.
#[derive(Clone, Copy, Debug, PartialEq, Eq)]
pub enum Width {
    None,
    One,
    Two,
    Four,
}

impl Width {
    /// How many bytes these are.
    pub fn bytes(self) -> usize
        ensures bytes { result ≡ bytes_of self }
        ensures small { result ≤ 4 }
    {
        match self {
            Width::None => 0,
            Width::One => 1,
            Width::Two => 2,
            Width::Four => 4,
        }
    }
}

/// What a column holds.
#[derive(Clone, Copy, Debug, PartialEq, Eq)]
pub enum Column {
    Number(Width),
    /// An offset in `#Strings`.
    String,
    /// The number of a GUID in `#GUID`, from 1, or 0.
    Guid,
    /// An offset in `#Blob`.
    Blob,
    /// A row of a table, from 1, or 0.
    Row(u8),
    /// The first row of a run that ends where the next row's begins.
    Run(u8),
    /// A row of one of several tables, or 0.
    Coded(CodedIndex),
}

/// The coded indexes (II.24.2.6).
#[derive(Clone, Copy, Debug, PartialEq, Eq)]
pub enum CodedIndex {
    TypeDefOrRef,
    HasConstant,
    HasCustomAttribute,
    HasFieldMarshal,
    HasDeclSecurity,
    MemberRefParent,
    HasSemantics,
    MethodDefOrRef,
    MemberForwarded,
    Implementation,
    CustomAttributeType,
    ResolutionScope,
    TypeOrMethodDef,
}

/// How a coded index names its table: the tag's bits, and the tables by tag.
#[derive(Clone, Copy, Debug)]
pub struct Tags {
    pub bits: u32,
    pub tables: &'static [Option<u8>],
}

impl CodedIndex {
    /// The bits of the tag, and the table of each tag (II.24.2.6).
    pub fn tags(self) -> Tags
        ensures value { CodedRow result.bits result.tables.now ≡ view_coded self }
        ensures few { result.bits ≤ 5 }
    {
        match self {
            TypeDefOrRef => by_tag(2, &[Some(0x02), Some(0x01), Some(0x1B)]),
            HasConstant => by_tag(2, &[Some(0x04), Some(0x08), Some(0x17)]),
            HasCustomAttribute => by_tag(5, &ATTRIBUTE_PARENTS),
            HasFieldMarshal => by_tag(1, &[Some(0x04), Some(0x08)]),
            HasDeclSecurity => by_tag(2, &[Some(0x02), Some(0x06), Some(0x20)]),
            MemberRefParent => by_tag(
                3,
                &[Some(0x02), Some(0x01), Some(0x1A), Some(0x06), Some(0x1B)],
            ),
            HasSemantics => by_tag(1, &[Some(0x14), Some(0x17)]),
            MethodDefOrRef => by_tag(1, &[Some(0x06), Some(0x0A)]),
            MemberForwarded => by_tag(1, &[Some(0x04), Some(0x06)]),
            Implementation => by_tag(2, &[Some(0x26), Some(0x23), Some(0x27)]),
            CustomAttributeType => by_tag(3, &[None, None, Some(0x06), Some(0x0A)]),
            ResolutionScope => by_tag(2, &[Some(0x00), Some(0x1A), Some(0x23), Some(0x01)]),
            TypeOrMethodDef => by_tag(1, &[Some(0x02), Some(0x06)]),
        }
    }
}

fn by_tag(bits: u32, tables: &'static [Option<u8>]) -> Tags
    ensures bits { result.bits ≡ bits }
    ensures tables { result.tables.now ≡ tables.now }
{
    Tags { bits, tables }
}

/// The tables of the rows that have custom attributes, by tag.
static ATTRIBUTE_PARENTS: [Option<u8>; 22] = [
    Some(0x06),
    Some(0x04),
    Some(0x01),
    Some(0x02),
    Some(0x08),
    Some(0x09),
    Some(0x0A),
    Some(0x00),
    Some(0x0E),
    Some(0x17),
    Some(0x14),
    Some(0x11),
    Some(0x1A),
    Some(0x1B),
    Some(0x20),
    Some(0x23),
    Some(0x26),
    Some(0x27),
    Some(0x28),
    Some(0x2A),
    Some(0x2C),
    Some(0x2B),
];

/// The columns of a table by its number, the numbers without a table included: they have none.
#[tactic(auto, unfolding(byte_view::specs::Columns::columns))]
pub fn columns(table: u8) -> &'static [Column]
    ensures { map view_column result.now ≡ columns_of table }
{
    match table {
        0x00 => &[Number(Two), String, Guid, Guid, Guid], // Module
        0x01 => &[Coded(ResolutionScope), String, String], // TypeRef
        0x02 => &[
            Number(Four),
            String,
            String,
            Coded(TypeDefOrRef),
            Run(0x04),
            Run(0x06),
        ], // TypeDef
        0x03 => &[],
        0x04 => &[Number(Two), String, Blob], // Field
        0x05 => &[],
        0x06 => &[
            Number(Four),
            Number(Two),
            Number(Two),
            String,
            Blob,
            Run(0x08),
        ], // MethodDef
        0x07 => &[],
        0x08 => &[Number(Two), Number(Two), String], // Param
        0x09 => &[Row(0x02), Coded(TypeDefOrRef)], // InterfaceImpl
        0x0A => &[Coded(MemberRefParent), String, Blob], // MemberRef
        0x0B => &[Number(One), Number(One), Coded(HasConstant), Blob], // Constant
        0x0C => &[Coded(HasCustomAttribute), Coded(CustomAttributeType), Blob], // CustomAttribute
        0x0D => &[Coded(HasFieldMarshal), Blob], // FieldMarshal
        0x0E => &[Number(Two), Coded(HasDeclSecurity), Blob], // DeclSecurity
        0x0F => &[Number(Two), Number(Four), Row(0x02)], // ClassLayout
        0x10 => &[Number(Four), Row(0x04)], // FieldLayout
        0x11 => &[Blob], // StandAloneSig
        0x12 => &[Row(0x02), Row(0x14)], // EventMap
        0x13 => &[],
        0x14 => &[Number(Two), String, Coded(TypeDefOrRef)], // Event
        0x15 => &[Row(0x02), Row(0x17)], // PropertyMap
        0x16 => &[],
        0x17 => &[Number(Two), String, Blob], // Property
        0x18 => &[Number(Two), Row(0x06), Coded(HasSemantics)], // MethodSemantics
        0x19 => &[Row(0x02), Coded(MethodDefOrRef), Coded(MethodDefOrRef)], // MethodImpl
        0x1A => &[String], // ModuleRef
        0x1B => &[Blob], // TypeSpec
        0x1C => &[Number(Two), Coded(MemberForwarded), String, Row(0x1A)], // ImplMap
        0x1D => &[Number(Four), Row(0x04)], // FieldRVA
        0x1E => &[],
        0x1F => &[],
        0x20 => &[
            Number(Four),
            Number(Two),
            Number(Two),
            Number(Two),
            Number(Two),
            Number(Four),
            Blob,
            String,
            String,
        ], // Assembly
        0x21 => &[Number(Four)], // AssemblyProcessor
        0x22 => &[Number(Four), Number(Four), Number(Four)], // AssemblyOS
        0x23 => &[
            Number(Two),
            Number(Two),
            Number(Two),
            Number(Two),
            Number(Four),
            Blob,
            String,
            String,
            Blob,
        ], // AssemblyRef
        0x24 => &[Number(Four), Row(0x23)], // AssemblyRefProcessor
        0x25 => &[Number(Four), Number(Four), Number(Four), Row(0x23)], // AssemblyRefOS
        0x26 => &[Number(Four), String, Blob], // File
        0x27 => &[
            Number(Four),
            Number(Four),
            String,
            String,
            Coded(Implementation),
        ], // ExportedType
        0x28 => &[Number(Four), Number(Four), String, Coded(Implementation)], // ManifestResource
        0x29 => &[Row(0x02), Row(0x02)], // NestedClass
        0x2A => &[Number(Two), Number(Two), Coded(TypeOrMethodDef), String], // GenericParam
        0x2B => &[Coded(MethodDefOrRef), Blob], // MethodSpec
        0x2C => &[Row(0x2A), Coded(TypeDefOrRef)], // GenericParamConstraint
        0x2D..=u8::MAX => &[],
    }
}

/// The row count of a table; a number that is no table has no rows.
pub fn rows_at(rows: &[u32], table: u8) -> u32
    ensures { result ≡ slice_index rows.now table }
{
    let table = table as usize;
    if table < rows.len() { rows[table] } else { 0 }
}

/// The row count of a tag's table; a tag without a table has no rows.
fn rows_by_tag(rows: &[u32], tag: Option<u8>) -> u32
    ensures { result ≡ rows_of_tag rows.now tag }
{
    match tag {
        Some(table) => rows_at(rows, table),
        None => 0,
    }
}

fn all_below(rows: &[u32], tables: &[Option<u8>], limit: u32) -> bool
    ensures { result ≡ list_all (λ tag. nat_lt (rows_of_tag rows.now tag) limit) tables.now }
{
    tables.iter().all(|tag| rows_by_tag(rows, *tag) < limit)
}

/// A heap's index has four bytes where its bit of HeapSizes is set.
fn heap_width(heap_sizes: u8, bit: u8) -> Width
    ensures { bytes_of result ≡ heap_width_of heap_sizes bit }
{
    if heap_sizes & bit == 0 { Two } else { Four }
}

/// An index has two bytes where it reaches each row.
fn row_width(is_small: bool) -> Width
    ensures { bytes_of result ≡ (if is_small then 2 else 4) }
{
    if is_small { Two } else { Four }
}

/// The width of a column, by HeapSizes and the row count of each table.
#[tactic(auto, unfolding(byte_view::specs::Columns::width))]
pub fn width_of(heap_sizes: u8, rows: &[u32], column: Column) -> Width
    ensures { bytes_of result ≡ column_width heap_sizes rows.now (view_column column) }
{
    match column {
        Number(width) => width,
        String => heap_width(heap_sizes, 1),
        Guid => heap_width(heap_sizes, 2),
        Blob => heap_width(heap_sizes, 4),
        Row(table) | Run(table) => row_width(rows_at(rows, table) < 65536),
        Coded(index) => {
            let tags = index.tags();
            row_width(all_below(rows, tags.tables, 1 << (16 - tags.bits)))
        }
    }
}
