//! The marshalling table: which types cross, and how, by the place where they stand.

ghost use Rattle.std.specs.Prelude.{◌≡◌, ◌<◌};
ghost use Rattle.stub_maker.specs.Table.{cells as row_cells, cell_at as table_cell, column_place as place_in};

/// The rows: types that cross alike.
#[derive(Clone, Copy, Debug, PartialEq, Eq)]
pub enum Row {
    /// Integers, nint, nuint, and enums.
    Integers,
    Booleans,
    Characters,
    Pointers,
    /// Strings behind a pointer.
    Texts,
    /// Strings in place.
    InlineTexts,
    /// Value types with a sequential or explicit layout, all of whose fields are in the table.
    Structs,
    /// Arrays whose elements are the same bytes on both sides.
    FlatArrays,
    /// Arrays of other elements.
    OtherArrays,
    /// Arrays in place.
    InlineArrays,
    Delegates,
    /// SafeHandle and classes under it.
    Handles,
}

/// The columns: where a type stands.
#[derive(Clone, Copy, Debug, PartialEq, Eq)]
pub enum Column {
    /// A parameter of an import.
    ByValue,
    /// What a parameter of an import refers to.
    ByReference,
    /// The result of an import.
    Returned,
    /// A field of a value type.
    Field,
    /// An element of an array behind a pointer.
    Element,
    /// An element of an array in place.
    InlineElement,
    /// A parameter of a callback.
    CallbackValue,
    /// What a parameter of a callback refers to.
    CallbackReference,
    /// The result of a callback.
    CallbackReturned,
}

/// The cells: how a type crosses there.
#[derive(Clone, Copy, Debug, PartialEq, Eq)]
pub enum Cell {
    /// It doesn't.
    Outside,
    /// In one word.
    Word,
    /// As the address of a text.
    Text,
    /// By its bytes.
    Value,
    /// By its bytes, where no address stands among them.
    PlainValue,
    /// As the address of its bytes.
    Place,
    /// As the address of its bytes, where no address stands among them.
    PlainPlace,
    /// As the address of the array itself.
    Lend,
    /// As the address of a copy of the array.
    Copy,
    /// As an address from which a counted array is copied.
    CountedCopy,
    /// As the address of code.
    Thunk,
    /// As a handle's value.
    Hold,
    /// Among the bytes of what it is a part of.
    Part,
    /// The same, where it has the same bytes on both sides.
    FlatPart,
}

/// A row's cells, in the order of the columns.
fn cells(row: Row) -> [Cell; 9]
    ensures { result ≡ row_cells row }
{
    use Cell::*;
    match row {
        Row::Integers | Row::Booleans | Row::Characters => [
            Word, Place, Word, Part, Part, Part, Word, Place, Word,
        ],
        Row::Pointers => [Word, Place, Word, Part, Part, Part, Word, Outside, Word],
        Row::Texts => [
            Text, Place, Text, Part, Part, Outside, Text, Outside, Outside,
        ],
        Row::InlineTexts | Row::InlineArrays => [
            Outside, Outside, Outside, Part, Outside, Outside, Outside, Outside, Outside,
        ],
        Row::Structs => [
            Value, Place, PlainValue, Part, Part, FlatPart, Value, PlainPlace, PlainValue,
        ],
        Row::FlatArrays => [
            Lend,
            Outside,
            Outside,
            Outside,
            Outside,
            Outside,
            CountedCopy,
            Outside,
            Outside,
        ],
        Row::OtherArrays => [
            Copy, Outside, Outside, Outside, Outside, Outside, Outside, Outside, Outside,
        ],
        Row::Delegates => [
            Thunk, Outside, Outside, Part, Outside, Outside, Outside, Outside, Outside,
        ],
        Row::Handles => [
            Hold, Outside, Outside, Outside, Outside, Outside, Outside, Outside, Outside,
        ],
    }
}

fn place_of(column: Column) -> usize
    ensures { result ≡ place_in column }
{
    match column {
        Column::ByValue => 0,
        Column::ByReference => 1,
        Column::Returned => 2,
        Column::Field => 3,
        Column::Element => 4,
        Column::InlineElement => 5,
        Column::CallbackValue => 6,
        Column::CallbackReference => 7,
        Column::CallbackReturned => 8,
    }
}

/// How the types of a row cross in a column.
pub fn cell_at(row: Row, column: Column) -> Cell
    ensures { result ≡ table_cell row column }
{
    let cells = cells(row);
    match cells.get(place_of(column)) {
        Some(cell) => *cell,
        None => Cell::Outside,
    }
}
