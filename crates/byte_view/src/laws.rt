//! What holds of each file that is read, in the words of the format: a proof for all files, in a
//! function that does nothing.

ghost use Rattle.byte_view.specs.Laws.{TablesOfStreamLieApart, TablesLieInMetadata, CheckedCellsAreSound, CheckedCellsNameWhatIsThere, ImportsAreSound, TypesHaveRuns, HeadersAndMetadataDecide, RestIsNotRead};

/// The tables of a stream lie after its header and before its end, one after another, and no two
/// share a byte.
pub fn tables_of_stream_lie_apart()
    ensures { TablesOfStreamLieApart }
{}

/// Each table of an accepted file lies inside the metadata, which lies inside the file.
pub fn tables_lie_in_metadata()
    ensures { TablesLieInMetadata }
{}

/// Each cell of a checked table of an accepted file passes the test of its column.
pub fn checked_cells_are_sound()
    ensures { CheckedCellsAreSound }
{}

/// Each index of a checked table is 0 or names a row that is there, of a table that its column
/// allows; each heap offset is 0 or lies in its heap; each run begins at a row or after the last,
/// and runs never fall.
pub fn checked_cells_name_what_is_there()
    ensures { CheckedCellsNameWhatIsThere }
{}

/// Each import of an accepted file has a scope that is 0 or a row of ModuleRef, a name that is 0 or
/// an offset in `#Strings`, and a member that is 0 or a row of Field or MethodDef.
pub fn imports_are_sound()
    ensures { ImportsAreSound }
{}

/// Each type of an accepted file has a run of fields and a run of methods.
pub fn types_have_runs()
    ensures { TypesHaveRuns }
{}

/// Two files whose headers tell the same, and whose metadata has the same bytes, are read as one
/// assembly, or refused at one place.
pub fn headers_and_metadata_decide()
    ensures { HeadersAndMetadataDecide }
{}

/// Two files of one length with the same bytes in PE headers, section headers, CLI header and
/// metadata have one answer, whatever stands elsewhere.
pub fn rest_is_not_read()
    ensures { RestIsNotRead }
{}
