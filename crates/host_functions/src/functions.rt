//! The host functions by their numbers, names and places.

ghost use Rattle.std.specs.Prelude.{◌≡◌, ◌<◌, length, slice_get, IfSome, Some, position, bytes_eq, option_map};
ghost use Rattle.host_functions.specs.HostFunctions.{host_functions, host_names, host_place as place_of_number, number_named as number_of_name, place_named as place_of_name, number_at as number_of_place};

/// A function of the C library that native code may call (ISO/IEC 9899).
#[derive(Clone, Copy, Debug, PartialEq, Eq)]
pub enum HostFunction {
    /// A new block (7.22.3.4).
    Malloc,
    /// A new block for an array (7.22.3.2).
    Calloc,
    /// A block of another size (7.22.3.5).
    Realloc,
    /// Ends a block (7.22.3.3).
    Free,
    /// Copies bytes (7.24.2.1).
    Memcpy,
    /// Copies bytes, also over themselves (7.24.2.2).
    Memmove,
    /// Fills with a byte (7.24.6.1).
    Memset,
    /// Compares bytes (7.24.4.1).
    Memcmp,
    /// The length of a text (7.24.6.3).
    Strlen,
    /// Compares texts (7.24.4.2).
    Strcmp,
    /// Copies a text (7.24.2.3).
    Strcpy,
    /// The address of `errno` (7.5), under the name that the GNU C library gives it.
    ErrnoLocation,
    /// Ends the program, which is a fault here (7.22.4.1).
    Abort,
}

/// How many host functions there are.
const COUNT: usize = 13;

/// The functions in order of their numbers, with their names in C.
const TABLE: [(HostFunction, &str); COUNT] = [
    (HostFunction::Malloc, "malloc"),
    (HostFunction::Calloc, "calloc"),
    (HostFunction::Realloc, "realloc"),
    (HostFunction::Free, "free"),
    (HostFunction::Memcpy, "memcpy"),
    (HostFunction::Memmove, "memmove"),
    (HostFunction::Memset, "memset"),
    (HostFunction::Memcmp, "memcmp"),
    (HostFunction::Strlen, "strlen"),
    (HostFunction::Strcmp, "strcmp"),
    (HostFunction::Strcpy, "strcpy"),
    (HostFunction::ErrnoLocation, "__errno_location"),
    (HostFunction::Abort, "abort"),
];

/// Where the first host function stands. The others follow, 16 bytes apart.
const FIRST_PLACE: u64 = 0x200;

/// The host function of a number, which counts from 0; None past the last.
pub fn host_function(number: u8) -> Option<HostFunction>
    ensures { result ≡ slice_get host_functions number }
{
    TABLE.get(number as usize).map(|row| row.0)
}

/// The number of a host function.
pub fn function_number(function: HostFunction) -> u8
    ensures { slice_get host_functions result ≡ Some function }
{
    function as u8
}

/// The name in C of the host function of a number, None past the last.
pub fn host_name(number: u8) -> Option<&'static str>
    ensures { option_map (λ name. name.now) result ≡ slice_get host_names number }
{
    TABLE.get(number as usize).map(|row| row.1)
}

/// The number of the host function with a name in C, None where none has it.
pub fn number_named(name: &[u8]) -> Option<u8>
    ensures number { result ≡ number_of_name name.now }
    ensures within { IfSome result (λ number. number < length host_functions) }
{
    match place_among(&TABLE, name) {
        Some(number) => Some(number as u8),
        None => None,
    }
}

/// The place of the first row with a name.
fn place_among(rows: &[(HostFunction, &str)], name: &[u8]) -> Option<usize>
    ensures place { result ≡ position (λ row. bytes_eq row.1.now name.now) rows.now }
    ensures within { IfSome result (λ place. place < length rows.now) }
{
    rows.iter().position(|row| row.1.as_bytes() == name)
}

/// The place of the host function of a number, in bytes: an address below all memory.
pub fn host_place(number: u8) -> u64
    ensures { result ≡ place_of_number number }
{
    FIRST_PLACE + 16 * number as u64
}

/// The place of the host function with a name in C, None where none has it.
pub fn place_named(name: &[u8]) -> Option<u64>
    ensures { result ≡ place_of_name name.now }
{
    let number = number_named(name)?;
    Some(host_place(number))
}

/// The number of the host function that stands at a place, None where none does.
pub fn number_at(place: u64) -> Option<u8>
    ensures { result ≡ number_of_place place }
{
    let number = place.checked_sub(FIRST_PLACE)? / 16;
    if number < COUNT as u64 && place == FIRST_PLACE + 16 * number {
        Some(number as u8)
    } else {
        None
    }
}
