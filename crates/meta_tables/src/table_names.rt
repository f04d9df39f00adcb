//! Tables by their numbers, and columns of their rows by their places from 0, under the names of
//! ECMA-335 II.22: those that are read one by one.

/// ModuleRef, of which each row names a library (II.22.31).
pub const MODULE_REF: u8 = 0x1A;

/// The column of ModuleRef with the library's name, an offset in `#Strings`.
pub const MODULE_REF_NAME: usize = 0;

/// ImplMap, of which each row is an import (II.22.22).
pub const IMPL_MAP: u8 = 0x1C;

/// The column of ImplMap with the import's name, an offset in `#Strings`.
pub const IMPL_MAP_IMPORT_NAME: usize = 2;

/// The column of ImplMap with the import's library, a row of ModuleRef.
pub const IMPL_MAP_IMPORT_SCOPE: usize = 3;
