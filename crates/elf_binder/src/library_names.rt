//! Libraries by the names of modules.

ghost use Rattle.std.specs.Prelude.{◌≡◌, ◌<◌, ◌≤◌, ◌++◌, length, bytes_eq, IfSome};
ghost use Rattle.std.specs.List.{list_any};
ghost use Rattle.elf_binder.specs.Modules.{named, first_spelled as first_of_spellings, spellings, built_in_names};

use crate::module::Module;
use crate::texts::is_among;

/// The names of the built-in library of the host functions.
const BUILT_IN_NAMES: [&str; 4] = ["c", "libc", "libc.so", "libc.so.6"];

/// The number of the first library of the first spelling that one has.
pub fn first_spelled(modules: &[Module], name: &[u8]) -> Option<u32>
    requires { length modules.now ≤ 16 }
    ensures { result ≡ first_of_spellings modules.now (spellings name.now) }
{
    library_of(modules, b"", name, b"")
        .or_else(|| library_of(modules, b"", name, b".so"))
        .or_else(|| library_of(modules, b"lib", name, b".so"))
        .or_else(|| library_of(modules, b"lib", name, b""))
}

/// The name is one of the built-in library.
pub fn is_built_in(name: &[u8]) -> bool
    ensures { result ≡ list_any (λ built_in. bytes_eq built_in name.now) built_in_names }
{
    is_among(&BUILT_IN_NAMES, name)
}

/// The number of the first library of a name that is given in three pieces.
fn library_of(modules: &[Module], front: &[u8], name: &[u8], back: &[u8]) -> Option<u32>
    requires { length modules.now ≤ 16 }
    ensures { result ≡ named modules.now (front.now ++ name.now ++ back.now) }
{
    let number = place_of(modules, front, name, back)?;
    Some(number as u32)
}

/// The same as a place among the libraries.
#[tactic(auto, unfolding(crate::specs::Modules::named))]
fn place_of(modules: &[Module], front: &[u8], name: &[u8], back: &[u8]) -> Option<usize>
    ensures number { result ≡ named modules.now (front.now ++ name.now ++ back.now) }
    ensures within { IfSome result (λ number. number < length modules.now) }
{
    modules
        .iter()
        .position(|module| is_spelled(module.name(), front, name, back))
}

/// A text is three pieces, one after another.
fn is_spelled(text: &[u8], front: &[u8], name: &[u8], back: &[u8]) -> bool
    ensures { result ≡ bytes_eq text.now (front.now ++ name.now ++ back.now) }
{
    let Some(rest) = text.strip_prefix(front) else {
        return false;
    };
    let Some(middle) = rest.strip_suffix(back) else {
        return false;
    };
    middle == name
}
