//! The scope in which names are looked for: all libraries in order, then the host functions.

ghost use Rattle.std.specs.Prelude.{◌≡◌};
ghost use Rattle.elf_binder.specs.Modules.{address_of as address_in_scope};

use crate::module::Module;
use host_functions::place_named;

/// The address of a name: the first library that defines it counts, and after the libraries come the host functions.
pub fn address_of(modules: &[Module], name: &[u8]) -> Option<u64>
    ensures { result ≡ address_in_scope modules.now name.now }
{
    for module in modules {
        if let Some(address) = module.defined(name) {
            return Some(address);
        }
    }
    place_named(name)
}
