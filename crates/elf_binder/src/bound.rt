//! Libraries that are bound.

ghost use Rattle.std.specs.Prelude.{◌≡◌, ◌≤◌, length};
ghost use Rattle.elf_binder.specs.Modules.{library_named, symbol_in};

use crate::library_names::{first_spelled, is_built_in};
use crate::module::Module;
use bound_base::Items;
use host_functions::place_named;
use std::marker::Model;

/// Libraries in memory, at most 16, and their initializers.
#[derive(Debug, Drop)]
pub struct Bound {
    modules: Items<Module>,
    inits: Items<u64>,
}

impl Model for Bound {
    ghost use Rattle.std.specs.Prelude.{◌≤◌, length};
    ghost use Rattle.elf_binder.specs.Binding.{Bindings};

    ghost Value = { Bindings };

    ghost view = { λ b. record { modules = b.modules; inits = b.inits } };

    ghost invariant = { λ b. length b.modules ≤ 16 };
}

impl Bound {
    /// Libraries in memory, and the addresses of their initializers, in the order of their calls.
    pub(crate) fn new(modules: Items<Module>, inits: Items<u64>) -> Bound
        requires { length modules ≤ 16 }
        ensures { result ≡ record { modules = modules; inits = inits } }
    {
        Bound { modules, inits }
    }

    /// The number of a library by a module's name, which is looked for as it is, with `.so` after it, with `lib` before and `.so`
    /// after it, and with `lib` before. Where no library is found, `c`, `libc`, `libc.so` and `libc.so.6` name the built-in library
    /// of the host functions, whose number is the count of libraries.
    #[tactic(auto, unfolding(crate::specs::Modules::library_named))]
    pub fn library(&self, name: &[u8]) -> Option<u32>
        ensures { result ≡ library_named self.now.modules name.now }
    {
        let count = self.modules.len() as u32;
        first_spelled(self.modules.as_slice(), name).or_else(|| is_built_in(name).then_some(count))
    }

    /// The address of a name that may be called, in a library by its number: a function or a symbol without a type.
    #[tactic(auto, unfolding(crate::specs::Modules::symbol_in))]
    pub fn symbol(&self, library: u32, name: &[u8]) -> Option<u64>
        ensures { result ≡ symbol_in self.now.modules library name.now }
    {
        if library as usize == self.modules.len() {
            return place_named(name);
        }
        self.modules.get(library as usize)?.callable(name)
    }

    /// The addresses of the initializers, in the order of their calls.
    pub fn inits(&self) -> &[u64]
        ensures { result.now ≡ self.now.inits }
    {
        self.inits.as_slice()
    }
}
