//! The initializers of libraries (System V gABI, 'Initialization and Termination Functions').

ghost use Rattle.std.specs.Prelude.{◌≡◌, [], ◌∷◌, ◌++◌, filter, OnOk};
ghost use Rattle.byte_view.specs.Reading.{Reads};
ghost use Rattle.elf_binder.specs.Binding.{doublewords, is_initializer, first_initializer, and_initializers};
ghost use Rattle.elf_binder.specs.Refusals.{refusal};
ghost use Rattle.elf_binder.specs.Sources.{source_of, IsRead};

use crate::refusal::BindBad;
use crate::source::{Source, broken};
use bound_base::Items;
use byteorder::{ByteOrder, LittleEndian};
use elf_reader::ElfPart;
use native_memory::Memory;
use std::alloc::AllocError;

/// Adds the addresses of a library's initializers, which stands at a base, to those of the libraries before it: that of
/// `DT_INIT`, then those of its array, which has to be readable.
pub fn add_initializers(
    source: &Source<'_>,
    base: u64,
    memory: &Memory,
    inits: &mut Items<u64>,
) -> Result<(), BindBad>
    requires { IsRead (source_of source.now) }
    ensures { Reads refusal (λ _. inits.new) result
        (and_initializers memory.now.space inits.old (source_of source.now, base)) }
{
    let (addr, size) = source.elf.init_array;
    let Some(array) = memory.contents(base.wrapping_add(addr), size) else {
        return Err(broken(source, ElfPart::Init, source.elf.init_array_at + 8));
    };
    add_first(base, source.elf.init, inits)?;
    add_array(array, inits)?;
    Ok(())
}

/// Adds the address of the first initializer, unless it is 0.
fn add_first(base: u64, init: u64, inits: &mut Items<u64>) -> Result<(), AllocError>
    ensures { OnOk result (inits.new ≡ inits.old ++ first_initializer base init) }
{
    if init != 0 {
        inits.push(base.wrapping_add(init))?;
    }
    Ok(())
}

/// Adds the addresses in an array, but for 0 and -1.
fn add_array(array: &[u8], inits: &mut Items<u64>) -> Result<(), AllocError>
    ensures { OnOk result (inits.new ≡ inits.old ++ filter is_initializer (doublewords array.now)) }
{
    for k in 0..array.len() / 8 {
        add_entry(LittleEndian::read_u64(&array[8 * k..]), inits)?;
    }
    Ok(())
}

/// Adds an address, but for 0 and -1.
fn add_entry(address: u64, inits: &mut Items<u64>) -> Result<(), AllocError>
    ensures { OnOk result (inits.new ≡ inits.old ++ filter is_initializer (address ∷ [])) }
{
    if address != 0 && address != u64::MAX {
        inits.push(address)?;
    }
    Ok(())
}
