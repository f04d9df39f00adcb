//! The method that a run begins with (ECMA-335 II.15.4.1.2).

ghost use Rattle.std.specs.Prelude.{◌≡◌, ◌+◌, ◌^◌, ◌≤◌};
ghost use Rattle.std.specs.Option.{option_copied};
ghost use Rattle.bound_base.specs.Image.{refusal};
ghost use Rattle.byte_view.specs.Reading.{Reads, WantsMemory};
ghost use Rattle.type_model.specs.EntryPoint as definition;

use crate::core_types::{INT32, STRING, VOID, core_id};
use crate::model::Types;
use crate::table_numbers::{METHOD_DEFS, ROW_LIMIT};
use crate::type_ids::same_type;
use bound_base::{BadImage, Part};
use managed_value::TypeId;
use sig_reader::{Sig, TypeSig};

impl Types {
    /// The row of the method that a run begins with: a static method with a body, that takes nothing or an array of strings and
    /// gives nothing or an int. A file with another is refused at its token in the CLI header, which only a run asks.
    #[tactic(auto, unfolding(crate::specs::EntryPoint::entry))]
    pub fn entry(&self) -> Result<u32, BadImage>
        ensures reads { Reads refusal (λ n. n) result (definition.entry self.now) }
        ensures memory { WantsMemory refusal result → 2 ^ 64 ≤ self.now.headers.cli_at + 20 }
    {
        let token = self.image().entry_token();
        let n = token % ROW_LIMIT;
        let is_method = token / ROW_LIMIT == u32::from(METHOD_DEFS)
            && self.image().is_row(METHOD_DEFS, n);
        if is_method && self.is_entry(n) {
            return Ok(n);
        }
        // No file is so long that this place isn't there.
        match self.image().cli_header().checked_add(ENTRY_TOKEN) {
            Some(at) => Err(BadImage::Bad {
                part: Part::EntryPoint,
                at,
            }),
            None => Err(BadImage::Memory),
        }
    }

    /// Whether a run may begin with a method.
    #[tactic(auto, unfolding(crate::specs::EntryPoint::is_entry))]
    fn is_entry(&self, n: u32) -> bool
        ensures { result ≡ definition.is_entry self.now n }
    {
        let flags = self.image().cell(METHOD_DEFS, u64::from(n), 2);
        let sig_fits = self.is_entry_sig(self.method_sig(n));
        flags & 0x10 != 0 && self.code_at(n).is_some() && sig_fits
    }

    fn is_entry_sig(&self, sig: Option<&Sig>) -> bool
        ensures { result ≡ definition.is_entry_sig self.now (option_copied sig.entry) }
    {
        match sig {
            Some(sig) => self.gives_status(&sig.result) && self.takes_words(sig.params.as_slice()),
            None => false,
        }
    }

    /// Whether a result is nothing or an int.
    fn gives_status(&self, given: &TypeSig) -> bool
        ensures { result ≡ definition.gives_status self.now given.now }
    {
        let id = self.type_of(given);
        is_type(id, core_id(VOID)) || is_type(id, core_id(INT32))
    }

    /// Whether there is no parameter, or the one array of strings that the program's words are passed in.
    fn takes_words(&self, params: &[TypeSig]) -> bool
        ensures { result ≡ definition.takes_words self.now params.now }
    {
        match params {
            [] => true,
            [one] => is_type(
                self.type_of(one),
                TypeId {
                    base: core_id(STRING).base,
                    arrays: 1,
                },
            ),
            _ => false,
        }
    }
}

/// Where the entry point's token stands in the CLI header (II.25.3.3).
const ENTRY_TOKEN: u64 = 20;

/// Whether a type is named, and is just this one.
fn is_type(named: Option<TypeId>, id: TypeId) -> bool
    ensures { result ≡ definition.is_type named id }
{
    match named {
        Some(named) => same_type(named, id),
        None => false,
    }
}
