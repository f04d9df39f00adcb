//! The locals of methods, by their signatures (ECMA-335 II.22.36, II.25.4.3).

ghost use Rattle.std.specs.Prelude.{◌≡◌, IfOk};
ghost use Rattle.sig_reader.specs.Reading.{locals_sig};
ghost use Rattle.type_model.specs.Members as definition;

use crate::model::Types;
use crate::table_numbers::{ROW_LIMIT, STAND_ALONE_SIGS};
use bound_base::NoMemory;
use sig_reader::{SigBad, TypeSigs, read_locals};
use std::alloc::Global;

impl Types {
    /// The types of a method's locals, by the token in its body's header: none for 0; None where the token names no row of
    /// StandAloneSig, or one whose blob is no such signature.
    #[tactic(auto, unfolding(crate::specs::Members::locals))]
    pub fn locals(&self, alloc: Global, token: u32) -> Result<Option<TypeSigs>, NoMemory>
        ensures { IfOk result (λ locals. locals ≡ definition.locals self.now token) }
    {
        if token == 0 {
            return Ok(Some(TypeSigs::new(alloc)));
        }
        let row = token % ROW_LIMIT;
        let is_sig = token / ROW_LIMIT == u32::from(STAND_ALONE_SIGS);
        if !is_sig || !self.image().is_row(STAND_ALONE_SIGS, row) {
            return Ok(None);
        }
        let at = self.image().cell(STAND_ALONE_SIGS, u64::from(row), 0);
        locals_in(alloc, self.image().blob(at))
    }
}

/// The locals in a blob, None outside the grammar.
fn locals_in(alloc: Global, blob: &[u8]) -> Result<Option<TypeSigs>, NoMemory>
    ensures { IfOk result (λ locals. locals ≡ locals_sig blob.now) }
{
    match read_locals(alloc, blob) {
        Ok(locals) => Ok(Some(locals)),
        Err(SigBad::BadSig(_)) => Ok(None),
        Err(SigBad::Memory) => Err(NoMemory),
    }
}
