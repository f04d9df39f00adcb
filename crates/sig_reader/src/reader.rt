//! Whole blobs: signatures of fields, methods and locals, and the type of a TypeSpec (ECMA-335
//! II.23.2). Types may be nested 64 deep.

ghost use Rattle.std.specs.Prelude.{◌≡◌, IfOk, option_map, ◌-◌};
ghost use Rattle.byte_view.specs.Reading.{Reads};
ghost use Rattle.sig_reader.specs.Grammar.{pinned_type};
ghost use Rattle.sig_reader.specs.Reading.{many, by_ref_or, type_in, field_in, local_type_in, local_in, locals_in, field_read, method_read, locals_read, type_spec_read};
ghost use Rattle.sig_reader.specs.View.{left_at, refused_at};

use crate::bad::SigBad;
use crate::elements::{BY_REF, TYPED_BY_REF};
use crate::numbers::{Numbers, unsigned};
use crate::parts::{Stop, after, first};
use crate::prefixes::prefixes;
use crate::signature::{Sig, TypeSig, TypeSigs};
use crate::types::{method, read_type};
use bound_base::Items;
use sqlite_items::Boxed;
use std::alloc::{AllocError, Global};

/// How deep types may be nested; the outermost is the first level.
const NESTING: usize = 64;

/// The first bytes of the signatures of a field and of locals.
const FIELD: u8 = 0x06;

const LOCAL_SIG: u8 = 0x07;

/// The signature of a method, of MethodDef or MemberRef (II.23.2.1, II.23.2.2).
#[tactic(auto, unfolding(crate::specs::Reading::method_read))]
pub fn read_method_sig(alloc: Global, b: &[u8]) -> Result<Sig, SigBad>
    ensures { Reads refused_at (λ sig. sig) result (method_read b.now) }
{
    match method(alloc, NESTING, b) {
        Ok((sig, rest)) if rest.is_empty() => Ok(sig),
        Ok((_, rest)) => Err(SigBad::BadSig(b.len().saturating_sub(rest.len()))),
        Err(stop) => Err(refused(b.len(), stop)),
    }
}

/// The signature of a field (II.23.2.4).
#[tactic(auto, unfolding(crate::specs::Reading::field_read))]
pub fn read_field_sig(alloc: Global, b: &[u8]) -> Result<TypeSig, SigBad>
    ensures { Reads refused_at (λ t. t) result (field_read b.now) }
{
    match field(alloc, b) {
        Ok((t, rest)) if rest.is_empty() => Ok(t),
        Ok((_, rest)) => Err(SigBad::BadSig(b.len().saturating_sub(rest.len()))),
        Err(stop) => Err(refused(b.len(), stop)),
    }
}

/// The signature of a method's locals (II.23.2.6).
#[tactic(auto, unfolding(crate::specs::Reading::locals_read))]
pub fn read_locals(alloc: Global, b: &[u8]) -> Result<TypeSigs, SigBad>
    ensures { Reads refused_at (λ all. all) result (locals_read b.now) }
{
    match locals(alloc, b) {
        Ok((all, rest)) if rest.is_empty() => Ok(all),
        Ok((_, rest)) => Err(SigBad::BadSig(b.len().saturating_sub(rest.len()))),
        Err(stop) => Err(refused(b.len(), stop)),
    }
}

/// The one type of a TypeSpec's blob (II.23.2.14).
#[tactic(auto, unfolding(crate::specs::Reading::type_spec_read))]
pub fn read_type_spec(alloc: Global, b: &[u8]) -> Result<TypeSig, SigBad>
    ensures { Reads refused_at (λ t. t) result (type_spec_read b.now) }
{
    match read_type(alloc, NESTING, b) {
        Ok((t, rest)) if rest.is_empty() => Ok(t),
        Ok((_, rest)) => Err(SigBad::BadSig(b.len().saturating_sub(rest.len()))),
        Err(stop) => Err(refused(b.len(), stop)),
    }
}

/// The place of a blob of so many bytes at which reading stops.
fn refused(size: usize, stop: Stop) -> SigBad
    ensures { refused_at result ≡ option_map (λ left. size - left) (left_at stop) }
{
    match stop {
        Stop::Left(left) => SigBad::BadSig(size.saturating_sub(left)),
        Stop::Memory => SigBad::Memory,
    }
}

#[tactic(auto, unfolding(crate::specs::Reading::field_in))]
fn field(alloc: Global, b: &[u8]) -> Result<(TypeSig, &[u8]), Stop>
    ensures { Reads left_at (λ r. (r.0, r.1.now)) result (field_in b.now) }
{
    let (c, b) = first(b)?;
    if c != FIELD {
        return Err(Stop::Left(b.len() + 1));
    }
    let (_, b) = prefixes(false, b)?;
    read_type(alloc, NESTING, b)
}

/// A type that BYREF may precede.
fn by_ref(alloc: Global, b: &[u8]) -> Result<(TypeSig, &[u8]), Stop>
    ensures { Reads left_at (λ r. (r.0, r.1.now)) result (by_ref_or (type_in 64) b.now) }
{
    match after(b, BY_REF) {
        Some(rest) => {
            let (t, rest) = read_type(alloc, NESTING, rest)?;
            Ok((TypeSig::ByRef(Boxed::new(alloc, t)?), rest))
        }
        None => read_type(alloc, NESTING, b),
    }
}

/// A local of a type, which may be pinned.
fn pinned_local(alloc: Global, pinned: bool, t: TypeSig) -> Result<TypeSig, AllocError>
    ensures { IfOk result (λ local. local ≡ pinned_type pinned t) }
{
    if pinned {
        Ok(TypeSig::Pinned(Boxed::new(alloc, t)?))
    } else {
        Ok(t)
    }
}

/// A local after its custom modifiers and constraints.
#[tactic(auto, unfolding(crate::specs::Reading::local_type_in))]
fn local_type(alloc: Global, b: &[u8]) -> Result<(TypeSig, &[u8]), Stop>
    ensures { Reads left_at (λ r. (r.0, r.1.now)) result (local_type_in b.now) }
{
    let (pinned, b) = prefixes(true, b)?;
    let (t, b) = by_ref(alloc, b)?;
    let local = pinned_local(alloc, pinned, t)?;
    Ok((local, b))
}

#[tactic(auto, unfolding(crate::specs::Reading::local_in))]
fn local(alloc: Global, b: &[u8]) -> Result<(TypeSig, &[u8]), Stop>
    ensures { Reads left_at (λ r. (r.0, r.1.now)) result (local_in b.now) }
{
    match after(b, TYPED_BY_REF) {
        Some(rest) => Ok((TypeSig::Prim(TYPED_BY_REF), rest)),
        None => local_type(alloc, b),
    }
}

/// So many locals.
fn so_many_locals(alloc: Global, count: u32, b: &[u8]) -> Result<(TypeSigs, &[u8]), Stop>
    ensures { Reads left_at (λ r. (r.0, r.1.now)) result (many local_in count b.now) }
{
    let mut all = Items::new(alloc);
    let mut rest = b;
    for _ in 0..count {
        let (t, after) = local(alloc, rest)?;
        all.push(t)?;
        rest = after;
    }
    Ok((all, rest))
}

#[tactic(auto, unfolding(crate::specs::Reading::locals_in))]
fn locals(alloc: Global, b: &[u8]) -> Result<(TypeSigs, &[u8]), Stop>
    ensures { Reads left_at (λ r. (r.0, r.1.now)) result (locals_in b.now) }
{
    let (c, b) = first(b)?;
    if c != LOCAL_SIG {
        return Err(Stop::Left(b.len() + 1));
    }
    let (count, b) = unsigned(Numbers::Between(1, 0xFFFE), b)?;
    so_many_locals(alloc, count, b)
}
