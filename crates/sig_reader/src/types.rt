//! Types and methods in signatures (ECMA-335 II.23.2.1, II.23.2.10 to II.23.2.13). `levels` is how
//! deep types may be nested where one is read.

ghost use Rattle.std.specs.Prelude.{◌≡◌, suc, ◌==◌, if◌then◌else◌};
ghost use Rattle.byte_view.specs.Reading.{Reads};
ghost use Rattle.sig_reader.specs.Numbers.{any_number};
ghost use Rattle.sig_reader.specs.Reading.{many, unsigned_in, signed_in, shape_in, pointed_in, by_ref_or, typed_by_ref_or, after_sentinel, param_in, result_in, params_in, generic_count_in, method_in, instance_in, rest_in, type_in};
ghost use Rattle.sig_reader.specs.View.{left_at};

use crate::elements::{
    BY_REF, CLASS, Element, SENTINEL, TYPED_BY_REF, VALUE_TYPE, VOID, element_of, has_this,
    is_convention, is_generic, is_vararg,
};
use crate::numbers::{ANY, Numbers, signed, token, unsigned};
use crate::parts::{Stop, after, first};
use crate::prefixes::prefixes;
use crate::signature::{I32s, Sig, TypeSig, TypeSigs, U32s};
use bound_base::Items;
use sqlite_items::Boxed;
use std::alloc::Global;

/// So many numbers.
fn sizes(alloc: Global, count: u32, b: &[u8]) -> Result<(U32s, &[u8]), Stop>
    ensures { Reads left_at (λ r. (r.0, r.1.now)) result (many (unsigned_in any_number) count b.now) }
{
    let mut all = Items::new(alloc);
    let mut rest = b;
    for _ in 0..count {
        let (n, after) = unsigned(ANY, rest)?;
        all.push(n)?;
        rest = after;
    }
    Ok((all, rest))
}

/// So many signed numbers.
fn lows(alloc: Global, count: u32, b: &[u8]) -> Result<(I32s, &[u8]), Stop>
    ensures { Reads left_at (λ r. (r.0, r.1.now)) result (many signed_in count b.now) }
{
    let mut all = Items::new(alloc);
    let mut rest = b;
    for _ in 0..count {
        let (n, after) = signed(rest)?;
        all.push(n)?;
        rest = after;
    }
    Ok((all, rest))
}

/// The shape of an array of a type (II.23.2.13): a rank of 1 at least, and at most as many sizes and
/// lower bounds.
#[tactic(auto, unfolding(crate::specs::Reading::shape_in))]
fn shape(alloc: Global, element: TypeSig, b: &[u8]) -> Result<(TypeSig, &[u8]), Stop>
    ensures { Reads left_at (λ r. (r.0, r.1.now)) result (shape_in element b.now) }
{
    let (rank, b) = unsigned(Numbers::Between(1, 0x1FFF_FFFF), b)?;
    let (count, b) = unsigned(Numbers::Between(0, rank), b)?;
    let (sizes, b) = sizes(alloc, count, b)?;
    let (count, b) = unsigned(Numbers::Between(0, rank), b)?;
    let (lows, b) = lows(alloc, count, b)?;
    let element = Boxed::new(alloc, element)?;
    Ok((TypeSig::Array(element, rank, sizes, lows), b))
}

/// SENTINEL, where it may still stand: whether it may stand after that, and the bytes that follow.
fn sentinel(allowed: bool, b: &[u8]) -> (bool, &[u8])
    ensures { (result.0, result.1.now) ≡ after_sentinel allowed b.now }
{
    match b {
        [e, rest @ ..] if allowed && *e == SENTINEL => (false, rest),
        _ => (allowed, b),
    }
}

/// How many generic parameters there are.
fn generic_count(generic: bool, b: &[u8]) -> Result<(u32, &[u8]), Stop>
    ensures { Reads left_at (λ r. (r.0, r.1.now)) result (generic_count_in generic b.now) }
{
    if generic {
        unsigned(ANY, b)
    } else {
        Ok((0, b))
    }
}

/// A type (II.23.2.12).
#[cycle(types)]
pub fn read_type(alloc: Global, levels: usize, b: &[u8]) -> Result<(TypeSig, &[u8]), Stop>
    ensures { Reads left_at (λ r. (r.0, r.1.now)) result (type_in levels b.now) }
{
    if levels == 0 {
        return Err(Stop::Left(b.len()));
    }
    type_above(alloc, levels - 1, b)
}

/// A type that holds types nested at most `below` deep.
#[cycle(types)]
#[tactic(auto, unfolding(crate::specs::Reading::type_in))]
fn type_above(alloc: Global, below: usize, b: &[u8]) -> Result<(TypeSig, &[u8]), Stop>
    ensures { Reads left_at (λ r. (r.0, r.1.now)) result (type_in (suc below) b.now) }
{
    let (e, rest) = first(b)?;
    let kind = element_of(e);
    if !kind.fits(below) {
        return Err(Stop::Left(rest.len() + 1));
    }
    after_element(alloc, below, e, kind, rest)
}

/// What follows an element type.
#[cycle(types)]
fn after_element(
    alloc: Global,
    levels: usize,
    e: u8,
    kind: Element,
    b: &[u8],
) -> Result<(TypeSig, &[u8]), Stop>
    ensures { Reads left_at (λ r. (r.0, r.1.now)) result (rest_in levels (type_in levels) e kind b.now) }
{
    match kind {
        Element::Plain => Ok((TypeSig::Prim(e), b)),
        Element::Pointer => {
            let (t, b) = pointed(alloc, levels, b)?;
            Ok((TypeSig::Ptr(Boxed::new(alloc, t)?), b))
        }
        Element::ValueType => {
            let (token, b) = token(b)?;
            Ok((TypeSig::Named(true, token), b))
        }
        Element::Class => {
            let (token, b) = token(b)?;
            Ok((TypeSig::Named(false, token), b))
        }
        Element::TypeVariable => {
            let (n, b) = unsigned(ANY, b)?;
            Ok((TypeSig::Var(n), b))
        }
        Element::MethodVariable => {
            let (n, b) = unsigned(ANY, b)?;
            Ok((TypeSig::MVar(n), b))
        }
        Element::Array => {
            let (t, b) = read_type(alloc, levels, b)?;
            shape(alloc, t, b)
        }
        Element::Generic => instance(alloc, levels, b),
        Element::Function => {
            let (sig, b) = method(alloc, levels, b)?;
            Ok((TypeSig::FnPtr(Boxed::new(alloc, sig)?), b))
        }
        Element::Vector => {
            let (_, b) = prefixes(false, b)?;
            let (t, b) = read_type(alloc, levels, b)?;
            Ok((TypeSig::Vector(Boxed::new(alloc, t)?), b))
        }
        Element::Other => Err(Stop::Left(b.len())),
    }
}

/// What a pointer points to: VOID or a type, after custom modifiers.
#[cycle(types)]
#[tactic(auto, unfolding(crate::specs::Reading::pointed_in))]
fn pointed(alloc: Global, levels: usize, b: &[u8]) -> Result<(TypeSig, &[u8]), Stop>
    ensures { Reads left_at (λ r. (r.0, r.1.now)) result (pointed_in (type_in levels) b.now) }
{
    let (_, b) = prefixes(false, b)?;
    match after(b, VOID) {
        Some(rest) => Ok((TypeSig::Prim(VOID), rest)),
        None => read_type(alloc, levels, b),
    }
}

/// So many types.
#[cycle(types)]
fn arguments(alloc: Global, levels: usize, count: u32, b: &[u8]) -> Result<(TypeSigs, &[u8]), Stop>
    ensures { Reads left_at (λ r. (r.0, r.1.now)) result (many (type_in levels) count b.now) }
{
    let mut all = Items::new(alloc);
    let mut rest = b;
    for _ in 0..count {
        let (t, after) = read_type(alloc, levels, rest)?;
        all.push(t)?;
        rest = after;
    }
    Ok((all, rest))
}

/// A generic type after GENERICINST: CLASS or VALUETYPE, a token, and arguments.
#[cycle(types)]
#[tactic(auto, unfolding(crate::specs::Reading::instance_in))]
fn instance(alloc: Global, levels: usize, b: &[u8]) -> Result<(TypeSig, &[u8]), Stop>
    ensures { Reads left_at (λ r. (r.0, r.1.now)) result (instance_in levels (type_in levels) b.now) }
{
    let (e, b) = first(b)?;
    if e != VALUE_TYPE && e != CLASS {
        return Err(Stop::Left(b.len() + 1));
    }
    let (token, b) = token(b)?;
    let most = if levels == 0 { 0 } else { 0x1FFF_FFFF };
    let (count, b) = unsigned(Numbers::Between(0, most), b)?;
    let (arguments, b) = arguments(alloc, levels, count, b)?;
    let generic = Boxed::new(alloc, TypeSig::Named(e == VALUE_TYPE, token))?;
    Ok((TypeSig::Inst(generic, arguments), b))
}

/// TYPEDBYREF, or a type that BYREF may precede.
#[cycle(types)]
fn by_ref(alloc: Global, levels: usize, b: &[u8]) -> Result<(TypeSig, &[u8]), Stop>
    ensures { Reads left_at (λ r. (r.0, r.1.now)) result (typed_by_ref_or (by_ref_or (type_in levels)) b.now) }
{
    if let Some(rest) = after(b, TYPED_BY_REF) {
        return Ok((TypeSig::Prim(TYPED_BY_REF), rest));
    }
    match after(b, BY_REF) {
        Some(rest) => {
            let (t, rest) = read_type(alloc, levels, rest)?;
            Ok((TypeSig::ByRef(Boxed::new(alloc, t)?), rest))
        }
        None => read_type(alloc, levels, b),
    }
}

/// A parameter (II.23.2.10).
#[cycle(types)]
#[tactic(auto, unfolding(crate::specs::Reading::param_in))]
fn param(alloc: Global, levels: usize, b: &[u8]) -> Result<(TypeSig, &[u8]), Stop>
    ensures { Reads left_at (λ r. (r.0, r.1.now)) result (param_in (type_in levels) b.now) }
{
    let (_, b) = prefixes(false, b)?;
    by_ref(alloc, levels, b)
}

/// A result (II.23.2.11).
#[cycle(types)]
#[tactic(auto, unfolding(crate::specs::Reading::result_in))]
fn result_type(alloc: Global, levels: usize, b: &[u8]) -> Result<(TypeSig, &[u8]), Stop>
    ensures { Reads left_at (λ r. (r.0, r.1.now)) result (result_in (type_in levels) b.now) }
{
    let (_, b) = prefixes(false, b)?;
    match after(b, VOID) {
        Some(rest) => Ok((TypeSig::Prim(VOID), rest)),
        None => by_ref(alloc, levels, b),
    }
}

/// So many parameters, with SENTINEL before one of them where a signature may have it.
#[cycle(types)]
fn params(
    alloc: Global,
    levels: usize,
    vararg: bool,
    count: u32,
    b: &[u8],
) -> Result<(TypeSigs, &[u8]), Stop>
    ensures { Reads left_at (λ r. (r.0, r.1.now)) result (params_in (type_in levels) vararg count b.now) }
{
    let mut all = Items::new(alloc);
    let mut allowed = vararg;
    let mut rest = b;
    for _ in 0..count {
        let (after, param_at) = sentinel(allowed, rest);
        let (t, next) = param(alloc, levels, param_at)?;
        all.push(t)?;
        allowed = after;
        rest = next;
    }
    Ok((all, rest))
}

/// A method's signature (II.23.2.1, II.23.2.2).
#[cycle(types)]
#[tactic(auto, unfolding(crate::specs::Reading::method_in))]
pub fn method(alloc: Global, levels: usize, b: &[u8]) -> Result<(Sig, &[u8]), Stop>
    ensures { Reads left_at (λ r. (r.0, r.1.now)) result (method_in (type_in levels) b.now) }
{
    let (c, b) = first(b)?;
    if !is_convention(c) {
        return Err(Stop::Left(b.len() + 1));
    }
    let (generic, b) = generic_count(is_generic(c), b)?;
    let (count, b) = unsigned(ANY, b)?;
    let (result_type, b) = result_type(alloc, levels, b)?;
    let (params, b) = params(alloc, levels, is_vararg(c), count, b)?;
    let sig = Sig {
        has_this: has_this(c),
        vararg: is_vararg(c),
        generic,
        result: result_type,
        params,
    };
    Ok((sig, b))
}
