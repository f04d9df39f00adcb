//! Reads descriptors.

ghost use Rattle.std.specs.Prelude.{◌≡◌, ◌≤◌, length, IfOk, IfErr};
ghost use Rattle.byte_view.specs.Reading.{Reads};
ghost use Rattle.marshal_spec.specs.NativeTypes.{is_plain as plain};
ghost use Rattle.marshal_spec.specs.Grammar.{Spells, IsRefusedAt};
ghost use Rattle.marshal_spec.specs.Reading.{spec_read, number_in, byte_at, text_rest, array_rest, numbers_rest, lp_array_rest, is_first, is_element, ended};
ghost use Rattle.marshal_spec.specs.Places.{place, refusal};

use crate::native_types::{BY_VAL_ARRAY, BY_VAL_TEXT, LP_ARRAY, NO_ELEMENT, is_plain};
use crate::spec::{Spec, SpecBad};
use byte_view::compressed;

/// Reads the descriptor that the bytes spell, none of them left (ECMA-335 II.23.4). It takes no
/// memory.
pub fn read_spec(b: &[u8]) -> Result<Spec, SpecBad>
    ensures value { IfOk result (λ spec. Spells b.now spec) }
    ensures refused { IfErr result (λ bad. IsRefusedAt b.now (place bad)) }
    ensures reads { Reads refusal (λ spec. spec) result (spec_read b.now) }
{
    spec_in(b)
}

#[tactic(auto, unfolding(crate::specs::Reading::spec_read))]
fn spec_in(b: &[u8]) -> Result<Spec, SpecBad>
    ensures { Reads refusal (λ spec. spec) result (spec_read b.now) }
{
    let (code, at) = first(b)?;
    match code {
        BY_VAL_TEXT => text(b, at),
        BY_VAL_ARRAY => array(b, at),
        LP_ARRAY => lp_array(b, at),
        _ => at_end(b, at, Spec::Plain(code)),
    }
}

/// The rest of a text that stands in place.
fn text(b: &[u8], at: usize) -> Result<Spec, SpecBad>
    ensures { Reads refusal (λ spec. spec) result (text_rest b.now at) }
{
    let (count, at) = number(b, at)?;
    at_end(b, at, Spec::ByValText(count))
}

/// The rest of an array that stands in place.
fn array(b: &[u8], at: usize) -> Result<Spec, SpecBad>
    ensures { Reads refusal (λ spec. spec) result (array_rest b.now at) }
{
    let (count, at) = number(b, at)?;
    if b.len() <= at {
        return Ok(Spec::ByValArray(count, None));
    }
    let (element, at) = plain_code(b, at)?;
    at_end(b, at, Spec::ByValArray(count, Some(element)))
}

/// The rest of an array behind a pointer.
fn lp_array(b: &[u8], at: usize) -> Result<Spec, SpecBad>
    ensures { Reads refusal (λ spec. spec) result (lp_array_rest b.now at) }
{
    if b.len() <= at {
        return Ok(Spec::LpArray(None, None, None, None));
    }
    let (code, at) = element(b, at)?;
    let element = if code == NO_ELEMENT { None } else { Some(code) };
    numbers(b, at, element)
}

/// The numbers of an array behind a pointer, as far as they go.
fn numbers(b: &[u8], at: usize, element: Option<u8>) -> Result<Spec, SpecBad>
    ensures { Reads refusal (λ spec. spec) result (numbers_rest element b.now at) }
{
    if b.len() <= at {
        return Ok(Spec::LpArray(element, None, None, None));
    }
    let (parameter, at) = number(b, at)?;
    if b.len() <= at {
        return Ok(Spec::LpArray(element, Some(parameter), None, None));
    }
    let (count, at) = number(b, at)?;
    if b.len() <= at {
        return Ok(Spec::LpArray(element, Some(parameter), Some(count), None));
    }
    let (flag, at) = number(b, at)?;
    at_end(
        b,
        at,
        Spec::LpArray(element, Some(parameter), Some(count), Some(flag)),
    )
}

/// The descriptor, which is refused where more bytes stand behind it.
fn at_end(b: &[u8], at: usize, spec: Spec) -> Result<Spec, SpecBad>
    ensures { Reads refusal (λ spec. spec) result (ended spec b.now at) }
{
    if b.len() <= at {
        Ok(spec)
    } else {
        Err(bad(at))
    }
}

/// The first byte.
fn first(b: &[u8]) -> Result<(u8, usize), SpecBad>
    ensures { Reads refusal (λ x. x) result (byte_at is_first b.now 0) }
{
    match b.first() {
        Some(&code) if is_first_code(code) => Ok((code, 1)),
        _ => Err(bad(0)),
    }
}

fn is_first_code(code: u8) -> bool
    ensures { result ≡ is_first code }
{
    matches!(code, BY_VAL_TEXT | BY_VAL_ARRAY | LP_ARRAY) || is_plain(code)
}

/// The code of a native type without parts, and the place after it.
fn plain_code(b: &[u8], at: usize) -> Result<(u8, usize), SpecBad>
    ensures { Reads refusal (λ x. x) result (byte_at plain b.now at) }
{
    match b.get(at) {
        Some(&code) if is_plain(code) => Ok((code, at + 1)),
        _ => Err(bad(at)),
    }
}

/// The code of the elements of an array behind a pointer, and the place after it.
fn element(b: &[u8], at: usize) -> Result<(u8, usize), SpecBad>
    ensures { Reads refusal (λ x. x) result (byte_at is_element b.now at) }
{
    match b.get(at) {
        Some(&code) if code == NO_ELEMENT || is_plain(code) => Ok((code, at + 1)),
        _ => Err(bad(at)),
    }
}

/// A compressed number, and the place after it.
fn number(b: &[u8], at: usize) -> Result<(u32, usize), SpecBad>
    ensures { Reads refusal (λ x. x) result (number_in b.now at) }
{
    if let Some((number, size)) = compressed(b, at) {
        return Ok((number, at + size));
    }
    match b.get(at) {
        Some(&byte) if byte < 0xE0 => Err(bad(b.len())),
        _ => Err(bad(at)),
    }
}

fn bad(at: usize) -> SpecBad
    ensures { place result ≡ at }
{
    SpecBad::BadSpec(at as u64)
}
