//! Writes descriptors.

ghost use Rattle.std.specs.Prelude.{◌≡◌, ◌++◌, ◌^◌, ◌<◌, ◌↔◌, IsTrue, IfOk, OnOk};
ghost use Rattle.marshal_spec.specs.Written.{IsSpec, IsSmall, IsPlainIfThere, Follows, written, written_number, written_code, shortest, code_or_none};

use crate::native_types::{BY_VAL_ARRAY, BY_VAL_TEXT, LP_ARRAY, NO_ELEMENT, is_plain};
use crate::spec::Spec;
use bound_base::{Bytes, NoMemory};
use std::alloc::Global;

/// The bytes that spell a descriptor, its numbers in as few bytes as hold them, and an element type
/// that an LPArray doesn't have as 0x50 (ECMA-335 II.23.4). `read_spec` reads them as that
/// descriptor.
pub fn write_spec(alloc: Global, spec: &Spec) -> Result<Bytes, NoMemory>
    requires { IsSpec spec.now }
    ensures { IfOk result (λ bytes. bytes ≡ written spec.now) }
{
    let mut bytes = Bytes::new(alloc);
    match *spec {
        Spec::Plain(code) => bytes.push(code)?,
        Spec::ByValText(count) => {
            bytes.push(BY_VAL_TEXT)?;
            push_number(&mut bytes, Some(count))?;
        }
        Spec::ByValArray(count, element) => {
            bytes.push(BY_VAL_ARRAY)?;
            push_number(&mut bytes, Some(count))?;
            push_code(&mut bytes, element)?;
        }
        Spec::LpArray(element, parameter, count, flag) => {
            bytes.push(LP_ARRAY)?;
            bytes.push(element.unwrap_or(NO_ELEMENT))?;
            push_number(&mut bytes, parameter)?;
            push_number(&mut bytes, count)?;
            push_number(&mut bytes, flag)?;
        }
    }
    Ok(bytes)
}

/// Whether a descriptor has a spelling: its codes are those of native types without parts, its numbers
/// are below 2^29, and none stands after a missing one.
pub fn is_spec(spec: &Spec) -> bool
    ensures { IsTrue result ↔ IsSpec spec.now }
{
    match *spec {
        Spec::Plain(code) => is_plain(code),
        Spec::ByValText(count) => count < 0x2000_0000,
        Spec::ByValArray(count, element) => count < 0x2000_0000 && is_element(element),
        Spec::LpArray(element, parameter, count, flag) => {
            is_element(element)
                && is_small(parameter)
                && is_small(count)
                && is_small(flag)
                && follows(parameter, count)
                && follows(count, flag)
        }
    }
}

fn is_element(code: Option<u8>) -> bool
    ensures { IsTrue result ↔ IsPlainIfThere code }
{
    match code {
        Some(code) => is_plain(code),
        None => true,
    }
}

fn is_small(number: Option<u32>) -> bool
    ensures { IsTrue result ↔ IsSmall number }
{
    match number {
        Some(n) => n < 0x2000_0000,
        None => true,
    }
}

/// Whether one number may stand after another: not where that is missing.
fn follows(before: Option<u32>, after: Option<u32>) -> bool
    ensures { IsTrue result ↔ Follows before after }
{
    before.is_some() || after.is_none()
}

/// Adds the code of a native type, where there is one.
fn push_code(bytes: &mut Bytes, code: Option<u8>) -> Result<(), NoMemory>
    ensures { OnOk result (bytes.new ≡ bytes.old ++ written_code code) }
{
    if let Some(code) = code {
        bytes.push(code)?;
    }
    Ok(())
}

/// Adds a compressed number (II.23.2), where there is one.
fn push_number(bytes: &mut Bytes, number: Option<u32>) -> Result<(), NoMemory>
    requires { IsSmall number }
    ensures { OnOk result (bytes.new ≡ bytes.old ++ written_number number) }
{
    if let Some(n) = number {
        push_shortest(bytes, n)?;
    }
    Ok(())
}

/// Adds a compressed number in as few bytes as hold it.
fn push_shortest(bytes: &mut Bytes, n: u32) -> Result<(), NoMemory>
    requires { n < 2 ^ 29 }
    ensures { OnOk result (bytes.new ≡ bytes.old ++ shortest n) }
{
    if n < 0x80 {
        bytes.push(n as u8)?;
    } else if n < 0x4000 {
        bytes.extend_from_slice(&(0x8000 + n as u16).to_be_bytes())?;
    } else {
        bytes.extend_from_slice(&(0xC000_0000 + n).to_be_bytes())?;
    }
    Ok(())
}
