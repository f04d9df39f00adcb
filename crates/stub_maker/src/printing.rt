//! A stub as `stubs` prints it.

ghost use Rattle.std.specs.Prelude.{◌≡◌, ◌∷◌, ◌++◌, [], All, IfOk, OnOk};
ghost use Rattle.std.specs.Fmt.{decimal};
ghost use Rattle.std.specs.List.{flat_map};
ghost use Rattle.stub_maker.specs.Extents.{size as byte_size};
ghost use Rattle.stub_maker.specs.Printed.{printed, printed_outside, import_front, step_line, step_text, value_text, word_text, result_line, number_lines, encoding_text as encoding_word, mark_text as mark_word, why_text as why_word, end_lines, param_text};
ghost use Rattle.stub_maker.specs.Sized.{IsSized, IsSizedStub, IsSizedStep, IsSizedResult};

use crate::refused::{Param, Why};
use crate::stub::{Mark, Res, Step, Stub};
use bound_base::{Bytes, NoMemory, escape};
use lp64_convention::words_of;
use native_layout::{Enc, Shape, size_of};
use std::alloc::Global;

/// The lines of a stub: its import, a line for each argument, for each that is read back and for each that ends, the
/// result, `errno` where the native error number is saved, and `done`.
pub fn print_stub(
    alloc: Global,
    library: &[u8],
    entry: &[u8],
    stub: &Stub,
) -> Result<Bytes, NoMemory>
    requires { IsSizedStub stub.now }
    ensures { IfOk result (λ text. text ≡ printed library.now entry.now stub.now) }
{
    let mut text = import_text(alloc, b"stub ", library, entry)?;
    text.push(b'\n')?;
    push_steps(alloc, &mut text, stub.steps.as_slice())?;
    push_numbers(alloc, &mut text, b"back ", stub.back.as_slice())?;
    push_numbers(alloc, &mut text, b"end ", stub.ends.as_slice())?;
    push_result(alloc, &mut text, &stub.result)?;
    push_end(&mut text, stub.errno)?;
    Ok(text)
}

/// The line of an import that has no stub: what has no row in the marshalling table, and why.
pub fn print_outside(
    alloc: Global,
    library: &[u8],
    entry: &[u8],
    param: Param,
    why: Why,
) -> Result<Bytes, NoMemory>
    ensures { IfOk result (λ text. text ≡ printed_outside library.now entry.now param why) }
{
    let mut text = import_text(alloc, b"outside ", library, entry)?;
    text.push(b' ')?;
    push_param(alloc, &mut text, param)?;
    text.push(b' ')?;
    text.extend_from_slice(why_text(why))?;
    text.push(b'\n')?;
    Ok(text)
}

/// The bytes of a shape.
fn bytes_of(shape: &Shape) -> u64
    requires { IsSized shape.now }
    ensures { result ≡ byte_size shape.now }
{
    size_of(shape)
}

/// A line's front: a word and the import.
fn import_text(alloc: Global, word: &[u8], library: &[u8], entry: &[u8]) -> Result<Bytes, NoMemory>
    ensures { IfOk result (λ text. text ≡ import_front word.now library.now entry.now) }
{
    let library = escape(alloc, library)?;
    let entry = escape(alloc, entry)?;
    let mut text = Bytes::new(alloc);
    text.extend_from_slice(word)?;
    text.extend_from_slice(library.as_slice())?;
    text.push(b' ')?;
    text.extend_from_slice(entry.as_slice())?;
    Ok(text)
}

fn push_steps(alloc: Global, text: &mut Bytes, steps: &[Step]) -> Result<(), NoMemory>
    requires { All IsSizedStep steps.now }
    ensures { OnOk result (text.new ≡ text.old ++ flat_map step_line steps.now) }
{
    for step in steps {
        push_step(alloc, text, step)?;
    }
    Ok(())
}

/// A line for each number: a word and the number.
fn push_numbers(
    alloc: Global,
    text: &mut Bytes,
    word: &[u8],
    numbers: &[u32],
) -> Result<(), NoMemory>
    ensures { OnOk result (text.new ≡ text.old ++ number_lines word.now numbers.now) }
{
    for number in numbers {
        text.extend_from_slice(word)?;
        push_number(alloc, text, u64::from(*number))?;
        text.push(b'\n')?;
    }
    Ok(())
}

fn push_number(alloc: Global, text: &mut Bytes, number: u64) -> Result<(), NoMemory>
    ensures { OnOk result (text.new ≡ text.old ++ decimal number) }
{
    let digits = format!(in alloc; "{number}")?;
    text.extend_from_slice(digits.as_bytes())?;
    Ok(())
}

fn push_step(alloc: Global, text: &mut Bytes, step: &Step) -> Result<(), NoMemory>
    requires { IsSizedStep step.now }
    ensures { OnOk result (text.new ≡ text.old ++ step_line step.now) }
{
    text.extend_from_slice(b"arg ")?;
    push_number(alloc, text, u64::from(step.argument()))?;
    text.push(b' ')?;
    push_way(alloc, text, step)?;
    text.push(b'\n')?;
    Ok(())
}

/// How an argument is passed.
fn push_way(alloc: Global, text: &mut Bytes, step: &Step) -> Result<(), NoMemory>
    requires { IsSizedStep step.now }
    ensures { OnOk result (text.new ≡ text.old ++ step_text step.now) }
{
    match step {
        Step::Hold(_) => Ok(text.extend_from_slice(b"hold")?),
        Step::Word(_, shape) => {
            text.extend_from_slice(b"word ")?;
            push_word(alloc, text, shape)
        }
        Step::Text(_, encoding) => {
            text.extend_from_slice(b"text ")?;
            Ok(text.extend_from_slice(encoding_text(*encoding))?)
        }
        Step::Value(_, shape) => push_value(alloc, text, bytes_of(shape)),
        Step::Place(_, mark, shape) => push_marked(alloc, text, b"place ", *mark, bytes_of(shape)),
        Step::Lend(_, shape) => {
            text.extend_from_slice(b"lend ")?;
            push_number(alloc, text, bytes_of(shape))
        }
        Step::Copy(_, mark, shape) => push_marked(alloc, text, b"copy ", *mark, bytes_of(shape)),
        Step::Thunk(_) => Ok(text.extend_from_slice(b"thunk")?),
    }
}

fn push_marked(
    alloc: Global,
    text: &mut Bytes,
    word: &[u8],
    mark: Mark,
    size: u64,
) -> Result<(), NoMemory>
    ensures { OnOk result (text.new ≡ text.old ++ (word.now ++ mark_word mark ++ 32 ∷ [] ++ decimal size)) }
{
    text.extend_from_slice(word)?;
    text.extend_from_slice(mark_text(mark))?;
    text.push(b' ')?;
    push_number(alloc, text, size)
}

/// What stands in a word.
fn push_word(alloc: Global, text: &mut Bytes, shape: &Shape) -> Result<(), NoMemory>
    ensures { OnOk result (text.new ≡ text.old ++ word_text shape.now) }
{
    match shape {
        Shape::Int(width, signed) => push_integer(alloc, text, *width, *signed),
        Shape::Native(signed) => push_integer(alloc, text, 8, *signed),
        Shape::Bool(width) => {
            text.extend_from_slice(b"bool ")?;
            push_number(alloc, text, u64::from(*width))
        }
        Shape::Char(width) => {
            text.extend_from_slice(b"char ")?;
            push_number(alloc, text, u64::from(*width))
        }
        _ => Ok(()),
    }
}

fn push_integer(alloc: Global, text: &mut Bytes, width: u8, signed: bool) -> Result<(), NoMemory>
    ensures { OnOk result (text.new ≡ text.old ++ word_text (Shape.Int width signed)) }
{
    text.extend_from_slice(b"int ")?;
    push_number(alloc, text, u64::from(width))?;
    text.extend_from_slice(if signed { b" s" } else { b" u" })?;
    Ok(())
}

/// A struct of this size: in words, or behind a pointer.
fn push_value(alloc: Global, text: &mut Bytes, size: u64) -> Result<(), NoMemory>
    ensures { OnOk result (text.new ≡ text.old ++ value_text size) }
{
    text.extend_from_slice(b"value ")?;
    push_number(alloc, text, size)?;
    if size <= 16 {
        text.extend_from_slice(b" words ")?;
        push_number(alloc, text, words_of(size))
    } else {
        Ok(text.extend_from_slice(b" pointer")?)
    }
}

fn push_result(alloc: Global, text: &mut Bytes, result_way: &Res) -> Result<(), NoMemory>
    requires { IsSizedResult result_way.now }
    ensures { OnOk result (text.new ≡ text.old ++ result_line result_way.now) }
{
    text.extend_from_slice(b"result ")?;
    match result_way {
        Res::Void => text.extend_from_slice(b"void")?,
        Res::Word(shape) => {
            text.extend_from_slice(b"word ")?;
            push_word(alloc, text, shape)?;
        }
        Res::Text(encoding) => {
            text.extend_from_slice(b"text ")?;
            text.extend_from_slice(encoding_text(*encoding))?;
        }
        Res::Value(shape) => push_value(alloc, text, bytes_of(shape))?,
    }
    text.push(b'\n')?;
    Ok(())
}

/// The last lines.
fn push_end(text: &mut Bytes, saves_errno: bool) -> Result<(), NoMemory>
    ensures { OnOk result (text.new ≡ text.old ++ end_lines saves_errno) }
{
    if saves_errno {
        text.extend_from_slice(b"errno\n")?;
    }
    text.extend_from_slice(b"done\n")?;
    Ok(())
}

fn push_param(alloc: Global, text: &mut Bytes, param: Param) -> Result<(), NoMemory>
    ensures { OnOk result (text.new ≡ text.old ++ param_text param) }
{
    match param {
        Param::Arg(number) => push_number(alloc, text, u64::from(number)),
        Param::Result => Ok(text.extend_from_slice(b"result")?),
        Param::Whole => Ok(text.extend_from_slice(b"whole")?),
    }
}

fn why_text(why: Why) -> &'static [u8]
    ensures { result.now ≡ why_word why }
{
    match why {
        Why::Type0 => b"type",
        Why::Descriptor => b"descriptor",
        Why::Mark => b"mark",
        Why::Layout => b"layout",
        Why::PreserveSig => b"preservesig",
    }
}

fn encoding_text(encoding: Enc) -> &'static [u8]
    ensures { result.now ≡ encoding_word encoding }
{
    match encoding {
        Enc::Utf8 => b"utf8",
        Enc::Utf16 => b"utf16",
    }
}

fn mark_text(mark: Mark) -> &'static [u8]
    ensures { result.now ≡ mark_word mark }
{
    match mark {
        Mark::Give => b"give",
        Mark::Take => b"take",
        Mark::Both => b"both",
    }
}
