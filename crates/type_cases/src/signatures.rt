//! Signatures: `method`, `field`, `locals` and `type` read a blob. A value is printed as it is
//! nested, element types and tokens in hexadecimal; a refusal as `at` and its place.

use crate::hexadecimal::bytes_of;
use sig_reader::{
    I32s, Sig, SigBad, TypeSig, TypeSigs, U32s, read_field_sig, read_locals, read_method_sig,
    read_type_spec,
};
use std::alloc::AllocError;

/// What is still to be printed.
#[derive(Clone, Copy)]
enum Piece<'a> {
    Text(&'static str),
    Byte(u8),
    Token(u32),
    Number(u32),
    Signed(i32),
    Type(&'a TypeSig),
    Method(&'a Sig),
}

pub fn print(rt: &HostRuntime, words: &[&str]) -> anyhow::Result<bool> {
    match words {
        ["method", bytes] => {
            let bytes = bytes_of(rt.alloc(), bytes)?;
            match read_method_sig(rt.alloc(), bytes.as_slice()) {
                Ok(sig) => print_piece(rt, Piece::Method(&sig))?,
                Err(bad) => print_refusal(rt, bad)?,
            }
        }
        ["field", bytes] => {
            let bytes = bytes_of(rt.alloc(), bytes)?;
            match read_field_sig(rt.alloc(), bytes.as_slice()) {
                Ok(t) => print_piece(rt, Piece::Type(&t))?,
                Err(bad) => print_refusal(rt, bad)?,
            }
        }
        ["type", bytes] => {
            let bytes = bytes_of(rt.alloc(), bytes)?;
            match read_type_spec(rt.alloc(), bytes.as_slice()) {
                Ok(t) => print_piece(rt, Piece::Type(&t))?,
                Err(bad) => print_refusal(rt, bad)?,
            }
        }
        ["locals", bytes] => {
            let bytes = bytes_of(rt.alloc(), bytes)?;
            match read_locals(rt.alloc(), bytes.as_slice()) {
                Ok(all) => print_locals(rt, &all)?,
                Err(bad) => print_refusal(rt, bad)?,
            }
        }
        _ => return Ok(false),
    }
    Ok(true)
}

fn print_refusal(rt: &HostRuntime, bad: SigBad) -> anyhow::Result<()> {
    match bad {
        SigBad::BadSig(at) => println!(rt; "at {at}")?,
        SigBad::Memory => println!(rt; "out of memory")?,
    }
    Ok(())
}

/// Each local on a line of its own.
fn print_locals(rt: &HostRuntime, all: &TypeSigs) -> anyhow::Result<()> {
    println!(rt; "{} locals", all.len())?;
    for t in all.as_slice() {
        print_piece(rt, Piece::Type(t))?;
    }
    Ok(())
}

/// Prints a type or a method: the last of the pieces that are due comes next.
fn print_piece(rt: &HostRuntime, whole: Piece<'_>) -> anyhow::Result<()> {
    let mut due = Vec::new(rt.alloc());
    due.push(whole)?;
    for _ in 0..u64::MAX {
        let Some(piece) = due.pop() else {
            break;
        };
        print_next(rt, &mut due, piece)?;
    }
    println!(rt; "")?;
    Ok(())
}

/// Prints a piece, or makes its parts due.
fn print_next<'a>(
    rt: &HostRuntime,
    due: &mut Vec<Piece<'a>>,
    piece: Piece<'a>,
) -> anyhow::Result<()> {
    match piece {
        Piece::Text(text) => print!(rt; "{text}")?,
        Piece::Byte(byte) => print!(rt; "{byte:02x}")?,
        Piece::Token(token) => print!(rt; "{token:08x}")?,
        Piece::Number(number) => print!(rt; "{number}")?,
        Piece::Signed(number) => print!(rt; "{number}")?,
        Piece::Type(t) => push_type(due, t)?,
        Piece::Method(sig) => push_method(due, sig)?,
    }
    Ok(())
}

/// Pieces, of which the first comes next.
fn push_all<'a>(due: &mut Vec<Piece<'a>>, pieces: &[Piece<'a>]) -> Result<(), AllocError> {
    for piece in pieces.iter().rev() {
        due.push(*piece)?;
    }
    Ok(())
}

fn push_held<'a>(
    due: &mut Vec<Piece<'a>>,
    begins: &'static str,
    t: &'a TypeSig,
) -> Result<(), AllocError> {
    push_all(
        due,
        &[Piece::Text(begins), Piece::Type(t), Piece::Text(")")],
    )
}

/// The parts of a type.
fn push_type<'a>(due: &mut Vec<Piece<'a>>, t: &'a TypeSig) -> Result<(), AllocError> {
    match t {
        TypeSig::Prim(e) => push_all(due, &[Piece::Byte(*e)]),
        TypeSig::Named(true, token) => {
            push_all(due, &[Piece::Text("value "), Piece::Token(*token)])
        }
        TypeSig::Named(false, token) => {
            push_all(due, &[Piece::Text("class "), Piece::Token(*token)])
        }
        TypeSig::Ptr(t) => push_held(due, "ptr(", t.get()),
        TypeSig::ByRef(t) => push_held(due, "ref(", t.get()),
        TypeSig::Vector(t) => push_held(due, "vector(", t.get()),
        TypeSig::Pinned(t) => push_held(due, "pinned(", t.get()),
        TypeSig::Array(t, rank, sizes, lows) => push_array(due, t.get(), *rank, sizes, lows),
        TypeSig::Inst(generic, arguments) => push_instance(due, generic.get(), arguments),
        TypeSig::Var(n) => push_all(due, &[Piece::Text("var "), Piece::Number(*n)]),
        TypeSig::MVar(n) => push_all(due, &[Piece::Text("mvar "), Piece::Number(*n)]),
        TypeSig::FnPtr(sig) => push_all(
            due,
            &[
                Piece::Text("fn("),
                Piece::Method(sig.get()),
                Piece::Text(")"),
            ],
        ),
    }
}

fn push_instance<'a>(
    due: &mut Vec<Piece<'a>>,
    generic: &'a TypeSig,
    arguments: &'a TypeSigs,
) -> Result<(), AllocError> {
    push_types(due, arguments)?;
    push_all(due, &[Piece::Text("inst("), Piece::Type(generic)])
}

fn push_array<'a>(
    due: &mut Vec<Piece<'a>>,
    t: &'a TypeSig,
    rank: u32,
    sizes: &U32s,
    lows: &I32s,
) -> Result<(), AllocError> {
    due.push(Piece::Text(")"))?;
    for low in lows.as_slice().iter().rev() {
        push_all(due, &[Piece::Text(" "), Piece::Signed(*low)])?;
    }
    due.push(Piece::Text("; from"))?;
    for size in sizes.as_slice().iter().rev() {
        push_all(due, &[Piece::Text(" "), Piece::Number(*size)])?;
    }
    push_all(
        due,
        &[
            Piece::Text("array("),
            Piece::Type(t),
            Piece::Text("; rank "),
            Piece::Number(rank),
            Piece::Text("; sizes"),
        ],
    )
}

/// Types, each after a space, and what closes them.
fn push_types<'a>(due: &mut Vec<Piece<'a>>, all: &'a TypeSigs) -> Result<(), AllocError> {
    due.push(Piece::Text(")"))?;
    for t in all.as_slice().iter().rev() {
        push_all(due, &[Piece::Text(" "), Piece::Type(t)])?;
    }
    Ok(())
}

/// The parts of a method.
fn push_method<'a>(due: &mut Vec<Piece<'a>>, sig: &'a Sig) -> Result<(), AllocError> {
    push_types(due, &sig.params)?;
    push_all(due, &[Piece::Type(&sig.result), Piece::Text(" (")])?;
    if sig.generic > 0 {
        push_all(
            due,
            &[
                Piece::Text("generic "),
                Piece::Number(sig.generic),
                Piece::Text(" "),
            ],
        )?;
    }
    if sig.vararg {
        due.push(Piece::Text("vararg "))?;
    }
    due.push(Piece::Text(if sig.has_this { "this " } else { "static " }))?;
    Ok(())
}
