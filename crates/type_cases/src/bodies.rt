//! Method bodies: `body` reads one, and prints it or `at` and the place where it is refused; `instr` prints the instruction
//! at an offset with the offset of the next, and `none` where none begins; `next` prints the clause that is next for an
//! exception, by the offset, the clause from which to go on, and the tokens of the types that catch it.

use crate::hexadecimal::bytes_of;
use body_reader::{Body, BodyBad, Op, instr, read_body, switch_target};
use cil_unwind::next_handler;
use sqlite_items::Boxed;

pub fn print(rt: &HostRuntime, words: &[&str]) -> anyhow::Result<bool> {
    let Some((call, words)) = words.split_first() else {
        return Ok(false);
    };
    match (*call, words) {
        ("body", [bytes]) => print_read(rt, read(rt, bytes)?)?,
        ("instr", [bytes, at]) => print_found(rt, whole(rt, bytes)?, at.parse()?)?,
        ("next", [bytes, at, from, tokens @ ..]) => {
            print_next(rt, whole(rt, bytes)?, [at.parse()?, from.parse()?], tokens)?;
        }
        _ => return Ok(false),
    }
    Ok(true)
}

fn read(rt: &HostRuntime, bytes: &str) -> anyhow::Result<Result<Body, BodyBad>> {
    let bytes = bytes_of(rt.alloc(), bytes)?;
    Ok(read_body(rt.alloc(), bytes.as_slice()))
}

/// A body that is none ends the cases.
fn whole(rt: &HostRuntime, bytes: &str) -> anyhow::Result<Boxed<Body>> {
    let body = read(rt, bytes)??;
    Ok(Boxed::new(rt.alloc(), body)?)
}

fn print_read(rt: &HostRuntime, read: Result<Body, BodyBad>) -> anyhow::Result<()> {
    match read {
        Ok(body) => print_body(rt, &body),
        Err(bad) => print_refusal(rt, bad),
    }
}

fn print_refusal(rt: &HostRuntime, bad: BodyBad) -> anyhow::Result<()> {
    match bad {
        BodyBad::BadBody(at) => println!(rt; "at {at}")?,
        BodyBad::Memory => println!(rt; "out of memory")?,
    }
    Ok(())
}

fn print_found(rt: &HostRuntime, body: Boxed<Body>, at: u32) -> anyhow::Result<()> {
    match instr(body.get(), at) {
        Some((op, next)) => println!(rt; "{op:?}, next {next}")?,
        None => println!(rt; "none")?,
    }
    Ok(())
}

fn print_body(rt: &HostRuntime, body: &Body) -> anyhow::Result<()> {
    let (max_stack, locals) = (body.max_stack, body.locals);
    println!(rt; "stack {max_stack} locals {locals:x}")?;
    for at in 0..body.code.len() {
        if at <= u32::MAX as usize {
            print_instruction(rt, body, at as u32)?;
        }
    }
    for clause in body.clauses.as_slice() {
        println!(rt; "{clause:?}")?;
    }
    Ok(())
}

/// Prints the instruction at an offset, where one begins there, and the targets of a switch.
fn print_instruction(rt: &HostRuntime, body: &Body, at: u32) -> anyhow::Result<()> {
    let Some((op, _)) = instr(body, at) else {
        return Ok(());
    };
    print!(rt; "{at} {op:?}")?;
    if let Op::Switch { count, .. } = op {
        for k in 0..count {
            let target = switch_target(body, at, k);
            print!(rt; " {target:?}")?;
        }
    }
    println!(rt; "")?;
    Ok(())
}

fn print_next(
    rt: &HostRuntime,
    body: Boxed<Body>,
    [at, from]: [u32; 2],
    tokens: &[&str],
) -> anyhow::Result<()> {
    let catching = tokens_of(rt, tokens)?;
    let handler = next_handler(body.get(), at, from, |token| catching.contains(&token));
    println!(rt; "{handler:?}")?;
    Ok(())
}

fn tokens_of(rt: &HostRuntime, words: &[&str]) -> anyhow::Result<Vec<u32>> {
    let mut tokens = Vec::new(rt.alloc());
    for word in words {
        tokens.push(u32::from_str_radix(word, 16)?)?;
    }
    Ok(tokens)
}
