//! Layouts: `layout` places the fields of a struct and prints its size, its alignment and the
//! offsets, or `outside` and the number of the field for which there is none; `shape` prints what
//! stands in a shape; `doubled N` prints the outline of a struct that holds a struct twice, and so on
//! N deep, down to integers. A shape is written from its parts on: `i:4` and `u:4` are integers,
//! `native`, `bool:4`, `char:2`, `text`, `thunk`, `chars:7` and `units:5` texts in place, `array:3` an
//! array of the shape before it, and `seq:PACK:LEAST:N` or `exp:PACK:LEAST:N` a struct of the N shapes
//! before it; `@8` gives the shape before it a written offset.

ghost use Rattle.std.specs.Prelude.{IfOk};
ghost use Rattle.native_layout.specs.Outlines.{IsSound};

use anyhow::bail;
use native_layout::{
    Enc, Extent, Layout, LayoutBad, Offsets, Outline, Shape, Shapes, StructShape, can_be_laid_out,
    has_pointer_cells, has_texts, is_flat, is_in_order, layout, scalar_parts,
};
use sqlite_items::Boxed;
use std::alloc::Global;

/// A shape, and the offset that is written for it.
#[derive(Drop)]
struct Part {
    shape: Shape,
    offset: Option<u32>,
}

pub fn print(rt: &HostRuntime, words: &[&str]) -> anyhow::Result<bool> {
    let Some((call, words)) = words.split_first() else {
        return Ok(false);
    };
    match *call {
        "layout" => print_layout_of(rt, words)?,
        "shape" => print_contents_of(rt, words)?,
        "doubled" => print_doubled(rt, words)?,
        _ => return Ok(false),
    }
    Ok(true)
}

fn print_layout_of(rt: &HostRuntime, words: &[&str]) -> anyhow::Result<()> {
    print_layout(rt, &shape_of(rt.alloc(), words)?)
}

fn print_contents_of(rt: &HostRuntime, words: &[&str]) -> anyhow::Result<()> {
    print_contents(rt, &shape_of(rt.alloc(), words)?)
}

fn print_layout(rt: &HostRuntime, shape: &Shape) -> anyhow::Result<()> {
    if !is_in_order(shape) {
        println!(rt; "not in order")?;
        return Ok(());
    }
    let Shape::Struct(s) = shape else {
        bail!("a layout of what is no struct")
    };
    match layout(rt.alloc(), s) {
        Ok(laid) => print_laid(rt, &laid)?,
        Err(LayoutBad::Outside(field)) => println!(rt; "outside {field}")?,
        Err(LayoutBad::Memory) => bail!("out of memory"),
    }
    Ok(())
}

fn print_laid(rt: &HostRuntime, laid: &Layout) -> anyhow::Result<()> {
    print!(rt; "size {} align {} at", laid.size, laid.align)?;
    for offset in laid.offsets.as_slice() {
        match offset {
            Some(at) => print!(rt; " {at}")?,
            None => print!(rt; " none")?,
        }
    }
    println!(rt; "")?;
    Ok(())
}

fn print_contents(rt: &HostRuntime, shape: &Shape) -> anyhow::Result<()> {
    let flat = said(is_flat(shape), " flat");
    let pointers = said(has_pointer_cells(shape), " pointers");
    let texts = said(has_texts(shape), " texts");
    let laid_out = said(is_laid_out(rt.alloc(), shape)?, " laid out");
    println!(rt;
        "parts {}{flat}{pointers}{texts}{laid_out}",
        scalar_parts(shape)
    )?;
    Ok(())
}

fn is_laid_out(alloc: Global, shape: &Shape) -> anyhow::Result<bool> {
    Ok(is_in_order(shape) && can_be_laid_out(alloc, shape)?)
}

/// A word where something holds.
fn said(holds: bool, word: &'static str) -> &'static str {
    if holds { word } else { "" }
}

fn print_doubled(rt: &HostRuntime, words: &[&str]) -> anyhow::Result<()> {
    let Some(depth) = words.first() else {
        bail!("a struct without its depth")
    };
    print_outline(rt, doubled(rt.alloc(), depth.parse()?)?)
}

/// The outline of a struct so deep, each part of which holds the part below twice.
fn doubled(alloc: Global, depth: u32) -> anyhow::Result<Outline>
    ensures { IfOk result IsSound }
{
    let offsets = Offsets::new(alloc);
    let mut outline = Outline::integer(1);
    for _ in 0..depth {
        outline = Outline::structure(alloc, 0, 0, false, &[outline, outline], &offsets)?;
    }
    Ok(outline)
}

fn print_outline(rt: &HostRuntime, outline: Outline) -> anyhow::Result<()> {
    let Extent { size, align } = outline.extent;
    let flat = said(outline.flat, " flat");
    let pointers = said(outline.pointers, " pointers");
    let laid_out = said(outline.stands, " laid out");
    println!(rt;
        "size {size} align {align} depth {} parts {}{flat}{pointers}{laid_out}",
        outline.nesting, outline.parts
    )?;
    Ok(())
}

/// The one shape that words spell.
fn shape_of(alloc: Global, words: &[&str]) -> anyhow::Result<Shape> {
    let mut parts = Vec::new(alloc);
    for word in words {
        add(alloc, &mut parts, word)?;
    }
    match parts.pop() {
        Some(part) => Ok(part.shape),
        None => bail!("no shape"),
    }
}

/// Does what one word says to the shapes before it.
fn add(alloc: Global, parts: &mut Vec<Part>, word: &str) -> anyhow::Result<()> {
    let part = match word.strip_prefix('@') {
        Some(at) => placed(parts, at.parse()?),
        None => shape_by(alloc, parts, word),
    };
    parts.push(part?)?;
    Ok(())
}

/// The last shape, at a written offset.
fn placed(parts: &mut Vec<Part>, at: u32) -> anyhow::Result<Part> {
    match parts.pop() {
        Some(part) => Ok(Part {
            shape: part.shape,
            offset: Some(at),
        }),
        None => bail!("an offset of nothing"),
    }
}

fn shape_by(alloc: Global, parts: &mut Vec<Part>, word: &str) -> anyhow::Result<Part> {
    let shape = match word.split_once(':') {
        Some(("array", count)) => array_of(alloc, parts, count.parse()?),
        Some(("seq", numbers)) => struct_of(alloc, parts, false, numbers),
        Some(("exp", numbers)) => struct_of(alloc, parts, true, numbers),
        Some((name, number)) => numbered(name, number),
        None => plain(word),
    };
    Ok(Part {
        shape: shape?,
        offset: None,
    })
}

fn plain(word: &str) -> anyhow::Result<Shape> {
    Ok(match word {
        "native" => Shape::Native(true),
        "text" => Shape::Text(Enc::Utf8),
        "thunk" => Shape::Thunk(1),
        _ => bail!("a shape that no case has"),
    })
}

fn numbered(name: &str, number: &str) -> anyhow::Result<Shape> {
    Ok(match name {
        "i" => Shape::Int(number.parse()?, true),
        "u" => Shape::Int(number.parse()?, false),
        "bool" => Shape::Bool(number.parse()?),
        "char" => Shape::Char(number.parse()?),
        "chars" => Shape::InlineText(Enc::Utf8, number.parse()?),
        "units" => Shape::InlineText(Enc::Utf16, number.parse()?),
        _ => bail!("a shape that no case has"),
    })
}

fn array_of(alloc: Global, parts: &mut Vec<Part>, count: u32) -> anyhow::Result<Shape> {
    let Some(element) = parts.pop() else {
        bail!("an array of nothing")
    };
    Ok(Shape::InlineArray(1, Boxed::new(alloc, element.shape)?, count))
}

/// A struct of the last shapes, by its packing, its least size and how many they are.
fn struct_of(
    alloc: Global,
    parts: &mut Vec<Part>,
    explicit: bool,
    numbers: &str,
) -> anyhow::Result<Shape> {
    let (pack, least, count) = struct_numbers(numbers)?;
    if parts.len() < count {
        bail!("a struct of more shapes than there are")
    }
    let (fields, offsets) = fields_of(alloc, parts.split_off(parts.len() - count)?)?;
    Ok(Shape::Struct(StructShape {
        ty: 1,
        pack,
        least,
        explicit,
        fields,
        offsets,
    }))
}

fn struct_numbers(numbers: &str) -> anyhow::Result<(u16, u32, usize)> {
    let Some((pack, numbers)) = numbers.split_once(':') else {
        bail!("a struct without its least size")
    };
    let Some((least, count)) = numbers.split_once(':') else {
        bail!("a struct without a number of fields")
    };
    Ok((pack.parse()?, least.parse()?, count.parse()?))
}

fn fields_of(alloc: Global, parts: Vec<Part>) -> anyhow::Result<(Shapes, Offsets)> {
    let mut fields = Shapes::new(alloc);
    let mut offsets = Offsets::new(alloc);
    for part in parts {
        fields.push(part.shape)?;
        offsets.push(part.offset)?;
    }
    Ok((fields, offsets))
}
