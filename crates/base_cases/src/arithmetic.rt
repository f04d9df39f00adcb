//! Arithmetic, comparisons and conversions of CIL. Operations go by the names of their variants, numbers by their kinds, as in
//! `i32:-7`.

use cil_arith::{
    Arith, BinOp, CmpOp, ConvOp, Num, UnOp, binary, comparable, compare, convert, fits, unary,
};

const BINARY: [(&str, BinOp); 19] = [
    ("Add", BinOp::Add),
    ("Sub", BinOp::Sub),
    ("Mul", BinOp::Mul),
    ("Div", BinOp::Div),
    ("DivUn", BinOp::DivUn),
    ("Rem", BinOp::Rem),
    ("RemUn", BinOp::RemUn),
    ("AddOvf", BinOp::AddOvf),
    ("AddOvfUn", BinOp::AddOvfUn),
    ("SubOvf", BinOp::SubOvf),
    ("SubOvfUn", BinOp::SubOvfUn),
    ("MulOvf", BinOp::MulOvf),
    ("MulOvfUn", BinOp::MulOvfUn),
    ("And", BinOp::And),
    ("Or", BinOp::Or),
    ("Xor", BinOp::Xor),
    ("Shl", BinOp::Shl),
    ("Shr", BinOp::Shr),
    ("ShrUn", BinOp::ShrUn),
];

const UNARY: [(&str, UnOp); 2] = [("Neg", UnOp::Neg), ("Not", UnOp::Not)];

const COMPARISONS: [(&str, CmpOp); 10] = [
    ("Eq", CmpOp::Eq),
    ("Ne", CmpOp::Ne),
    ("Ge", CmpOp::Ge),
    ("GeUn", CmpOp::GeUn),
    ("Gt", CmpOp::Gt),
    ("GtUn", CmpOp::GtUn),
    ("Le", CmpOp::Le),
    ("LeUn", CmpOp::LeUn),
    ("Lt", CmpOp::Lt),
    ("LtUn", CmpOp::LtUn),
];

const CONVERSIONS: [(&str, ConvOp); 30] = [
    ("I1", ConvOp::I1),
    ("I2", ConvOp::I2),
    ("I4", ConvOp::I4),
    ("I8", ConvOp::I8),
    ("I", ConvOp::I),
    ("U1", ConvOp::U1),
    ("U2", ConvOp::U2),
    ("U4", ConvOp::U4),
    ("U8", ConvOp::U8),
    ("U", ConvOp::U),
    ("OvfI1", ConvOp::OvfI1),
    ("OvfI2", ConvOp::OvfI2),
    ("OvfI4", ConvOp::OvfI4),
    ("OvfI8", ConvOp::OvfI8),
    ("OvfI", ConvOp::OvfI),
    ("OvfU1", ConvOp::OvfU1),
    ("OvfU2", ConvOp::OvfU2),
    ("OvfU4", ConvOp::OvfU4),
    ("OvfU8", ConvOp::OvfU8),
    ("OvfU", ConvOp::OvfU),
    ("OvfI1Un", ConvOp::OvfI1Un),
    ("OvfI2Un", ConvOp::OvfI2Un),
    ("OvfI4Un", ConvOp::OvfI4Un),
    ("OvfI8Un", ConvOp::OvfI8Un),
    ("OvfIUn", ConvOp::OvfIUn),
    ("OvfU1Un", ConvOp::OvfU1Un),
    ("OvfU2Un", ConvOp::OvfU2Un),
    ("OvfU4Un", ConvOp::OvfU4Un),
    ("OvfU8Un", ConvOp::OvfU8Un),
    ("OvfUUn", ConvOp::OvfUUn),
];

pub fn print(rt: &HostRuntime, words: &[&str]) -> anyhow::Result<bool> {
    match words {
        ["binary", op, a, b] => {
            let (Some(op), Some(a), Some(b)) = (named(&BINARY, op), number(a), number(b)) else {
                return Ok(false);
            };
            if fits(op, a, b) {
                print_result(rt, binary(op, a, b))?;
            } else {
                println!(rt; "no operation")?;
            }
        }
        ["unary", op, a] => {
            let (Some(op), Some(a)) = (named(&UNARY, op), number(a)) else {
                return Ok(false);
            };
            print_result(rt, Ok(unary(op, a)))?;
        }
        ["convert", op, a] => {
            let (Some(op), Some(a)) = (named(&CONVERSIONS, op), number(a)) else {
                return Ok(false);
            };
            print_result(rt, convert(op, a))?;
        }
        ["compare", op, a, b] => {
            let (Some(op), Some(a), Some(b)) = (named(&COMPARISONS, op), number(a), number(b))
            else {
                return Ok(false);
            };
            if comparable(op, a, b) {
                println!(rt; "{}", compare(op, a, b))?;
            } else {
                println!(rt; "no comparison")?;
            }
        }
        _ => return Ok(false),
    }
    Ok(true)
}

/// What stands under a name in a table.
fn named<T: Copy>(table: &[(&str, T)], name: &str) -> Option<T> {
    for (known, value) in table {
        if *known == name {
            return Some(*value);
        }
    }
    None
}

/// The number that a word gives, with its kind.
fn number(word: &str) -> Option<Num> {
    let (kind, value) = word.split_once(':')?;
    match kind {
        "i32" => Some(Num::I32(value.parse::<i32>().ok()?)),
        "i64" => Some(Num::I64(value.parse::<i64>().ok()?)),
        "n" => Some(Num::N(value.parse::<i64>().ok()?)),
        _ => None,
    }
}

fn print_result(rt: &HostRuntime, given: Result<Num, Arith>) -> anyhow::Result<()> {
    match given {
        Ok(Num::I32(value)) => println!(rt; "i32:{value}")?,
        Ok(Num::I64(value)) => println!(rt; "i64:{value}")?,
        Ok(Num::N(value)) => println!(rt; "n:{value}")?,
        Err(error) => println!(rt; "{error}")?,
    }
    Ok(())
}
