//! What checks and timings run of the native crates. Without words it reads cases; else the first word says what it does. It
//! prints results alone, the same at each call: `bench/native` measures how long it takes.
#![tactic(auto)]

mod blocks;
mod cases;
mod reads;
mod rights;
mod steps;

use anyhow::{Context, bail};
use blocks::Order;
use std::env;

fn main(rt: HostRuntime) -> anyhow::Result<()> {
    let mut words = env::args(&rt)?.skip(1);
    let Some(mode) = words.next() else {
        return cases::print_all(&rt);
    };
    match mode.as_str() {
        "steps" => steps::print(&rt),
        "reads" => reads::print(&rt, number_in(words.next())?, number_in(words.next())?),
        "blocks" => blocks::print(&rt, order(words.next())?),
        _ => bail!("no such mode"),
    }
}

fn number_in(word: Option<String>) -> anyhow::Result<u64> {
    number(word.context("a number is missing")?.as_str())
}

fn number(word: &str) -> anyhow::Result<u64> {
    Ok(word.parse::<u64>()?)
}

fn order(word: Option<String>) -> anyhow::Result<Order> {
    let word = word.context("an order is missing")?;
    Order::named(word.as_str()).context("no such order")
}
