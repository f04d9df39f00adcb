//! Graphs: `cycle` prints the least node that lies on a cycle of the edges FROM:TO, or `none`; `chain N` the same of N edges one
//! after another, the last node of which leads to itself, and `back N` of these edges from the last to the first; `after STEPS`
//! prints where each node of a table of next nodes leads in so many steps.

use anyhow::bail;
use graph_cycles::{Edge, after_steps, first_on_cycle};

pub fn print(rt: &HostRuntime, words: &[&str]) -> anyhow::Result<bool> {
    let Some((call, words)) = words.split_first() else {
        return Ok(false);
    };
    match *call {
        "cycle" => print_first(rt, edges_of(rt, words))?,
        "chain" => print_first(rt, chain_of(rt, words))?,
        "back" => print_first(rt, back_of(rt, words))?,
        "after" => print_after(rt, words)?,
        _ => return Ok(false),
    }
    Ok(true)
}

fn print_first(rt: &HostRuntime, edges: anyhow::Result<Vec<Edge>>) -> anyhow::Result<()> {
    match first_on_cycle(rt.alloc(), edges?.as_slice())? {
        Some(node) => println!(rt; "{node}")?,
        None => println!(rt; "none")?,
    }
    Ok(())
}

fn edges_of(rt: &HostRuntime, words: &[&str]) -> anyhow::Result<Vec<Edge>> {
    let mut edges = Vec::new(rt.alloc());
    for word in words {
        let Some((from, to)) = word.split_once(':') else {
            bail!("an edge that leads nowhere")
        };
        edges.push(Edge {
            from: from.parse()?,
            to: to.parse()?,
        })?;
    }
    Ok(edges)
}

/// Edges from each number to the next one up to a last, and from that to itself.
fn chain_of(rt: &HostRuntime, words: &[&str]) -> anyhow::Result<Vec<Edge>> {
    let Some(word) = words.first() else {
        bail!("a chain without its length")
    };
    let last: u32 = word.parse()?;
    let mut edges = Vec::new(rt.alloc());
    for from in 0..last {
        edges.push(Edge { from, to: from + 1 })?;
    }
    edges.push(Edge {
        from: last,
        to: last,
    })?;
    Ok(edges)
}

/// The same edges, the last one first.
fn back_of(rt: &HostRuntime, words: &[&str]) -> anyhow::Result<Vec<Edge>> {
    let mut edges = chain_of(rt, words)?;
    edges.reverse();
    Ok(edges)
}

fn print_after(rt: &HostRuntime, words: &[&str]) -> anyhow::Result<()> {
    let Some((steps, words)) = words.split_first() else {
        bail!("steps of no number")
    };
    print_ends(rt, ends_of(rt, words, steps.parse()?)?.as_slice())
}

/// Where each node of a table leads.
fn ends_of(rt: &HostRuntime, words: &[&str], steps: u64) -> anyhow::Result<Vec<u32>> {
    let table = table_of(rt, words)?;
    let count = u32::try_from(words.len()).unwrap_or(u32::MAX);
    let nodes: Vec<u32> = (0..count).collect(rt.alloc())?;
    Ok(after_steps(rt.alloc(), table.as_slice(), nodes.as_slice(), steps)?)
}

fn table_of(rt: &HostRuntime, words: &[&str]) -> anyhow::Result<Vec<u32>> {
    let mut table = Vec::new(rt.alloc());
    for word in words {
        table.push(word.parse()?)?;
    }
    Ok(table)
}

fn print_ends(rt: &HostRuntime, ends: &[u32]) -> anyhow::Result<()> {
    print!(rt; "to")?;
    for end in ends {
        print!(rt; " {end}")?;
    }
    println!(rt; "")?;
    Ok(())
}
