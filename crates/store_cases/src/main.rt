//! Reads cases, one a line of stdin, and prints each with what the store of managed objects answers. A line is a verb and its words;
//! objects are named by their numbers. A line that has none of the verbs is printed as it is. The store stays from line to line.
#![tactic(auto)]

mod changing;
mod making;
mod showing;
mod values;

use object_store::ObjectStore;
use std::io::{BufRead, BufReader};

fn main(rt: HostRuntime) -> anyhow::Result<()> {
    let mut store = ObjectStore::new(rt.alloc(), 0);
    for line in BufReader::new(rt.alloc(), rt.reader())?.lines(rt.alloc()) {
        let line = line?;
        let words: Vec<&str> = line.split_whitespace().collect(rt.alloc())?;
        print!(rt; "{line}")?;
        let _ = answer(&rt, &mut store, &words)?;
        println!(rt; "")?;
    }
    Ok(())
}

/// Prints what a call answers, and tells whether the line has one of the verbs.
fn answer(
    rt: &(impl Print + AllocGlobal),
    store: &mut ObjectStore,
    words: &[&str],
) -> anyhow::Result<bool> {
    match words {
        ["limit", limit] => {
            let limit: u32 = limit.parse()?;
            *store = ObjectStore::new(rt.alloc(), limit as u64);
            Ok(true)
        }
        ["used"] => {
            print!(rt; " -> {} of {}", store.used(), store.limit())?;
            Ok(true)
        }
        _ => Ok(
            making::answer(rt, store, words)?
                || changing::answer(rt, store, words)?
                || showing::answer(rt, store, words)?,
        ),
    }
}
