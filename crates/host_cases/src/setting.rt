//! What a call is made over: a file under a name, calls that fail, rooms of streams.

use crate::images::library_of;
use anyhow::{Context, bail};
use std::alloc::Global;

/// How many bytes a stream takes where no row bounds it.
const ROOM: usize = 4096;

#[derive(Drop)]
pub struct Setting {
    /// The name under which the file is held.
    pub name: String,
    /// Whether a file is held.
    pub is_held: bool,
    pub file: Vec<u8>,
    /// The bytes that a later row makes the file's again.
    kept: Vec<u8>,
    /// The numbers of calls that fail, and the rooms, for the next call.
    pub next: Bounds,
}

/// Which calls fail, and how many bytes streams take.
#[derive(Clone, Copy)]
pub struct Bounds {
    pub read: Option<u64>,
    pub out: Option<u64>,
    pub err: Option<u64>,
    pub out_room: usize,
    pub err_room: usize,
}

impl Bounds {
    /// Nothing fails, and streams have their usual room.
    pub fn none() -> Bounds {
        Bounds {
            read: None,
            out: None,
            err: None,
            out_room: ROOM,
            err_room: ROOM,
        }
    }

    /// The bounds with one more, by what it bounds.
    fn with(self, kind: &str, what: &str, number: u64) -> anyhow::Result<Bounds> {
        let mut bounds = self;
        match (kind, what) {
            ("fail", "read") => bounds.read = Some(number),
            ("fail", "out") => bounds.out = Some(number),
            ("fail", "err") => bounds.err = Some(number),
            ("room", "out") => bounds.out_room = usize::try_from(number)?,
            ("room", "err") => bounds.err_room = usize::try_from(number)?,
            _ => bail!("no such call"),
        }
        Ok(bounds)
    }
}

impl Setting {
    /// No file is held, and nothing fails.
    pub fn new(alloc: Global) -> Setting {
        Setting {
            name: String::new(alloc),
            is_held: false,
            file: Vec::new(alloc),
            kept: Vec::new(alloc),
            next: Bounds::none(),
        }
    }

    /// The file's bytes, where it is held.
    pub fn held(&self) -> Option<&[u8]> {
        if !self.is_held {
            return None;
        }
        Some(self.file.as_slice())
    }

    /// The bounds of the next call, which those after it don't have.
    pub fn take_bounds(&mut self) -> Bounds {
        let bounds = self.next;
        self.next = Bounds::none();
        bounds
    }

    /// Does what a row says that is no call.
    pub fn change(&mut self, alloc: Global, kind: &str, rest: &str) -> anyhow::Result<()> {
        match kind {
            "hold" => {
                self.name = String::from_str(alloc, rest)?;
                self.is_held = true;
            }
            "gone" => self.is_held = false,
            "bytes" => self.file = hex::decode(alloc, rest)?,
            "keep" => self.kept = copy_of(alloc, self.file.as_slice())?,
            "again" => self.file = copy_of(alloc, self.kept.as_slice())?,
            "zeros" => self.file = zeros(alloc, rest.parse::<usize>()?)?,
            "library" => self.file = library_of(alloc, rest)?,
            "set" => self.set(alloc, rest)?,
            "cut" => self.file.truncate(rest.parse::<usize>()?),
            "fail" | "room" => {
                let (what, number) = rest.split_once(' ').context("a number is missing")?;
                self.next = self.next.with(kind, what, number.parse::<u64>()?)?;
            }
            _ => bail!("no such row"),
        }
        Ok(())
    }

    /// Writes bytes, given in hexadecimal, at a place in the file.
    fn set(&mut self, alloc: Global, rest: &str) -> anyhow::Result<()> {
        let (at, digits) = rest.split_once(' ').context("bytes are missing")?;
        let at = at.parse::<usize>()?;
        let bytes = hex::decode(alloc, digits)?;
        for (i, byte) in bytes.iter().enumerate() {
            if let Some(place) = self.file.get_mut(at.saturating_add(i)) {
                *place = *byte;
            }
        }
        Ok(())
    }
}

fn copy_of(alloc: Global, bytes: &[u8]) -> anyhow::Result<Vec<u8>> {
    let mut copy = Vec::new(alloc);
    copy.extend_from_slice(bytes)?;
    Ok(copy)
}

fn zeros(alloc: Global, len: usize) -> anyhow::Result<Vec<u8>> {
    Ok(vec![in alloc; 0u8; len]?)
}
