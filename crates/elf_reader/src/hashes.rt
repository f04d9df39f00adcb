//! How many symbols there are, by the hash tables (System V gABI, 'Hash Table'; for `DT_GNU_HASH`, the GNU linker's
//! table).

ghost use Rattle.std.specs.Prelude.{◌≡◌, ◌+◌, ◌*◌, ◌<◌, ◌≤◌, ◌^◌, length, map, max, Some, None, nat_le, option_and_then, IfSome, if◌then◌else◌};
ghost use Rattle.std.specs.List.{list_any, fold};
ghost use Rattle.byte_view.specs.ElfLoads.{bytes_from};
ghost use Rattle.byte_view.specs.ElfSymbols as definition;
ghost use Rattle.byte_view.specs.Reading.{Reads};
ghost use Rattle.elf_reader.specs.Elf.{dynamic_entry, load_of};
ghost use Rattle.elf_reader.specs.Loads.{AreSound};
ghost use Rattle.elf_reader.specs.Refusals.{broken_part};

use crate::dynamic::{DT_GNU_HASH, DT_HASH, first_of};
use crate::elf::Load;
use crate::entry::Entry;
use crate::fields::broken;
use crate::loads::{range_from, table_place};
use crate::part::{Broken, ElfPart};
use byte_view::number32;

/// What a word leaves by 2 that ends a chain of the GNU linker's table.
const CHAIN_END: u32 = 1;

/// How many symbols there are: by `DT_HASH`, else by `DT_GNU_HASH`, else none.
pub fn symbol_count(bytes: &[u8], loads: &[Load], table: &[Entry]) -> Result<u64, Broken>
    requires { AreSound (length bytes.now) loads.now }
    ensures { Reads broken_part (λ x. x) result
        (definition.symbol_count bytes.now (map load_of loads.now) (map dynamic_entry table.now)) }
{
    if let Some(hash) = first_of(table, DT_HASH) {
        return hash_count(bytes, loads, hash);
    }
    match first_of(table, DT_GNU_HASH) {
        Some(gnu_hash) => gnu_hash_count(bytes, loads, gnu_hash),
        None => Ok(0),
    }
}

/// The number of chains of a hash table, which follows the number of its buckets: one for each symbol.
#[tactic(auto, unfolding(byte_view::specs::ElfSymbols::hash_count))]
fn hash_count(bytes: &[u8], loads: &[Load], entry: Entry) -> Result<u64, Broken>
    requires { AreSound (length bytes.now) loads.now }
    ensures { Reads broken_part (λ x. x) result
        (definition.hash_count bytes.now (map load_of loads.now) (dynamic_entry entry)) }
{
    let at = table_place(ElfPart::Symbols, bytes.len(), loads, entry, 4, 4)?;
    Ok(u64::from(number32(bytes, at)))
}

/// How many symbols a GNU hash table counts: those before the first that is hashed, and those up to the end of the chain
/// that begins last.
#[tactic(auto, unfolding(byte_view::specs::ElfSymbols::gnu_hash_count, byte_view::specs::ElfSymbols::behind_buckets))]
fn gnu_hash_count(bytes: &[u8], loads: &[Load], entry: Entry) -> Result<u64, Broken>
    requires { AreSound (length bytes.now) loads.now }
    ensures { Reads broken_part (λ x. x) result
        (definition.gnu_hash_count bytes.now (map load_of loads.now) (dynamic_entry entry)) }
{
    let at = table_place(ElfPart::Symbols, bytes.len(), loads, entry, 0, 12)?;
    let bucket_count = u64::from(number32(bytes, at));
    let first = number32(bytes, at + 4);
    let buckets = 16 + 8 * u64::from(number32(bytes, at + 8));
    let len = 4 * bucket_count;
    let buckets_at = table_place(ElfPart::Symbols, bytes.len(), loads, entry, buckets, len)?;
    match last_chain(bytes, buckets_at, bucket_count as usize, first) {
        Some(symbol) => behind_chain(bytes, loads, entry, buckets + len, first, symbol),
        None => Ok(u64::from(first)),
    }
}

/// The greatest of the buckets, which are `count` symbols' numbers at `at`, if one of them is at least `first`.
fn last_chain(bytes: &[u8], at: usize, count: usize, first: u32) -> Option<u32>
    requires { at + 4 * count ≤ length bytes.now }
    ensures greatest { result ≡ (let starts = definition.words_at bytes.now at count in
        if list_any (λ start. nat_le first start) starts then Some (fold max 0 starts) else None) }
    ensures hashed { IfSome result (λ greatest. first ≤ greatest) }
{
    let mut greatest = 0;
    let mut is_hashed = false;
    for k in 0..count {
        let start = number32(bytes, at + 4 * k);
        greatest = greatest.max(start);
        is_hashed |= first <= start;
    }
    is_hashed.then_some(greatest)
}

/// The number after the last symbol of the chain that begins with `symbol`. The chains lie `chains` past the value of
/// the entry, one word for each symbol from `first` on.
#[tactic(auto, unfolding(byte_view::specs::ElfSymbols::behind_chain))]
fn behind_chain(
    bytes: &[u8],
    loads: &[Load],
    entry: Entry,
    chains: u64,
    first: u32,
    symbol: u32,
) -> Result<u64, Broken>
    requires sound { AreSound (length bytes.now) loads.now }
    requires hashed { first ≤ symbol }
    requires near { chains < 2 ^ 40 }
    ensures { Reads broken_part (λ x. x) result
        (definition.behind_chain bytes.now (map load_of loads.now) (dynamic_entry entry)
        (entry.value + chains) first symbol) }
{
    let offset = chains + 4 * u64::from(symbol - first);
    match chain_from(bytes, loads, entry.value, offset) {
        Some(n) => Ok(u64::from(symbol) + n as u64),
        None => Err(broken(ElfPart::Symbols, entry.at + 8)),
    }
}

/// How many words the chain has that begins at an address, `offset` past another, and ends in the same load.
fn chain_from(bytes: &[u8], loads: &[Load], addr: u64, offset: u64) -> Option<usize>
    requires { AreSound (length bytes.now) loads.now }
    ensures chain { result
        ≡ option_and_then definition.chain_length
        (bytes_from bytes.now (map load_of loads.now) (addr + offset)) }
    ensures within { IfSome result (λ n. 4 * n ≤ length bytes.now) }
{
    let range = range_from(bytes, loads, addr, offset)?;
    chain_length(&bytes[range.start..range.end])
}

/// How many words of a chain there are up to the one that ends it, which is odd.
fn chain_length(chain: &[u8]) -> Option<usize>
    ensures length { result ≡ definition.chain_length chain.now }
    ensures within { IfSome result (λ n. 4 * n ≤ length chain.now) }
{
    for k in 0..chain.len() / 4 {
        if number32(chain, 4 * k) % 2 == CHAIN_END {
            return Some(k + 1);
        }
    }
    None
}
