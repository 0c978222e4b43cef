//! Foreign torrents read and judged, and the hashing that judging piece layers cannot do without.
use crate::clock::{micros_since, now, told};
use std::io::{Read, Result};
use tor_bencode::decode;
use tor_check::{Refusal, validate};
use tor_merkle::{Hash, pair};

/// All that standard input has.
fn input(rt: &HostRuntime) -> Result<Vec<u8>> {
    let mut bytes = Vec::new(rt.alloc());
    rt.stdin().read_to_end(&mut bytes)?;
    Ok(bytes)
}

/// Prints whether standard input decodes, as 1 or 0, and the microseconds that it took to tell.
pub fn decoded(rt: &HostRuntime) -> Result<()> {
    let bytes = input(rt)?;
    let start = now(rt);
    let decodes = decode(rt.alloc(), &bytes).is_ok();
    told(rt, &[decodes as u128, micros_since(rt, start)])
}

/// The microseconds that it takes to judge bytes, and why they are no torrent.
fn judgement(rt: &HostRuntime, bytes: &[u8]) -> (u128, Option<Refusal>) {
    let start = now(rt);
    let answer = validate(rt.alloc(), bytes);
    let taken = micros_since(rt, start);
    (taken, answer.err())
}

/// Prints the microseconds that it took to judge standard input, and why it is no torrent, or `ok`.
pub fn judged(rt: &HostRuntime) -> Result<()> {
    let (taken, refusal) = judgement(rt, &input(rt)?);
    told(rt, &[taken])?;
    match refusal {
        None => println!(rt; "ok"),
        Some(refusal) => println!(rt; "{refusal}"),
    }
}

/// The first byte of what so many calls of `pair` join.
fn joined(count: usize) -> u8 {
    let mut hash: Hash = [0; 32];
    for _ in 0..count {
        hash = pair(&hash, &hash);
    }
    let [first, ..] = hash;
    first
}

/// Prints the microseconds that so many calls of `pair` take.
pub fn paired(rt: &HostRuntime, count: usize) -> Result<()> {
    let start = now(rt);
    let first = joined(count);
    told(rt, &[micros_since(rt, start), first as u128])
}
