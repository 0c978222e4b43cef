//! Plain hashing of an input or of files, beside which the scripts set what the crates do with them.
use sha1::Sha1;
use sha2::{Digest, Sha256};
use std::fs;
use std::io::{Read, Result};
use tor_source::zeros;

const MAX_CUT: usize = 1 << 24;

/// Which hashes are taken.
#[derive(Clone, Copy)]
pub enum Hashes {
    Sha1,
    Sha256,
    Both,
}

/// The hashes that each part is added to.
#[derive(Drop)]
struct Hashers {
    sha1: Option<Sha1>,
    sha256: Option<Sha256>,
}

fn hashers_of(hashes: Hashes) -> Hashers {
    match hashes {
        Hashes::Sha1 => Hashers {
            sha1: Some(Sha1::new()),
            sha256: None,
        },
        Hashes::Sha256 => Hashers {
            sha1: None,
            sha256: Some(Sha256::new()),
        },
        Hashes::Both => Hashers {
            sha1: Some(Sha1::new()),
            sha256: Some(Sha256::new()),
        },
    }
}

/// Hashes all that standard input has, in reads of so many bytes.
pub fn input_hashed(rt: &HostRuntime, hashes: Hashes, cut: usize) -> Result<()> {
    let mut buffer = zeros(rt.alloc(), cut.min(MAX_CUT))?;
    let mut hashers = hashers_of(hashes);
    add_all(&mut rt.stdin(), &mut buffer, &mut hashers)?;
    finish(hashers);
    Ok(())
}

/// Hashes the files whose places standard input has, one a line, as one content, in reads of so many bytes.
pub fn files_hashed(rt: &HostRuntime, hashes: Hashes, cut: usize) -> Result<()> {
    let mut places = String::new(rt.alloc());
    rt.stdin().read_to_string(&mut places)?;
    let mut buffer = zeros(rt.alloc(), cut.min(MAX_CUT))?;
    add_files(rt, &places, &mut buffer, hashers_of(hashes))
}

fn add_files(
    rt: &HostRuntime,
    places: &str,
    buffer: &mut [u8],
    mut hashers: Hashers,
) -> Result<()> {
    for place in places.lines() {
        add_all(&mut fs::open(rt, place)?, buffer, &mut hashers)?;
    }
    finish(hashers);
    Ok(())
}

fn add_all<R: Read>(reader: &mut R, buffer: &mut [u8], hashers: &mut Hashers) -> Result<()> {
    for _ in 0..u64::MAX {
        let count = reader.read(buffer)?;
        if count == 0 {
            break;
        }
        add(&buffer[..count], hashers);
    }
    Ok(())
}

fn add(bytes: &[u8], hashers: &mut Hashers) {
    if let Some(hasher) = &mut hashers.sha1 {
        hasher.update(bytes);
    }
    if let Some(hasher) = &mut hashers.sha256 {
        hasher.update(bytes);
    }
}

fn finish(hashers: Hashers) {
    if let Some(hasher) = hashers.sha1 {
        let _sha1: [u8; 20] = hasher.finalize();
    }
    if let Some(hasher) = hashers.sha256 {
        let _sha256: [u8; 32] = hasher.finalize();
    }
}
