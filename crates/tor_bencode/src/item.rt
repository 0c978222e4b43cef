//! Bencode values in memory (BEP 3, "bencoding").

/// A bencode value, which owns its bytes. Pairs stand in the order in which they are spelled.
#[derive(Debug, Drop)]
pub enum Item {
    Int(i64),
    Bytes(Vec<u8>),
    List(Vec<Item>),
    Dict(Vec<(Vec<u8>, Item)>),
}
