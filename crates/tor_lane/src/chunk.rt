//! What goes through a lane.

/// The bytes of a unit, under its number, and how many zeros follow them.
#[derive(Drop)]
pub struct Chunk {
    pub unit: u64,
    pub bytes: Vec<u8>,
    pub zeros: u64,
}

/// A chunk, or the mark at which a taker stops.
#[derive(Drop)]
pub enum Message {
    More(Chunk),
    Mark,
}
