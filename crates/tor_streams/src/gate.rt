//! What workers of a lane pass on their way.

/// Is passed by a worker once for each chunk, after it took it and before it hashes it: for tests that want to know
/// how many workers are there at once. In the program it is `OpenGate`.
pub trait Gate: Sync {
    /// A worker took the chunk of this number.
    fn enter(&self, unit: u64);
}

/// Lets every worker pass.
#[derive(Drop)]
pub(crate) struct OpenGate;

impl Gate for OpenGate {
    fn enter(&self, _unit: u64) {}
}
