//! A place of a source that could not be read.
ghost use Rattle.std.specs.Prelude.{◌≡◌, ◌++◌, ◌∷◌, [], IfOk, MatchResult, OnOk, Some};
ghost use Rattle.tor_engine.specs.Readable.{error_of_fault, read_faults};
ghost use Rattle.tor_engine.specs.steps.Readable.{listed};

use std::alloc::{AllocError, Global};
use tor_sums::EngineError;

/// A place of a source that could not be read: the length of a file, or a byte of it. A file is named by its index in
/// the plan.
#[derive(Debug, Drop)]
pub struct ReadFault<F> {
    pub file: u64,
    /// The offset of the byte; none of a length.
    pub start: Option<u64>,
    /// Why, as the source told.
    pub fault: F,
}

/// One fault by itself.
pub(crate) fn one_fault<F: Drop>(
    alloc: Global,
    fault: ReadFault<F>,
) -> Result<Vec<ReadFault<F>>, AllocError>
    ensures { IfOk result (λ faults. faults.items ≡ fault ∷ []) }
{
    let mut faults = Vec::new(alloc);
    faults.push(fault)?;
    Ok(faults)
}

/// Adds a fault, if there is one.
pub(crate) fn add_fault<F: Drop>(
    faults: &mut Vec<ReadFault<F>>,
    found: Option<ReadFault<F>>,
) -> Result<(), AllocError>
    ensures { OnOk result (faults.new.items ≡ faults.old.items ++ listed found) }
{
    if let Some(fault) = found {
        faults.push(fault)?;
    }
    Ok(())
}

/// An error as the fault of a read, or the error, if it is none.
pub(crate) fn as_read_fault<F: Drop>(error: EngineError<F>) -> Result<ReadFault<F>, EngineError<F>>
    ensures { MatchResult result (λ fault. error ≡ error_of_fault fault)
        (λ other. (other ≡ error) × (read_faults (Some error) ≡ [])) }
{
    match error {
        EngineError::Read { file, start, fault } => Ok(ReadFault { file, start, fault }),
        EngineError::Changed { file } => Err(EngineError::Changed { file }),
        EngineError::Missing { file } => Err(EngineError::Missing { file }),
        EngineError::Resources => Err(EngineError::Resources),
        EngineError::StreamTooLong { file } => Err(EngineError::StreamTooLong { file }),
    }
}
