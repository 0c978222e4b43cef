//! Why a report was not written whole.
ghost use Rattle.std.specs.Prelude.{◌≡◌};
ghost use Rattle.tor_report.specs.declared.fault.ReportFault.TheVariants.{Memory, Write};

use std::alloc::AllocError;
use tor_spec::WriteFault;

/// Why a report was not written whole.
#[derive(Debug, Drop)]
pub enum ReportFault {
    /// Memory was refused, and nothing was written.
    Memory,
    /// The writer took no more.
    Write(WriteFault),
}

impl From<AllocError> for ReportFault {
    ghost from_gives = { λ _ e. e ≡ Memory };

    fn from(_error: AllocError) -> ReportFault {
        ReportFault::Memory
    }
}

impl From<WriteFault> for ReportFault {
    ghost from_gives = { λ fault e. e ≡ Write fault };

    fn from(fault: WriteFault) -> ReportFault {
        ReportFault::Write(fault)
    }
}
