//! Which fault of the program a step's fault is.
ghost use Rattle.std.specs.Prelude.{◌≡◌};
ghost use Rattle.tor_cli.specs.Status.{of_input_fault, of_make_error, of_name_error, of_piece_error, of_recheck_error};
ghost use Rattle.tor_cli.specs.Status.{of_list_error, of_paths_fault, of_plan_error, of_refusal, of_scan_fault};
ghost use Rattle.tor_cli.specs.Status.{of_report_fault, of_step_fault};
ghost use Rattle.tor_cli.specs.declared.fault.Fault.TheVariants.{Argument, Write, Resources};

use crate::fault::Fault;
use crate::make::paths_text::PathsFault;
use crate::proof::claim::ArgumentFault;
use crate::unwritten::Unwritten;
use std::alloc::{AllocError, AllocFailed};
use std::io;
use tor_check::{ProveError, Refusal};
use tor_engine::EngineError;
use tor_meta::{FromFault, MakeError, PlanError};
use tor_recheck::RecheckError;
use tor_report::ReportFault;
use tor_source::{InputFault, ScanFault};
use tor_spec::WriteFault;
use tor_tree::{ListError, NameError};

impl From<InputFault> for Fault {
    ghost from_gives = { λ fault e. e ≡ of_input_fault fault };

    fn from(fault: InputFault) -> Fault {
        match fault {
            InputFault::Read(fault) => Fault::Read(fault),
            InputFault::TooLong => Fault::TooLong,
            InputFault::Memory => Fault::Resources,
        }
    }
}

impl From<NameError> for Fault {
    ghost from_gives = { λ fault e. e ≡ of_name_error fault };

    fn from(fault: NameError) -> Fault {
        match fault {
            NameError::Memory => Fault::Resources,
            fault => Fault::Name(fault),
        }
    }
}

impl From<ScanFault> for Fault {
    ghost from_gives = { λ fault e. e ≡ of_scan_fault fault };

    fn from(fault: ScanFault) -> Fault {
        match fault {
            ScanFault::Memory => Fault::Resources,
            fault => Fault::Scan(fault),
        }
    }
}

impl From<MakeError<io::Error>> for Fault {
    ghost from_gives = { λ error e. e ≡ of_make_error error };

    fn from(error: MakeError<io::Error>) -> Fault {
        match error {
            MakeError::Hashing(EngineError::Resources) => Fault::Resources,
            error => Fault::Make(error),
        }
    }
}

impl From<Refusal> for Fault {
    ghost from_gives = { λ refusal e. e ≡ of_refusal refusal };

    fn from(refusal: Refusal) -> Fault {
        match refusal {
            Refusal::Memory => Fault::Resources,
            refusal => Fault::Refused(refusal),
        }
    }
}

impl From<ProveError> for Fault {
    ghost from_gives = { λ error e. e ≡ of_piece_error error };

    fn from(error: ProveError) -> Fault {
        match error {
            ProveError::Memory => Fault::Resources,
            error => Fault::Piece(error),
        }
    }
}

impl From<PlanError> for Fault {
    ghost from_gives = { λ error e. e ≡ of_plan_error error };

    fn from(error: PlanError) -> Fault {
        match error {
            PlanError::Memory => Fault::Resources,
            error => Fault::Plan(error),
        }
    }
}

impl From<RecheckError<io::Error>> for Fault {
    ghost from_gives = { λ error e. e ≡ of_recheck_error error };

    fn from(error: RecheckError<io::Error>) -> Fault {
        match error {
            RecheckError::Resources => Fault::Resources,
            error => Fault::Recheck(error),
        }
    }
}

impl From<ArgumentFault> for Fault {
    ghost from_gives = { λ fault e. e ≡ Argument fault };

    fn from(fault: ArgumentFault) -> Fault {
        Fault::Argument(fault)
    }
}

impl From<PathsFault> for Fault {
    ghost from_gives = { λ fault e. e ≡ of_paths_fault fault };

    fn from(fault: PathsFault) -> Fault {
        match fault {
            PathsFault::Name(fault) => Fault::Name(fault),
            PathsFault::Unended => Fault::Argument(ArgumentFault::Files),
            PathsFault::Memory => Fault::Resources,
        }
    }
}

impl From<ListError> for Fault {
    ghost from_gives = { λ fault e. e ≡ of_list_error fault };

    fn from(fault: ListError) -> Fault {
        match fault {
            ListError::Memory => Fault::Resources,
            fault => Fault::Make(MakeError::List(fault)),
        }
    }
}

impl From<FromFault> for Fault {
    ghost from_gives = { λ fault e. e ≡ of_step_fault fault };

    fn from(fault: FromFault) -> Fault {
        match fault {
            FromFault::Input(fault) => Fault::from(fault),
            FromFault::Make(error) => Fault::from(error),
            FromFault::Write(fault) => Fault::from(fault),
        }
    }
}

impl From<WriteFault> for Fault {
    ghost from_gives = { λ fault e. e ≡ Write fault.written };

    fn from(fault: WriteFault) -> Fault {
        Fault::Write(Unwritten::of(fault))
    }
}

impl From<ReportFault> for Fault {
    ghost from_gives = { λ fault e. e ≡ of_report_fault fault };

    fn from(fault: ReportFault) -> Fault {
        match fault {
            ReportFault::Memory => Fault::Resources,
            ReportFault::Write(fault) => Fault::from(fault),
        }
    }
}

impl From<AllocError> for Fault {
    ghost from_gives = { λ _ e. e ≡ Resources };

    fn from(_error: AllocError) -> Fault {
        Fault::Resources
    }
}

impl<T: Drop> From<AllocFailed<T>> for Fault {
    ghost from_gives = { λ _ e. e ≡ Resources };

    fn from(_failed: AllocFailed<T>) -> Fault {
        Fault::Resources
    }
}
