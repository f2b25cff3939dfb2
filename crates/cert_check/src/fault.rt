//! Why a certificate is refused.

use brake_base::Reason;
use plan_cert::CertFault;
use std::alloc::{AllocError, AllocFailed};

/// Why a step isn't legal.
#[derive(Clone, Copy, Debug, PartialEq, Eq)]
pub enum StepFault {
    /// Its bend is folded already.
    AlreadyFolded,
    /// Its bend isn't the least of its group.
    NotLead,
    /// A reason other than that there is no gauge holds against it.
    Hit(Reason),
    /// Its gauge isn't legal.
    BadGauge,
}

/// Why a certificate is refused.
#[derive(Clone, Copy, Debug, PartialEq, Eq)]
pub enum CheckFault {
    /// The text isn't that of a certificate.
    Cert(CertFault),
    /// The step of this index isn't legal.
    BadStep { index: u8, fault: StepFault },
    /// The steps don't cost what is claimed.
    BadCost,
    /// A noted reason doesn't hold.
    BadReason { row: u32, action: u8 },
    /// An action without a note isn't closed.
    NotClosed { row: u32, action: u8 },
    /// The rows prove less than what is claimed.
    TooLow,
    NoMemory,
    /// The steps leave a bend unfolded.
    Unfinished,
}

impl From<CertFault> for CheckFault {
    ghost use Rattle.std.specs.Prelude.{◌≡◌};
    ghost use Rattle.cert_check.specs.declared.fault.CheckFault.TheVariants.{Cert};

    ghost from_gives = { λ read fault. fault ≡ Cert read };

    fn from(fault: CertFault) -> Self {
        CheckFault::Cert(fault)
    }
}

impl From<AllocError> for CheckFault {
    ghost use Rattle.std.specs.Prelude.{◌≡◌};
    ghost use Rattle.cert_check.specs.declared.fault.CheckFault.TheVariants.{NoMemory};

    ghost from_gives = { λ _ fault. fault ≡ NoMemory };

    fn from(_: AllocError) -> Self {
        CheckFault::NoMemory
    }
}

impl<T: Drop> From<AllocFailed<T>> for CheckFault {
    ghost use Rattle.std.specs.Prelude.{◌≡◌};
    ghost use Rattle.cert_check.specs.declared.fault.CheckFault.TheVariants.{NoMemory};

    ghost from_gives = { λ _ fault. fault ≡ NoMemory };

    fn from(_: AllocFailed<T>) -> Self {
        CheckFault::NoMemory
    }
}
