//! What the faults of the crates below are for the program.

ghost use Rattle.std.specs.Prelude.{◌≡◌};
ghost use Rattle.sporc_base.specs.Outcome.{Gives};
ghost use Rattle.sporc_files.specs.Faults.{fault_of_draw, fault_of_hints, fault_of_line};
ghost use Rattle.sporc_files.specs.Faults.{fault_of_saving, fault_of_words, first_fault};
ghost use Rattle.sporc_files.specs.Faults.{unless_stopped};
ghost use Rattle.sporc_files.specs.declared.fault.Fault.TheVariants as faults;

use crate::fault::Fault;
use crate::file::File;
use sporc_epoch::HintFault;
use sporc_keys::DrawFault;
use sporc_line::LineOpenFault;
use sporc_outside::Failed;
use sporc_store::{SaveFault, Stop};
use sporc_words::WordsFault;
use std::alloc::{AllocError, AllocFailed};

impl From<AllocError> for Fault {
    ghost from_gives = { λ _ fault. fault ≡ faults.Memory };

    fn from(_: AllocError) -> Fault {
        Fault::Memory
    }
}

impl<T: Drop> From<AllocFailed<T>> for Fault {
    ghost from_gives = { λ _ fault. fault ≡ faults.Memory };

    fn from(_: AllocFailed<T>) -> Fault {
        Fault::Memory
    }
}

impl From<Failed> for Fault {
    ghost from_gives = { λ _ fault. fault ≡ faults.Outside };

    fn from(_: Failed) -> Fault {
        Fault::Outside
    }
}

impl From<DrawFault> for Fault {
    ghost from_gives = { λ cause fault. fault ≡ fault_of_draw cause };

    fn from(cause: DrawFault) -> Fault {
        match cause {
            DrawFault::Chance => Fault::Outside,
            DrawFault::Memory => Fault::Memory,
        }
    }
}

impl From<SaveFault> for Fault {
    ghost from_gives = { λ cause fault. fault ≡ fault_of_saving cause };

    fn from(cause: SaveFault) -> Fault {
        match cause {
            SaveFault::Memory => Fault::Memory,
            SaveFault::TooLong(_) => Fault::FullFile,
        }
    }
}

impl From<WordsFault> for Fault {
    ghost from_gives = { λ cause fault. fault ≡ fault_of_words cause };

    fn from(cause: WordsFault) -> Fault {
        match cause {
            WordsFault::Memory => Fault::Memory,
            WordsFault::Words => Fault::Words,
        }
    }
}

impl From<LineOpenFault> for Fault {
    ghost from_gives = { λ cause fault. fault ≡ fault_of_line cause };

    fn from(cause: LineOpenFault) -> Fault {
        match cause {
            LineOpenFault::NoKey => Fault::Opening(LineOpenFault::NoKey),
            LineOpenFault::WrongKey => Fault::Opening(LineOpenFault::WrongKey),
            LineOpenFault::Memory => Fault::Memory,
        }
    }
}

impl From<HintFault> for Fault {
    ghost from_gives = { λ cause fault. fault ≡ fault_of_hints cause };

    fn from(cause: HintFault) -> Fault {
        match cause {
            HintFault::NotAdded => Fault::Hints(HintFault::NotAdded),
            HintFault::NoPairKey(member) => Fault::Hints(HintFault::NoPairKey(member)),
            HintFault::WrongKey(epoch) => Fault::Hints(HintFault::WrongKey(epoch)),
            HintFault::Memory => Fault::Memory,
        }
    }
}

/// Whether a saved history was read or loaded to its end; if not, why.
pub fn stopped(file: File, stop: Stop) -> Result<(), Fault>
    ensures value { Gives (λ done. done) result (unless_stopped file stop tt) }
{
    match stop {
        Stop::End => Ok(()),
        Stop::Foreign => Err(Fault::Malformed(file, 0)),
        Stop::Cut(at) => Err(Fault::Malformed(file, at as u64)),
        Stop::Refused(position, refusal) => Err(Fault::Refused(position, refusal)),
    }
}

/// The first of two faults, but for out of memory at the second: this is told, so that nothing is
/// lost unseen behind another fault.
pub fn first_fault(first: Result<(), Fault>, second: Result<(), Fault>) -> Result<(), Fault>
    ensures value { result ≡ first_fault first second }
{
    let Err(fault) = first else {
        return second;
    };
    match second {
        Err(Fault::Memory) => second,
        Ok(()) | Err(_) => Err(fault),
    }
}
