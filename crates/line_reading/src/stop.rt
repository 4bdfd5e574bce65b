//! Why a command stops, and the status that it ends with.
ghost use Rattle.std.specs.Prelude.{◌≡◌};
ghost use Rattle.line_reading.specs.Status.{ended_as, stop_status};

use crate::framing::NoEnd;
use lei_outside::{Failed, SinkFault};
use lei_values::NoMemory;
use register_words::ExitStatus;
use request_loop::Ended;

/// A run over lines ends at this number of input bytes. This project's profile.
pub const MAX_INPUT: usize = 4_294_967_296;

/// Why a command ends with a status other than `ExitStatus::Ok`.
pub enum Stop {
    Refused,
    ReadFault,
    WriteFault,
    KeeperFault,
    NoMemory,
    StoreDamaged,
    InputTooLong,
}

impl Stop {
    pub fn status(self) -> u8
        ensures { result ≡ stop_status self }
    {
        match self {
            Stop::Refused => ExitStatus::Refused.number(),
            Stop::ReadFault => ExitStatus::ReadFault.number(),
            Stop::WriteFault => ExitStatus::WriteFault.number(),
            Stop::KeeperFault => ExitStatus::KeeperFault.number(),
            Stop::NoMemory => ExitStatus::NoMemory.number(),
            Stop::StoreDamaged => ExitStatus::StoreDamaged.number(),
            Stop::InputTooLong => ExitStatus::InputTooLong.number(),
        }
    }
}

impl From<Failed> for Stop {
    ghost use Rattle.line_reading.specs.declared.stop.Stop.TheVariants.{ReadFault};

    ghost from_gives = { λ _ stop. stop ≡ ReadFault };

    fn from(_: Failed) -> Self {
        Stop::ReadFault
    }
}

impl From<SinkFault> for Stop {
    ghost use Rattle.line_reading.specs.Status.{stop_of};

    ghost from_gives = { λ fault stop. stop ≡ stop_of fault };

    fn from(fault: SinkFault) -> Self {
        match fault {
            SinkFault::Failed => Stop::WriteFault,
            SinkFault::NoMemory => Stop::NoMemory,
        }
    }
}

impl From<NoMemory> for Stop {
    ghost use Rattle.line_reading.specs.declared.stop.Stop.TheVariants as stop;

    ghost from_gives = { λ _ e. e ≡ stop.NoMemory };

    fn from(_: NoMemory) -> Self {
        Stop::NoMemory
    }
}

/// Why a command stops, by how serving its lines ended.
pub fn ended_as(ended: Ended<NoEnd>) -> Result<(), Stop>
    ensures { result ≡ ended_as ended }
{
    match ended {
        Ended::AtEnd => Ok(()),
        Ended::By(end) => match end {},
        Ended::ReadFault => Err(Stop::ReadFault),
        Ended::WriteFault => Err(Stop::WriteFault),
        Ended::InputLimit => Err(Stop::InputTooLong),
        Ended::NoMemory => Err(Stop::NoMemory),
    }
}
