//! The statuses that the program ends with.
ghost use Rattle.std.specs.Prelude.{◌≡◌};
ghost use Rattle.register_words.specs.ExitStatuses.{exit_of, exit_number, exit_name};

/// How the program ends. This project's profile.
#[derive(Clone, Copy, Debug, PartialEq, Eq)]
pub enum ExitStatus {
    /// The input was read to its end, and all was written.
    Ok,
    /// The words aren't a command.
    Usage,
    /// A text was refused, and the refusal was written.
    Refused,
    /// The source failed.
    ReadFault,
    /// The sink failed.
    WriteFault,
    /// A call of the keeper failed while its store was opened.
    KeeperFault,
    /// The program ran out of memory.
    NoMemory,
    /// What the keeper has isn't what a history leaves, and the first difference was written.
    StoreDamaged,
    /// The input reached the length that every input must stay below.
    InputTooLong,
    /// A door failed.
    DoorFault,
}

impl ExitStatus {
    /// The status as the operating system receives it.
    pub fn number(self) -> u8
        ensures { result ≡ exit_number self }
    {
        match self {
            ExitStatus::Ok => 0,
            ExitStatus::Usage => 1,
            ExitStatus::Refused => 2,
            ExitStatus::ReadFault => 3,
            ExitStatus::WriteFault => 4,
            ExitStatus::KeeperFault => 5,
            ExitStatus::NoMemory => 6,
            ExitStatus::StoreDamaged => 7,
            ExitStatus::InputTooLong => 8,
            ExitStatus::DoorFault => 9,
        }
    }

    /// The status with this number, if there is one.
    pub fn of(number: u8) -> Option<Self>
        ensures { result ≡ exit_of number }
    {
        match number {
            0 => Some(ExitStatus::Ok),
            1 => Some(ExitStatus::Usage),
            2 => Some(ExitStatus::Refused),
            3 => Some(ExitStatus::ReadFault),
            4 => Some(ExitStatus::WriteFault),
            5 => Some(ExitStatus::KeeperFault),
            6 => Some(ExitStatus::NoMemory),
            7 => Some(ExitStatus::StoreDamaged),
            8 => Some(ExitStatus::InputTooLong),
            9 => Some(ExitStatus::DoorFault),
            _ => None,
        }
    }

    /// Its word, as a person reads it.
    pub fn name(self) -> &'static str
        ensures { result.now ≡ exit_name self }
    {
        match self {
            ExitStatus::Ok => "OK",
            ExitStatus::Usage => "USAGE",
            ExitStatus::Refused => "REFUSED",
            ExitStatus::ReadFault => "READ_FAULT",
            ExitStatus::WriteFault => "WRITE_FAULT",
            ExitStatus::KeeperFault => "KEEPER_FAULT",
            ExitStatus::NoMemory => "NO_MEMORY",
            ExitStatus::StoreDamaged => "STORE_DAMAGED",
            ExitStatus::InputTooLong => "INPUT_TOO_LONG",
            ExitStatus::DoorFault => "DOOR_FAULT",
        }
    }
}
