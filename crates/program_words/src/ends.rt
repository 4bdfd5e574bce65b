//! The report to a person on how the program ended.
use register_words::ExitStatus;

/// What happened, in one line.
pub fn cause(status: ExitStatus) -> &'static str {
    match status {
        ExitStatus::Ok => "all was done",
        ExitStatus::Usage => "the words are no command of this program",
        ExitStatus::Refused => "the text or the files are refused",
        ExitStatus::ReadFault =>
            "an input could not be read; of the lines of the standard input, those that had ended were answered",
        ExitStatus::WriteFault =>
            "the standard output could not be written; what it took may end inside a reply",
        ExitStatus::KeeperFault => "the store could not be read",
        ExitStatus::NoMemory =>
            "there was too little memory; what was written may end inside a reply",
        ExitStatus::StoreDamaged => "the store is not what its entries come to",
        ExitStatus::InputTooLong => "an input is too long",
        ExitStatus::DoorFault => "no connection could be taken",
    }
}

/// What to do about it, in one line. How a command is called is explained in its own help.
pub fn advice(status: ExitStatus) -> &'static str {
    match status {
        ExitStatus::Ok | ExitStatus::Usage => "run it again",
        ExitStatus::Refused => "read on the standard output what is wrong with them",
        ExitStatus::ReadFault => "see that the files are there and may be read",
        ExitStatus::WriteFault => "send the lines again, to an output that takes the replies",
        ExitStatus::KeeperFault =>
            "see that its folder is there, that the file may be written, and that no other program has it open",
        ExitStatus::NoMemory => "give the program more memory",
        ExitStatus::StoreDamaged =>
            "put back a copy of it from before; with lines the standard output tells the first difference",
        ExitStatus::InputTooLong =>
            "part it: lines may have 4294967295 bytes in all, and a file 1073741823",
        ExitStatus::DoorFault =>
            "see that the port is free, or take port 0, for which the machine chooses one",
    }
}
