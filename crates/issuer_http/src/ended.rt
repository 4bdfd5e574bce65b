//! How serving a connection ends.

/// Why serving a connection ended.
#[derive(Clone, Copy, Debug, PartialEq, Eq)]
pub enum Ended {
    /// The input ended, or a request that asks to close was answered.
    Closed,
    /// A read failed.
    ReadFault,
    /// A write failed.
    WriteFault,
    /// A head was refused, and that was answered.
    BadHead,
    /// The connection took 1,073,741,824 bytes.
    InputLimit,
    /// Memory ran out.
    NoMemory,
}

/// How a request ends its connection.
#[derive(Clone, Copy, Debug, PartialEq, Eq, Drop)]
pub enum HttpEnd {
    /// It asks to close.
    Closed,
    /// Its head is refused.
    BadHead,
}
