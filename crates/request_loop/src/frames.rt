//! What a framing reads in bytes, and how serving ends.

/// What a frame wants: what it asks, and how the session ends after the reply to it, if the session ends.
#[derive(Drop)]
pub struct Want<W, E> {
    pub asked: W,
    pub ends: Option<E>,
}

/// What is at the front of the bytes that are held.
#[derive(Drop)]
pub enum Front<W, E> {
    /// No whole frame. This many of the held bytes aren't needed any more, and more bytes have to be read.
    More(usize),
    /// This many held bytes belong to whole frames that the framing itself refuses or that ask nothing. The framing has
    /// the bytes of the replies, which wait to be sent.
    Refused(usize),
    /// A whole frame that ends after this many held bytes, and what it wants, if anything.
    Whole(Option<Want<W, E>>, usize),
}

/// Why serving ended.
#[derive(Drop)]
pub enum Ended<E> {
    /// The input ended, and all of it was answered.
    AtEnd,
    /// A frame that ends the session in this way was answered.
    By(E),
    /// A read failed.
    ReadFault,
    /// A write failed.
    WriteFault,
    /// The session's limit of bytes was read.
    InputLimit,
    /// Memory ran out.
    NoMemory,
}
