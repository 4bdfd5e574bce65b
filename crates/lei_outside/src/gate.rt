// What an upload passes between its judging and its turn.

/// A device that may hold up an upload. What it does has no effect on the answers.
pub trait Gate {
    /// Lets the upload of this issuer and number pass. `ahead` is how many of its items were accepted when it was
    /// judged, or `None` if it wasn't judged yet.
    fn between(&self, office: &[u8; 20], number: u32, ahead: Option<u32>);
}

/// A gate that holds up nothing.
#[derive(Clone, Copy, Debug, PartialEq, Eq)]
pub struct OpenGate;

impl Gate for OpenGate {
    fn between(&self, _office: &[u8; 20], _number: u32, _ahead: Option<u32>) {}
}
