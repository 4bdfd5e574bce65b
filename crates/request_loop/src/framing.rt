//! How bytes are cut into frames, and how replies are written.
ghost use Rattle.std.specs.Prelude.{◌≡◌, ℕ, List, [], ◌++◌, Option, OnOk, IsErrOf};
ghost use Rattle.lei_outside.specs.Faults.{FailsLast};
ghost use Rattle.lei_outside.specs.Links.{link_told};
ghost use Rattle.request_loop.specs.Frames.{ReadsFront, Rules};
ghost use Rattle.request_loop.specs.Wires.{IsSent};
ghost use Rattle.request_loop.specs.declared.frames.Want.{Want};

use crate::frames::{Front, Want};
use crate::wire::Wire;
use lei_outside::SinkFault;

/// A framing: how bytes are cut into frames, what each frame wants, and what is written for a reply.
pub trait Framing {
    type Asked: Drop;

    type Reply: Drop;
    /// How a frame may end a session.
    type End: Drop;

    /// What a whole frame is, and the bytes of a reply.
    ghost rules: { Rules Self.Asked Self.Reply Self.End };

    /// The first list is what is held of the second, the bytes since the last frame.
    ghost holds: { Self → List ℕ → List ℕ → Type 0 };

    /// The bytes of the replies to frames that the framing itself refused. They wait to be sent.
    ghost waiting: { Self → List ℕ };

    /// Reads what is at the front of the bytes.
    fn front(&mut self, held: &[u8]) -> Front<Self::Asked, Self::End>
        requires none_waits { waiting self.old ≡ [] }
        requires held { (bytes : List ℕ) × holds self.old held.now bytes }
        ensures { (bytes : List ℕ) → holds self.old held.now bytes
            → ReadsFront rules (holds self.new) (waiting self.new) bytes held.now result };

    /// Reads what is left when the input ends.
    fn last(&mut self, held: &[u8]) -> Option<Want<Self::Asked, Self::End>>
        requires { (bytes : List ℕ) × holds self.old held.now bytes }
        ensures { (bytes : List ℕ) → holds self.old held.now bytes → rules.ends bytes result };

    /// Writes a reply to what was wanted. After an `Err`, only a proper prefix of it was written.
    fn send<L: Wire>(
        &mut self,
        want: &Want<Self::Asked, Self::End>,
        reply: &Self::Reply,
        link: &mut L,
    ) -> Result<(), SinkFault>
        ensures sent { IsSent (L.written link.old) (L.written link.new)
            (rules.text want.now reply.now) result }
        ensures kept { ¬ (IsErrOf result SinkFault.Failed)
            → L.write_faults link.new ≡ L.write_faults link.old }
        ensures failed { IsErrOf result SinkFault.Failed →
            FailsLast (link_told L.left L.written) L.write_faults link.old link.new }
        ensures left { L.left link.new ≡ L.left link.old }
        ensures read_count { L.read_faults link.new ≡ L.read_faults link.old }
        ensures wire { L.lends_same link.old link.new }
        ensures holds { (held bytes : List ℕ) → holds self.old held bytes → holds self.new held bytes }
        ensures waiting { waiting self.new ≡ waiting self.old };

    /// Writes the replies that wait. After an `Err`, only a proper prefix of them was written.
    fn send_refused<L: Wire>(&mut self, link: &mut L) -> Result<(), SinkFault>
        ensures sent { IsSent (L.written link.old) (L.written link.new) (waiting self.old) result }
        ensures kept { ¬ (IsErrOf result SinkFault.Failed)
            → L.write_faults link.new ≡ L.write_faults link.old }
        ensures failed { IsErrOf result SinkFault.Failed →
            FailsLast (link_told L.left L.written) L.write_faults link.old link.new }
        ensures left { L.left link.new ≡ L.left link.old }
        ensures read_count { L.read_faults link.new ≡ L.read_faults link.old }
        ensures wire { L.lends_same link.old link.new }
        ensures holds { (held bytes : List ℕ) → holds self.old held bytes → holds self.new held bytes }
        ensures none_waits { OnOk result (waiting self.new ≡ []) };

    /// A whole frame stays whole if more bytes follow it.
    ghost whole_on: { (bytes rest more : List ℕ) (frame : Option (Want Self.Asked Self.End))
        → rules.whole bytes frame rest → rules.whole (bytes ++ more) frame (rest ++ more) };
}
