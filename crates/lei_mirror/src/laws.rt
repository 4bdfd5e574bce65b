//! Laws of the definitions, each as the contract of a function that does nothing.
ghost use Rattle.std.specs.Prelude.{◌≡◌, ◌<◌, ◌^◌, length};
ghost use Rattle.lei_code.specs.Texts.{Text};
ghost use Rattle.register_words.specs.declared.sheets.Sheet.{Sheet};
ghost use Rattle.lei_mirror.specs.declared.packet.Packet.{Packet};
ghost use Rattle.lei_mirror.specs.declared.packet.PacketKind.{PacketKind};
ghost use Rattle.lei_mirror.specs.Mirrors.{MirrorState, TakesPacket};
ghost use Rattle.lei_mirror.specs.Packets.{IsPacket};

/// Bytes are at most one packet of a kind and a sheet. The law covers fewer than 2^64 bytes; bytes in memory are always
/// fewer.
pub fn bytes_spell_one_packet()
    ensures { (kind : PacketKind) (sheet : Sheet) (bytes : Text) (packet other : Packet)
        → length bytes < 2 ^ 64 → IsPacket kind sheet bytes packet → IsPacket kind sheet bytes other
        → packet ≡ other }
{}

/// When a mirror takes a packet, only one mirror can result: how far it moves depends only on what it shows and keeps.
pub fn packets_are_taken_in_one_way()
    ensures { (state : MirrorState) (packet : Packet) (taken other : MirrorState)
        → TakesPacket state packet taken → TakesPacket state packet other → taken ≡ other }
{}
