// The calls of the chip that are lent no memory (paper 01, "Registers", "Host and transfers"). Arguments are wider than their ranges, so
// that any number can be handed over and gets its refusal.
#![tactic(auto)]

use sector::Address;

// PacketByte reads a byte of a full packet, PacketWord gives a word to one that is being received.
#[derive(Clone, Copy)]
pub enum Call {
    Write(u16, u16),
    Read(u16),
    SetBlock(u16),
    SetWindow(u16, u16),
    SetExpected(Address),
    PacketByte(u16),
    Reset,
    Command(u16),
    PacketWord(u16),
    Status,
    Srst,
}
