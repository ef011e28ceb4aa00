// The calls that touch no memory: one call over the controller's dispatch, and a method for each.
ghost use Rattle.std.specs.Prelude.{◌≡◌};
ghost use Rattle.calls.specs.declared.Call.TheVariants.{Write, Read, SetBlock, SetWindow, SetExpected, PacketByte, Reset, Command, PacketWord, Status, Srst};
ghost use Rattle.chip.specs.Calls.{called};
ghost use Rattle.chip.specs.Told.{told_of};

use crate::{Accepted, Chip, conclude};
use calls::Call;
use reply::{Refusal, refuse_if};
use sector::Address;

impl Chip {
    // Ruled out: one that takes a step on an unsound record, and one that lets no start follow an accepted call.
    #[tactic(auto, unfolding(crate::specs::Calls::called), using(crate::proofs::Answers::called_barred, crate::proofs::Answers::sound_received, crate::proofs::Answers::sound_place))]
    pub fn call(self, call: Call) -> Result<Accepted, Refusal>
        ensures { told_of self result ≡ called self call }
    {
        refuse_if(!self.sound(), Refusal::Unfit)?;
        let step = self.controller.step(call, self.place.facts())?;
        Ok(conclude(self.place, step))
    }

    // Ruled out: one that lets a start begin in a transfer, and one that keeps held when DECEN is taken low.
    pub fn write(self, reg: u16, value: u16) -> Result<Accepted, Refusal>
        ensures { told_of self result ≡ called self (Write reg value) }
    {
        self.call(Call::Write(reg, value))
    }

    // Ruled out: one that answers an unlisted register with 0, and one that clears 80h when it is read.
    pub fn read(self, reg: u16) -> Result<Accepted, Refusal>
        ensures { told_of self result ≡ called self (Read reg) }
    {
        self.call(Call::Read(reg))
    }

    // Ruled out: one that takes block N, and one that moves T while good blocks wait.
    pub fn set_block(self, block: u16) -> Result<Accepted, Refusal>
        ensures { told_of self result ≡ called self (SetBlock block) }
    {
        self.call(Call::SetBlock(block))
    }

    // Ruled out: one that takes a window past byte 2,352, and one that takes 0 words.
    pub fn set_window(self, offset: u16, words: u16) -> Result<Accepted, Refusal>
        ensures { told_of self result ≡ called self (SetWindow offset words) }
    {
        self.call(Call::SetWindow(offset, words))
    }

    // Ruled out: one that takes second 60, and one that lets the address be set while DECEN is high.
    pub fn set_expected(self, address: Address) -> Result<Accepted, Refusal>
        ensures { told_of self result ≡ called self (SetExpected address) }
    {
        self.call(Call::SetExpected(address))
    }

    // Ruled out: one that reads byte 12, and one that gives a byte before the packet is full.
    pub fn packet_byte(self, index: u16) -> Result<Accepted, Refusal>
        ensures { told_of self result ≡ called self (PacketByte index) }
    {
        self.call(Call::PacketByte(index))
    }

    // Ruled out: one that keeps TCC, and one that is barred by a transfer.
    pub fn reset(self) -> Result<Accepted, Refusal>
        ensures { told_of self result ≡ called self Reset }
    {
        self.call(Call::Reset)
    }

    // Ruled out: one that takes a command while BSY is set, and one that begins a packet without APKTEN.
    pub fn command(self, code: u16) -> Result<Accepted, Refusal>
        ensures { told_of self result ≡ called self (Command code) }
    {
        self.call(Call::Command(code))
    }

    // Ruled out: one that sets FPKT at the fifth word, and one that puts a word's high byte first.
    pub fn packet_word(self, word: u16) -> Result<Accepted, Refusal>
        ensures { told_of self result ≡ called self (PacketWord word) }
    {
        self.call(Call::PacketWord(word))
    }

    // Ruled out: one that keeps HIRQ, and one that gives the status after a start that follows by itself.
    pub fn status(self) -> Result<Accepted, Refusal>
        ensures { told_of self result ≡ called self Status }
    {
        self.call(Call::Status)
    }

    // Ruled out: one that counts a half-read block as taken, and one that empties the ring.
    pub fn srst(self) -> Result<Accepted, Refusal>
        ensures { told_of self result ≡ called self Srst }
    {
        self.call(Call::Srst)
    }
}
