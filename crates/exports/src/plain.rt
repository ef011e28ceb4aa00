// The calls of the chip that touch no memory: the record's words are decoded, the chip's own call is made, and an accepted one is written back.
ghost use Rattle.std.specs.Prelude.{◌≡◌};
ghost use Rattle.laws.specs.Numbers.{weight};
ghost use Rattle.calls.specs.declared.Call.TheVariants.{Write, Read, SetBlock, SetWindow, SetExpected, PacketByte, Reset, Command, PacketWord, Status, Srst};
ghost use Rattle.sector.specs.Judge.{why};
ghost use Rattle.chip.specs.Chip.{opened};
ghost use Rattle.chip.specs.Calls.{called};
ghost use Rattle.encoding.specs.Words.{decoded};
ghost use Rattle.exports.specs.Words.{at, reply_word};
ghost use Rattle.exports.specs.Chips.{Answered};

use crate::answer::{at, packed, write_back};
use calls::Call;
use chip::Chip;
use encoding::{decode, encode};

fn plain(chip: &mut [u16; 28], call: Call) -> u32
    ensures { Answered (called (decoded chip.old) call) result chip.old chip.new }
{
    let told = decode(chip).call(call);
    write_back(chip, told)
}

// A chip of so many blocks; one that is refused is a record of no blocks.
// Ruled out: one that leaves the record of a refused opening as it was, and one that opens a ring of 2 blocks.
#[unsafe(no_mangle)]
pub extern "C" fn cdrom_chip_open(chip: &mut [u16; 28], blocks: u16) -> u32
    ensures { (result ≡ reply_word (opened blocks).reply) × (decoded chip.new ≡ (opened blocks).chip) }
{
    match Chip::open(blocks) {
        Ok(opened) => {
            encode(chip, opened);
            packed(Ok(0))
        }
        Err(refusal) => {
            encode(chip, Chip::closed());
            packed(Err(refusal))
        }
    }
}

// Writes a register.
// Ruled out: one that writes the record back where the write was refused, and one that swaps register and value.
#[unsafe(no_mangle)]
pub extern "C" fn cdrom_chip_write(chip: &mut [u16; 28], reg: u16, value: u16) -> u32
    ensures { Answered (called (decoded chip.old) (Write reg value)) result chip.old chip.new }
{
    plain(chip, Call::Write(reg, value))
}

// Reads a register.
// Ruled out: one that gives the register's number back, and one that lets no start follow.
#[unsafe(no_mangle)]
pub extern "C" fn cdrom_chip_read(chip: &mut [u16; 28], reg: u16) -> u32
    ensures { Answered (called (decoded chip.old) (Read reg)) result chip.old chip.new }
{
    plain(chip, Call::Read(reg))
}

// Sets T.
// Ruled out: one that sets the window, and one that takes a block that the ring does not have.
#[unsafe(no_mangle)]
pub extern "C" fn cdrom_chip_set_block(chip: &mut [u16; 28], block: u16) -> u32
    ensures { Answered (called (decoded chip.old) (SetBlock block)) result chip.old chip.new }
{
    plain(chip, Call::SetBlock(block))
}

// Sets the window.
// Ruled out: one that swaps offset and words, and one that takes 0 words.
#[unsafe(no_mangle)]
pub extern "C" fn cdrom_chip_set_window(chip: &mut [u16; 28], offset: u16, words: u16) -> u32
    ensures { Answered (called (decoded chip.old) (SetWindow offset words)) result chip.old chip.new }
{
    plain(chip, Call::SetWindow(offset, words))
}

// Sets the expected address.
// Ruled out: one that swaps second and frame, and one that takes second 60.
#[unsafe(no_mangle)]
pub extern "C" fn cdrom_chip_set_expected(
    chip: &mut [u16; 28],
    minute: u16,
    second: u16,
    frame: u16,
) -> u32
    ensures { Answered (called (decoded chip.old) (SetExpected (at minute second frame))) result chip.old chip.new }
{
    let address = at(minute, second, frame);
    plain(chip, Call::SetExpected(address))
}

// A byte of the full packet.
// Ruled out: one that gives the byte after it, and one that gives a byte before the packet is full.
#[unsafe(no_mangle)]
pub extern "C" fn cdrom_chip_packet_byte(chip: &mut [u16; 28], index: u16) -> u32
    ensures { Answered (called (decoded chip.old) (PacketByte index)) result chip.old chip.new }
{
    plain(chip, Call::PacketByte(index))
}

// The chip reset.
// Ruled out: one that keeps TCC, and one that writes a record of no blocks.
#[unsafe(no_mangle)]
pub extern "C" fn cdrom_chip_reset(chip: &mut [u16; 28]) -> u32
    ensures { Answered (called (decoded chip.old) Reset) result chip.old chip.new }
{
    plain(chip, Call::Reset)
}

// The host writes a command.
// Ruled out: one that takes a command while BSY is set, and one that cuts the code to a byte.
#[unsafe(no_mangle)]
pub extern "C" fn cdrom_chip_command(chip: &mut [u16; 28], code: u16) -> u32
    ensures { Answered (called (decoded chip.old) (Command code)) result chip.old chip.new }
{
    plain(chip, Call::Command(code))
}

// The host writes a word of a packet.
// Ruled out: one that swaps the word's bytes, and one that takes a word with no reception.
#[unsafe(no_mangle)]
pub extern "C" fn cdrom_chip_packet_word(chip: &mut [u16; 28], word: u16) -> u32
    ensures { Answered (called (decoded chip.old) (PacketWord word)) result chip.old chip.new }
{
    plain(chip, Call::PacketWord(word))
}

// The host reads the status.
// Ruled out: one that keeps HIRQ, and one that gives the status after a start.
#[unsafe(no_mangle)]
pub extern "C" fn cdrom_chip_status(chip: &mut [u16; 28]) -> u32
    ensures { Answered (called (decoded chip.old) Status) result chip.old chip.new }
{
    plain(chip, Call::Status)
}

// The host's abort.
// Ruled out: one that resets the chip, and one that keeps TTC.
#[unsafe(no_mangle)]
pub extern "C" fn cdrom_chip_srst(chip: &mut [u16; 28]) -> u32
    ensures { Answered (called (decoded chip.old) Srst) result chip.old chip.new }
{
    plain(chip, Call::Srst)
}

// What failed of the last sector that was stored.
// Ruled out: one that shows the two bits of register 80h, and one that shows nothing of a record that is unsound.
#[unsafe(no_mangle)]
pub extern "C" fn cdrom_chip_why(chip: &[u16; 28]) -> u32
    ensures { result ≡ why (decoded chip.now).controller.judgement }
{
    u32::from(decode(chip).controller.judgement.why())
}

// The interrupt line to the host.
// Ruled out: one that is always low, and one that shows another bit of the record.
#[unsafe(no_mangle)]
pub extern "C" fn cdrom_chip_irq(chip: &[u16; 28]) -> u32
    ensures { result ≡ weight (decoded chip.now).controller.hirq 1 }
{
    u32::from(decode(chip).controller.hirq)
}
