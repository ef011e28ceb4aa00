// The calls on sectors, the chip and the bench for C and Rust; include/cdrom.h declares them and says what a C caller must keep. A slice is
// passed as a pointer and then a length, an array or a number that is lent as a pointer. None has a precondition: any bytes, of any number,
// any words of a record, any address, kind and subheader are answered, and a refusal changes no byte. The chip's calls are in `plain` and `memory`.
#![tactic(auto)]

mod answer;
mod memory;
mod plain;

ghost use Rattle.std.specs.Prelude.{◌≡◌};
ghost use Rattle.edc.specs.Edc.{edc};
ghost use Rattle.sector.specs.Calls.{seal_sector, open_sector, no_subheader};
ghost use Rattle.exports.specs.Words.{at, subheader_in, seal_word, open_word, judge_word, parity_word, next_address_word, bench_run};

use answer::{at, packed, packed_address, packed_done};
use reply::Refusal;
use script::Bench;
use sector::{Judgement, Subheader};

// Seals a buffer at an address where it lies, as a sector of mode 1.
// Ruled out: one that seals at another address, and one that answers 0 where it refused.
#[unsafe(no_mangle)]
pub extern "C" fn cdrom_seal(sector: &mut [u8], minute: u16, second: u16, frame: u16) -> u32
    ensures { (result ≡ seal_word sector.old (at minute second frame) 1 no_subheader)
        × (sector.new ≡ seal_sector sector.old (at minute second frame) 1 no_subheader) }
{
    let address = at(minute, second, frame);
    packed_done(sector::seal(sector, address, 1, Subheader::default()))
}

// Seals a buffer at an address where it lies, as a sector of the kind, in mode 2 with the subheader.
// Ruled out: one that cuts the kind to eight bits, and one that reads the subheader's bytes in another order.
#[unsafe(no_mangle)]
pub extern "C" fn cdrom_seal_xa(
    sector: &mut [u8],
    minute: u16,
    second: u16,
    frame: u16,
    kind: u16,
    subheader: &[u8; 4],
) -> u32
    ensures { (result ≡ seal_word sector.old (at minute second frame) kind (subheader_in subheader.now))
        × (sector.new ≡ seal_sector sector.old (at minute second frame) kind (subheader_in subheader.now)) }
{
    let address = at(minute, second, frame);
    packed_done(sector::seal(sector, address, kind, (*subheader).into()))
}

// Descrambles a sector where it lies.
// Ruled out: one that answers 0 for every length, and one that leaves the sector as it was.
#[unsafe(no_mangle)]
pub extern "C" fn cdrom_open(sector: &mut [u8]) -> u32
    ensures { (result ≡ open_word sector.old) × (sector.new ≡ open_sector sector.old) }
{
    packed_done(sector::open(sector))
}

// Judges an opened sector against the address that is expected of it.
// Ruled out: one that answers 0 where it refused, and one that answers the byte of register 80h.
#[unsafe(no_mangle)]
pub extern "C" fn cdrom_judge(sector: &[u8], minute: u16, second: u16, frame: u16) -> u32
    ensures { result ≡ judge_word sector.now (at minute second frame) }
{
    let address = at(minute, second, frame);
    packed(sector::judge(sector, address).map(Judgement::why))
}

// Checks the parity of an opened sector.
// Ruled out: one that answers 0 for yes, and one that answers a wrong length as it answers no.
#[unsafe(no_mangle)]
pub extern "C" fn cdrom_parity(sector: &[u8]) -> u32
    ensures { result ≡ parity_word sector.now }
{
    packed(sector::check_parity(sector).map(u16::from))
}

// The address that follows an address.
// Ruled out: one that goes on from an address that there is not, and one that answers the second in the frame's place.
#[unsafe(no_mangle)]
#[tactic(auto, using(sector::proofs::Addresses::next_valid))]
pub extern "C" fn cdrom_next_address(minute: u16, second: u16, frame: u16) -> u32
    ensures { result ≡ next_address_word (at minute second frame) }
{
    let address = at(minute, second, frame);
    if !address.valid() {
        return packed(Err(Refusal::OutOfRange));
    }
    packed_address(address.next())
}

// The error detection code of the bytes, whatever their number.
// Ruled out: one that leaves out a byte, and one that starts from another value than 0.
#[unsafe(no_mangle)]
pub extern "C" fn cdrom_edc(bytes: &[u8]) -> u32
    ensures { result ≡ edc 0 bytes.now }
{
    edc::edc(bytes)
}

// Runs the lines of a text that have an end, from a bench where no chip is open, while `out` has room for an answer, and gives the length
// of the answers.
// Ruled out: one that leaves out a line or runs it twice, and one that keeps a chip from one call to the next.
#[unsafe(no_mangle)]
pub extern "C" fn cdrom_bench(
    memory: &mut [u8],
    sector: &mut [u8],
    text: &[u8],
    out: &mut [u8],
) -> usize
    ensures { record { result = result; memory = memory.new; sector = sector.new; out = out.new }
        ≡ bench_run memory.old sector.old text.now out.old }
{
    script::feed(Bench::start(), memory, sector, text, out).size
}
