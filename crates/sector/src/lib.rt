// Sectors of mode 1 and mode 2 (ECMA-130, clause 14; paper 01, "Sectors"; paper 02, ask 4): sealing user data at an address, opening a sector, judging an opened one and
// checking its parity, and receiving one from the disc. All but the last are total: each answers every input with its result or a refusal, and a refusal
// changes no byte.
#![tactic(auto)]

ghost use Rattle.std.specs.Prelude.{◌≡◌, true, false, MatchResult};
ghost use Rattle.reply.specs.Reply.{done_of};
ghost use Rattle.reply.specs.declared.Refusal.TheVariants.{Unfit};
ghost use Rattle.sector.specs.Receive.{received};
ghost use Rattle.sector.specs.Calls.{whole, seal_reply, seal_sector, open_reply, open_sector, judged_of, judge_answer, parity_of, parity_reply};

mod checks;
mod facts;
mod frame;
mod header;
mod layout;

use frame::Frame;
use layout::Kind;
pub use layout::agrees;
use reply::Refusal;

// The bytes of a sector.
pub const LENGTH: usize = 2352;

// A sector's place on the disc.
#[derive(Clone, Copy, Debug, Default, PartialEq, Eq)]
pub struct Address {
    pub minute: u16,
    pub second: u16,
    pub frame: u16,
}

// What stands before the user bytes of mode 2, twice: file and channel number, submode, coding information.
#[derive(Clone, Copy, Debug, Default, PartialEq, Eq)]
pub struct Subheader {
    pub file: u8,
    pub channel: u8,
    pub submode: u8,
    pub coding: u8,
}

// What failed of a sector: the sync bytes, the mode, the EDC, the address that was expected. The default is that nothing failed, or nothing was judged.
#[derive(Clone, Copy, Debug, Default, PartialEq, Eq)]
pub struct Judgement {
    pub sync: bool,
    pub mode: bool,
    pub edc: bool,
    pub address: bool,
}

// Seals a buffer at an address where it lies, as a sector of kind 1, 2 or 3: all that stands around the kind's user bytes is written, in mode 2 with the
// subheader, then all is scrambled. Of what lay there only the user bytes count.
// Ruled out: one that writes and then refuses the kind, and one that takes the EDC before the head is written.
#[tactic(auto, unfolding(crate::specs::Calls::seal_reply, crate::specs::Calls::seal_sector, crate::specs::Sector::sealed))]
pub fn seal(
    sector: &mut [u8],
    address: Address,
    kind: u16,
    subheader: Subheader,
) -> Result<(), Refusal>
    ensures { (done_of result ≡ seal_reply sector.old address kind subheader)
        × (sector.new ≡ seal_sector sector.old address kind subheader) }
{
    let sector = sector.as_mut_array::<LENGTH>().ok_or(Refusal::Unfit)?;
    let frame = Frame::new(address, kind, subheader)?;
    frame.put(sector);
    scramble::scramble(sector);
    Ok(())
}

// Descrambles a sector where it lies.
// Ruled out: one that takes a shorter sector, and one that descrambles the sync bytes too.
#[tactic(auto, unfolding(crate::specs::Calls::open_reply, crate::specs::Calls::open_sector))]
pub fn open(sector: &mut [u8]) -> Result<(), Refusal>
    ensures { (done_of result ≡ open_reply sector.old) × (sector.new ≡ open_sector sector.old) }
{
    let scrambled = sector.as_mut_array::<LENGTH>().ok_or(Refusal::Unfit)?;
    scramble::scramble(scrambled);
    Ok(())
}

// A buffer of a sector's length, as a sector.
fn whole(sector: &[u8]) -> Result<&[u8; LENGTH], Refusal>
    ensures { MatchResult result
        (λ s. (whole sector.now ≡ true) × (s.now ≡ sector.now))
        (λ e. (whole sector.now ≡ false) × (e ≡ Unfit)) }
{
    sector.try_into().map_err(|_| Refusal::Unfit)
}

// Judges an opened sector against the address that is expected of it.
// Ruled out: one that leaves the EDC untested where sync failed, and one that sets the address for a wrong mode.
#[tactic(auto, unfolding(crate::specs::Calls::judge_answer))]
pub fn judge(sector: &[u8], address: Address) -> Result<Judgement, Refusal>
    ensures { judged_of result ≡ judge_answer sector.now address }
{
    let sector = whole(sector)?;
    if !address.valid() {
        return Err(Refusal::OutOfRange);
    }
    Ok(checks::judgement_of(sector, address))
}

// Checks the parity of an opened sector by the kind that is read from it: whether every word holds, or there is none.
// Ruled out: one that says yes where a word does not hold, and one that takes mode 1's header as zeros.
#[tactic(auto, unfolding(crate::specs::Calls::parity_reply, crate::specs::Calls::words_hold))]
pub fn check_parity(sector: &[u8]) -> Result<bool, Refusal>
    ensures { parity_of result ≡ parity_reply sector.now }
{
    let sector = whole(sector)?;
    let layout = Kind::read(sector).layout();
    Ok(!layout.parity || parity::check(sector, layout.masked))
}

// Receives a sector from the disc: it is descrambled into the block, and judged there. The sector is only read, and no copy is made.
// Ruled out: one that judges the sector before it is descrambled, and one that leaves a bad sector's block as it was.
#[tactic(auto, unfolding(crate::specs::Receive::received))]
pub fn receive(block: &mut [u8; LENGTH], sector: &[u8; LENGTH], expected: Address) -> Judgement
    ensures { record { bytes = block.new; judgement = result } ≡ received expected sector.now }
{
    scramble::scramble_into(block, sector);
    checks::judgement_of(block, expected)
}
