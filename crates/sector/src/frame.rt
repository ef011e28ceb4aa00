// What sealing writes into a sector before it is scrambled.
ghost use Rattle.std.specs.Prelude.{◌≡◌, true, false, ◌&&◌, ◌++◌, ◌⊎◌, ◌+◌, ◌≤◌, length, drop, replicate, MatchResult};
ghost use Rattle.reply.specs.declared.Refusal.TheVariants.{OutOfRange};
ghost use Rattle.sector.specs.Address.{valid};
ghost use Rattle.sector.specs.Layout.{agrees, kind_number, layout_of, end};
ghost use Rattle.sector.specs.Sector.{full_head, head, low4, framed, encoded};

use crate::layout::Kind;
use crate::{Address, LENGTH, Subheader};
use reply::Refusal;

// Bytes 0 to 11 of every sector.
pub(crate) const SYNC: [u8; 12] = [0, 255, 255, 255, 255, 255, 255, 255, 255, 255, 255, 0];

// What stands around the user bytes is made of these.
#[derive(Clone, Copy)]
pub(crate) struct Frame {
    pub kind: Kind,
    pub address: Address,
    pub subheader: Subheader,
    ghost in_range: { valid address ≡ true },
}

impl Frame {
    // Refuses a bad address, a number that is no kind, and a subheader of the other form.
    pub fn new(address: Address, kind: u16, subheader: Subheader) -> Result<Frame, Refusal>
        ensures { MatchResult result
            (λ f. ((valid address && agrees kind subheader) ≡ true) × (kind_number f.kind ≡ kind) × (f.address ≡ address) × (f.subheader ≡ subheader))
            (λ e. ((valid address && agrees kind subheader) ≡ false) × (e ≡ OutOfRange)) }
    {
        let kind = Kind::try_from(kind)?;
        if !address.valid() || !kind.agrees(subheader) {
            return Err(Refusal::OutOfRange);
        }
        Ok(Frame {
            kind,
            address,
            subheader,
        })
    }

    // Sync, address, mode, and the subheader twice.
    fn full_head(self) -> [u8; 24]
        ensures { result ≡ full_head (layout_of self.kind).mode self.address self.subheader }
    {
        let subheader: [u8; 4] = self.subheader.into();
        let mut head = [0; 24];
        head[..12].copy_from_slice(&SYNC);
        head[12..15].copy_from_slice(&self.address.bytes());
        head[15] = self.kind.layout().mode;
        head[16..20].copy_from_slice(&subheader);
        head[20..].copy_from_slice(&subheader);
        head
    }

    // Writes the head: 16 bytes, or with the subheader 24. Each is a copy of fixed length, so that none is made by a call.
    // Ruled out: one that writes a subheader over mode 1's user bytes, and one that leaves out the second copy.
    #[tactic(auto, unfolding(crate::specs::Layout::layout))]
    fn put_head(self, sector: &mut [u8; LENGTH])
        ensures { sector.new ≡ head (layout_of self.kind) self.address self.subheader ++ drop (layout_of self.kind).user sector.old }
    {
        let head = self.full_head();
        match self.kind {
            Kind::Mode1 => sector[..16].copy_from_slice(&head[..16]),
            Kind::Form1 | Kind::Form2 => sector[..24].copy_from_slice(&head),
        }
    }

    // Writes head, code and zeros around the user bytes; the code covers the head, which is written first.
    fn put_frame(self, sector: &mut [u8; LENGTH])
        ensures { sector.new ≡ framed (layout_of self.kind) self.address self.subheader sector.old ++ drop (end (layout_of self.kind)) sector.old }
    {
        self.put_head(sector);
        let layout = self.kind.layout();
        let code = edc::edc(&sector[layout.covered..layout.code]);
        put_tail(&mut sector[layout.code..], code, layout.zeros);
    }

    // Writes all that a sector has around its user bytes: the parity covers what stands before it, and is written last.
    // Ruled out: one that leaves the parity bytes that lay there, and one that writes parity over form 2's user bytes.
    pub fn put(self, sector: &mut [u8; LENGTH])
        ensures { sector.new ≡ encoded (layout_of self.kind) self.address self.subheader sector.old }
    {
        self.put_frame(sector);
        let layout = self.kind.layout();
        if layout.parity {
            parity::write(sector, layout.masked);
        }
    }
}

// Writes the code's four bytes, the lowest first, and so many zeros behind it.
// Ruled out: one that leaves the zeros out, and one that writes them over form 2's end.
fn put_tail(part: &mut [u8], code: u32, zeros: usize)
    requires { 4 + zeros ≤ length part.old }
    ensures { part.new ≡ (low4 code ++ replicate zeros 0) ++ drop (4 + zeros) part.old }
{
    part[..4].copy_from_slice(&code.to_le_bytes());
    part[4..4 + zeros].fill(0);
}
