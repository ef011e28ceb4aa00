// The tests that a sector is judged by.
ghost use Rattle.std.specs.Prelude.{◌≡◌};
ghost use Rattle.sector.specs.Layout.{layout_of};
ghost use Rattle.sector.specs.Judge.{sync_holds, mode_holds, code_right, unwritten, edc_holds, address_holds, judgement};

use crate::frame::SYNC;
use crate::header::is_bcd_of;
use crate::layout::Kind;
use crate::{Address, Judgement, LENGTH};
use slices::equal;

#[tactic(auto, unfolding(crate::specs::Judge::sync_holds))]
fn sync_holds(sector: &[u8; LENGTH]) -> bool
    ensures { result ≡ sync_holds sector.now }
{
    sector.starts_with(&SYNC)
}

#[tactic(auto, unfolding(crate::specs::Judge::mode_holds))]
fn mode_holds(sector: &[u8; LENGTH]) -> bool
    ensures { result ≡ mode_holds sector.now }
{
    sector[15] == 1 || (sector[15] == 2 && equal(&sector[16..20], &sector[20..24]))
}

fn code_right(sector: &[u8; LENGTH], kind: Kind) -> bool
    ensures { result ≡ code_right (layout_of kind) sector.now }
{
    let layout = kind.layout();
    let edc = edc::edc(&sector[layout.covered..layout.code]);
    equal(&sector[layout.code..layout.code + 4], &edc.to_le_bytes())
}

#[tactic(auto, unfolding(crate::specs::Judge::unwritten))]
fn unwritten(sector: &[u8; LENGTH], kind: Kind) -> bool
    ensures { result ≡ unwritten (layout_of kind) sector.now }
{
    let layout = kind.layout();
    layout.optional && sector[layout.code..].starts_with(&[0; 4])
}

// A code that is none is not worked out.
#[tactic(auto, unfolding(crate::specs::Judge::edc_holds))]
fn edc_holds(sector: &[u8; LENGTH]) -> bool
    ensures { result ≡ edc_holds sector.now }
{
    let kind = Kind::read(sector);
    unwritten(sector, kind) || code_right(sector, kind)
}

#[tactic(auto, unfolding(crate::specs::Judge::address_holds))]
fn address_holds(sector: &[u8; LENGTH], address: Address) -> bool
    ensures { result ≡ address_holds address sector.now }
{
    is_bcd_of(sector[12], address.minute)
        && is_bcd_of(sector[13], address.second)
        && is_bcd_of(sector[14], address.frame)
}

// Each test is made, whatever the others say. The address comes first, so that it need not be kept while the code is worked out.
#[tactic(auto, unfolding(crate::specs::Judge::judgement))]
pub(crate) fn judgement_of(sector: &[u8; LENGTH], address: Address) -> Judgement
    ensures { result ≡ judgement address sector.now }
{
    Judgement {
        address: !address_holds(sector, address),
        sync: !sync_holds(sector),
        mode: !mode_holds(sector),
        edc: !edc_holds(sector),
    }
}
