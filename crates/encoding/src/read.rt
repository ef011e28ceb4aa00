// A record's words, taken apart group by group.
ghost use Rattle.std.specs.Prelude.{◌≡◌};
ghost use Rattle.encoding.specs.Words.{controller_in, place_in, decoded};

use chip::Chip;
use controller::{
    Acctl, Ascsta, Asctrl, Atsta, Buffering, Controller, Counts, Packet, Task, Transfer, Window,
    bit,
};
use ring::Place;
use sector::{Address, Judgement};

fn counts(words: &[u16; 28]) -> Counts
    ensures { result ≡ (controller_in words.now).counts }
{
    Counts {
        tcc: words[4],
        bufc: words[5],
        ttc: words[6],
        held: bit(words[20], 0),
    }
}

fn expected(words: &[u16; 28]) -> Address
    ensures { result ≡ (controller_in words.now).expected }
{
    Address {
        minute: words[7],
        second: words[8],
        frame: words[9],
    }
}

fn buffering(words: &[u16; 28]) -> Buffering
    ensures { result ≡ (controller_in words.now).buffering }
{
    Buffering {
        decen: bit(words[20], 1),
        blimen: bit(words[20], 2),
        blims: bit(words[20], 3),
        buflim: words[10],
    }
}

fn acctl(words: &[u16; 28]) -> Acctl
    ensures { result ≡ (controller_in words.now).acctl }
{
    let [atlim, _] = words[16].to_le_bytes();
    Acctl {
        atten: bit(words[20], 4),
        acmen: bit(words[20], 5),
        tcincen: bit(words[20], 6),
        atlim,
    }
}

fn asctrl(words: &[u16; 28]) -> Asctrl
    ensures { result ≡ (controller_in words.now).asctrl }
{
    Asctrl {
        apkten: bit(words[20], 8),
        adcen: bit(words[20], 9),
        ascen: bit(words[20], 10),
        autoen: bit(words[20], 11),
        stwcen: bit(words[20], 12),
        a0ien: bit(words[20], 13),
    }
}

fn atsta(words: &[u16; 28]) -> Atsta
    ensures { result ≡ (controller_in words.now).atsta }
{
    Atsta {
        bsy: bit(words[21], 0),
        drdy: bit(words[21], 1),
        dsc: bit(words[21], 2),
        drq: bit(words[21], 3),
        corr: bit(words[21], 4),
        check: bit(words[21], 5),
    }
}

fn ascsta(words: &[u16; 28]) -> Ascsta
    ensures { result ≡ (controller_in words.now).ascsta }
{
    Ascsta {
        drdy: bit(words[21], 8),
        corr: bit(words[21], 9),
        check: bit(words[21], 10),
    }
}

fn judgement(words: &[u16; 28]) -> Judgement
    ensures { result ≡ (controller_in words.now).judgement }
{
    let [_, why] = words[19].to_le_bytes();
    let why = u16::from(why);
    Judgement {
        sync: bit(why, 3),
        mode: bit(why, 2),
        edc: bit(why, 1),
        address: bit(why, 0),
    }
}

fn task(words: &[u16; 28]) -> Task
    ensures { result ≡ (controller_in words.now).task }
{
    let [aterr, atint] = words[17].to_le_bytes();
    let [atblo, atbhi] = words[18].to_le_bytes();
    let [atcmd, _] = words[19].to_le_bytes();
    Task {
        aterr,
        atint,
        atblo,
        atbhi,
        atcmd,
    }
}

fn window(words: &[u16; 28]) -> Window
    ensures { result ≡ (controller_in words.now).window }
{
    Window {
        offset: words[11],
        words: words[12],
    }
}

fn transfer(words: &[u16; 28]) -> Transfer
    ensures { result ≡ (controller_in words.now).transfer }
{
    Transfer {
        running: bit(words[21], 6),
        left: words[13],
        position: words[14],
    }
}

#[tactic(auto, using(crate::proofs::Packet::all_bytes))]
fn packet(words: &[u16; 28]) -> Packet
    ensures { result ≡ (controller_in words.now).packet }
{
    let mut bytes = [0; 12];
    for i in 0..6 {
        [bytes[2 * i], bytes[2 * i + 1]] = words[22 + i].to_le_bytes();
    }
    Packet {
        apkt: bit(words[21], 11),
        fpkt: bit(words[21], 12),
        receiving: bit(words[21], 13),
        received: words[15],
        bytes,
    }
}

fn place(words: &[u16; 28]) -> Place
    ensures { result ≡ place_in words.now }
{
    Place {
        n: words[0],
        t: words[1],
        b: words[2],
        last: words[3],
    }
}

fn controller(words: &[u16; 28]) -> Controller
    ensures { result ≡ controller_in words.now }
{
    let [_, mbc] = words[16].to_le_bytes();
    Controller {
        counts: counts(words),
        expected: expected(words),
        buffering: buffering(words),
        acctl: acctl(words),
        asctrl: asctrl(words),
        atsta: atsta(words),
        ascsta: ascsta(words),
        adsc: bit(words[20], 7),
        judgement: judgement(words),
        task: task(words),
        mbc,
        window: window(words),
        transfer: transfer(words),
        packet: packet(words),
        hirq: bit(words[21], 7),
    }
}

// The record that the words are.
// Ruled out: one that takes T for B, and one that refuses words that are no sound record.
#[tactic(auto, unfolding(crate::specs::Words::decoded))]
pub fn decode(words: &[u16; 28]) -> Chip
    ensures { result ≡ decoded words.now }
{
    Chip {
        controller: controller(words),
        place: place(words),
    }
}
