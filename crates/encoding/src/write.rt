// A record written as its words.
ghost use Rattle.std.specs.Prelude.{◌≡◌, ◌+◌, ◌<◌, length, set};
ghost use Rattle.laws.specs.Numbers.{switches};
ghost use Rattle.sector.specs.Judge.{why};
ghost use Rattle.chip.specs.Chip.{at_position};
ghost use Rattle.encoding.specs.Words.{word, decoded, encoded, first_switches, second_switches, packet_pairs, Ranged};

use crate::bits::switches;
use chip::Chip;
use controller::Controller;

// Word 20.
fn first_switches(c: Controller) -> u16
    ensures { result ≡ switches (first_switches c) }
{
    switches([
        c.counts.held,
        c.buffering.decen,
        c.buffering.blimen,
        c.buffering.blims,
        c.acctl.atten,
        c.acctl.acmen,
        c.acctl.tcincen,
        c.adsc,
        c.asctrl.apkten,
        c.asctrl.adcen,
        c.asctrl.ascen,
        c.asctrl.autoen,
        c.asctrl.stwcen,
        c.asctrl.a0ien,
    ])
}

// Word 21.
fn second_switches(c: Controller) -> u16
    ensures { result ≡ switches (second_switches c) }
{
    switches([
        c.atsta.bsy,
        c.atsta.drdy,
        c.atsta.dsc,
        c.atsta.drq,
        c.atsta.corr,
        c.atsta.check,
        c.transfer.running,
        c.hirq,
        c.ascsta.drdy,
        c.ascsta.corr,
        c.ascsta.check,
        c.packet.apkt,
        c.packet.fpkt,
        c.packet.receiving,
    ])
}

// The high byte of word 19.
fn why_byte(c: Controller) -> u8
    ensures { result ≡ why c.judgement }
{
    c.judgement.why() as u8
}

// Words 22 to 27.
fn packet_words(bytes: [u8; 12]) -> [u16; 6]
    ensures { result ≡ packet_pairs bytes }
{
    std::array::from_fn(|i| u16::from_le_bytes([bytes[2 * i], bytes[2 * i + 1]]))
}

// All words, in their order; with them what the types say of the record.
#[tactic(auto, unfolding(crate::specs::Words::encoded))]
fn laid(chip: Chip) -> [u16; 28]
    ensures { (result ≡ encoded chip) × Ranged chip }
{
    let Chip {
        controller: c,
        place,
    } = chip;
    let [packet0, packet1, packet2, packet3, packet4, packet5] = packet_words(c.packet.bytes);
    [
        place.n,
        place.t,
        place.b,
        place.last,
        c.counts.tcc,
        c.counts.bufc,
        c.counts.ttc,
        c.expected.minute,
        c.expected.second,
        c.expected.frame,
        c.buffering.buflim,
        c.window.offset,
        c.window.words,
        c.transfer.left,
        c.transfer.position,
        c.packet.received,
        u16::from_le_bytes([c.acctl.atlim, c.mbc]),
        u16::from_le_bytes([c.task.aterr, c.task.atint]),
        u16::from_le_bytes([c.task.atblo, c.task.atbhi]),
        u16::from_le_bytes([c.task.atcmd, why_byte(c)]),
        first_switches(c),
        second_switches(c),
        packet0,
        packet1,
        packet2,
        packet3,
        packet4,
        packet5,
    ]
}

// Writes a record over the words that were there.
// Ruled out: one that leaves a word as it was, and one that writes two switches into one bit.
#[tactic(auto, using(crate::proofs::Laid::decoded_encoded))]
pub fn encode(words: &mut [u16; 28], chip: Chip)
    ensures { (words.new ≡ encoded chip) × (decoded words.new ≡ chip) }
{
    *words = laid(chip);
}

// Moves the transfer's position on by a word, which is all that most of the host's words change.
// Ruled out: one that moves it by a byte count, and one that changes another word.
#[tactic(auto, unfolding(crate::specs::Words::decoded), using(crate::proofs::Moved::moved))]
pub fn advance(words: &mut [u16; 28])
    requires { (decoded words.old).controller.transfer.position + 1 < 65536 }
    ensures others { words.new ≡ set words.old 14 (word words.old 14 + 1) }
    ensures position { decoded words.new ≡ at_position (decoded words.old) ((decoded words.old).controller.transfer.position + 1) }
{
    words[14] += 1;
}
