// The address of a sector: its range, the one after it, and its bytes in the header. The subheader, from its four bytes and back.
ghost use Rattle.std.specs.Prelude.{◌≡◌, true, ◌<◌, eqb};
ghost use Rattle.sector.specs.Address.{valid, next, bcd, address_bytes};
ghost use Rattle.sector.specs.Layout.{subheader_bytes};

use crate::{Address, Subheader};

impl Address {
    // Minute 0 to 99, second 0 to 59, frame 0 to 74.
    // Ruled out: one that takes second 60, and one that refuses 99:59:74.
    pub fn valid(self) -> bool
        ensures { result ≡ valid self }
    {
        self.minute <= 99 && self.second <= 59 && self.frame <= 74
    }

    // The address that follows; 00:00:00 follows the last, 99:59:74.
    // Ruled out: one that goes from 00:02:74 to 00:02:75, and one that stays at the last.
    #[tactic(auto, unfolding(crate::specs::Address::next))]
    pub fn next(self) -> Address
        ensures { result ≡ next self }
    {
        if self.frame < 74 {
            Address {
                frame: self.frame + 1,
                ..self
            }
        } else if self.second < 59 {
            Address {
                second: self.second + 1,
                frame: 0,
                ..self
            }
        } else if self.minute < 99 {
            Address {
                minute: self.minute + 1,
                second: 0,
                frame: 0,
            }
        } else {
            Address::default()
        }
    }

    // Bytes 12 to 14 of a sector.
    pub(crate) fn bytes(self) -> [u8; 3]
        requires { valid self ≡ true }
        ensures { result ≡ address_bytes self }
    {
        [to_bcd(self.minute), to_bcd(self.second), to_bcd(self.frame)]
    }
}

// Two decimal digits in a byte.
fn to_bcd(n: u16) -> u8
    requires { n < 100 }
    ensures { result ≡ bcd n }
{
    (n / 10 * 16 + n % 10) as u8
}

// Whether a byte is a number's two digits, without a division: the digits are put together, and not the number taken apart. A digit above 9 is none, so that
// 1Ah is no 20.
// Ruled out: one that takes 1Ah for 20, and one that compares the byte with the number itself.
pub(crate) fn is_bcd_of(byte: u8, n: u16) -> bool
    ensures { result ≡ eqb byte (bcd n) }
{
    let tens = u32::from(byte >> 4);
    let ones = u32::from(byte & 15);
    ones <= 9 && 10 * tens + ones == u32::from(n)
}

// Ruled out: one that reads the submode before the channel, and one that reads the file number last.
impl From<[u8; 4]> for Subheader {
    ghost from_gives = { λ bytes r. subheader_bytes r ≡ bytes };

    fn from(bytes: [u8; 4]) -> Subheader {
        let [file, channel, submode, coding] = bytes;
        Subheader {
            file,
            channel,
            submode,
            coding,
        }
    }
}

// Ruled out: one that writes the submode before the channel, and one that writes 0 for the coding information.
impl From<Subheader> for [u8; 4] {
    ghost from_gives = { λ subheader r. r ≡ subheader_bytes subheader };

    fn from(subheader: Subheader) -> [u8; 4] {
        [
            subheader.file,
            subheader.channel,
            subheader.submode,
            subheader.coding,
        ]
    }
}
