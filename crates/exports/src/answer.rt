// An answer as one number, also one whose result is an address, and what an accepted call leaves of a record.
ghost use Rattle.std.specs.Prelude.{◌≡◌, true};
ghost use Rattle.reply.specs.Reply.{reply_of, done_of};
ghost use Rattle.sector.specs.Address.{valid};
ghost use Rattle.exports.specs.Words.{at, packed, reply_word, address_number};
ghost use Rattle.exports.specs.Chips.{WrittenBack};

use chip::Accepted;
use encoding::encode;
use reply::{Refusal, parts};
use sector::Address;

pub(crate) fn at(minute: u16, second: u16, frame: u16) -> Address
    ensures { result ≡ at minute second frame }
{
    Address {
        minute,
        second,
        frame,
    }
}

// The reply number in the low byte, the result above it.
pub(crate) fn packed(reply: Result<u16, Refusal>) -> u32
    ensures { result ≡ reply_word (reply_of reply) }
{
    let (number, value) = parts(reply);
    u32::from(number) + 256 * u32::from(value)
}

// The same of a call that has no result.
pub(crate) fn packed_done(reply: Result<(), Refusal>) -> u32
    ensures { result ≡ reply_word (done_of reply) }
{
    packed(reply.map(|_| 0))
}

// An address as the result: the frame in the result's low byte, then the second, then the minute.
pub(crate) fn packed_address(address: Address) -> u32
    requires { valid address ≡ true }
    ensures { result ≡ packed 0 (address_number address) }
{
    256 * (u32::from(address.frame)
        + 256 * (u32::from(address.second) + 256 * u32::from(address.minute)))
}

// Writes the chip of an accepted call over the record's words. A refused one leaves them as they were.
pub(crate) fn write_back(words: &mut [u16; 28], told: Result<Accepted, Refusal>) -> u32
    ensures { WrittenBack told result words.old words.new }
{
    if let Ok(accepted) = told {
        encode(words, accepted.chip);
    }
    packed(told.map(|accepted| accepted.value))
}
