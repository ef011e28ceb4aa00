// The reply to a call (paper 01, "Reply numbers"): its result, or the refusal that applies.
#![tactic(auto)]

ghost use Rattle.std.specs.Prelude.{◌≡◌, false, true, OnOk, IfErr};
ghost use Rattle.reply.specs.Reply.{number, reply_of};

// Why a call is refused. Of several that apply, the one with the lowest number is answered.
#[derive(Clone, Copy, Debug, PartialEq, Eq)]
pub enum Refusal {
    // The lent ring is not N × 2,560 bytes, the sector not 2,352, N outside 3..255, or the chip record unsound.
    Unfit = 1,
    // A register that is not listed for that direction.
    Unlisted = 2,
    // A value or address out of its stated range.
    OutOfRange = 3,
    // Barred by a running transfer, packet reception or BSY, where stated.
    Barred = 4,
    // Switches not as the call needs.
    Unready = 5,
    // Fewer good blocks (or no full packet) than asked.
    TooFew = 6,
    // A sector with DECEN low.
    DecoderOff = 7,
    // A sector after a bad one, DECEN not yet taken low.
    AfterBad = 8,
    // A sector, and the ring is at its stop.
    AtStop = 9,
}

impl Refusal {
    // Its number in the table.
    // Ruled out: one that counts from 0, and one that gives two refusals the same number.
    pub fn number(self) -> u8
        ensures { result ≡ number self }
    {
        self as u8
    }
}

// A reply's two numbers: 0 and the result where the call is done, else the refusal's number and 0.
// Ruled out: one that gives a result with its refusal, one that gives another number than 0 where the call is done, and one that drops the result.
pub fn parts(reply: Result<u16, Refusal>) -> (u8, u16)
    ensures { record { number = result.0; result = result.1 } ≡ reply_of reply }
{
    match reply {
        Ok(value) => (0, value),
        Err(refusal) => (refusal.number(), 0),
    }
}

// Passes a call that nothing bars, and refuses another.
// Ruled out: one that lets every call pass, and one that answers another refusal.
pub fn refuse_if(applies: bool, refusal: Refusal) -> Result<(), Refusal>
    ensures passed { OnOk result (applies ≡ false) }
    ensures refused { IfErr result (λ r. (r ≡ refusal) × (applies ≡ true)) }
{
    if applies { Err(refusal) } else { Ok(()) }
}
