// The controller: counters, switches, host registers, transfers and packets of the W88113C as paper 01 has them.
// A call is refused, or answers the controller afterwards and an event, which says what becomes of the ring; of the ring it is told no more than `RingFacts`.
#![tactic(auto)]

mod decoder;
mod dispatch;
mod host;
mod named;
mod read;
mod state;
mod step;
mod transfer;
mod write;

pub use state::{
    Acctl, Ascsta, Asctrl, Atsta, Buffering, Controller, Counts, Packet, Task, Transfer, Window,
};
pub use step::{Accepted, Event, RingFacts};
pub use write::bit;
