// The ledger of module sheets: the list of closed sheets and the open one, in bytes that the caller lends, and what
// opening, keeping and closing do to it. It knows no chip: the word on top of the stack is handed to it.
#![tactic(auto)]

pub mod bytes;
pub mod enter;

ghost use Rattle.std.specs.Prelude.{◌≡◌, ◌≤◌};
ghost use Rattle.sheet_bytes.specs.Entering.{number_of};

// Why a record of kind 256, 257 or 258 is turned away inside its reply, in the order of 02.
#[derive(Clone, Copy)]
pub enum Refusal {
    Done,
    StillOpen,
    NoneOpen,
    NoSuchSlot,
    HalfPending,
    SlotEmpty,
    ListFull,
}

// The number that 02 gives a refusal.
pub fn number(refusal: Refusal) -> u8
    ensures { (result ≡ number_of refusal) × (result ≤ 25) }
{
    match refusal {
        Refusal::Done => 0,
        Refusal::StillOpen => 20,
        Refusal::NoneOpen => 21,
        Refusal::NoSuchSlot => 22,
        Refusal::HalfPending => 23,
        Refusal::SlotEmpty => 24,
        Refusal::ListFull => 25,
    }
}
