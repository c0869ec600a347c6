// Refusals.
ghost use Rattle.std.specs.Prelude.{◌≡◌};
ghost use Rattle.board_terms.specs.Numbers.{refusal_number};

use thiserror::Error;

/// Why an event was refused. A refused event changes nothing and emits no notice. `Elsewhere` comes
/// from a sparse board only: the guest's load or store is of memory that the board does not hold.
#[derive(Clone, Copy, PartialEq, Eq, Debug, Drop, Error)]
pub enum Refusal {
    #[error("the port is not open")]
    UnknownPort = 1,
    #[error("the port is open already")]
    PortOpen = 2,
    #[error("the port is of the other kind")]
    WrongKind = 3,
    #[error("the target or the shape is out of range")]
    BadTarget = 4,
    #[error("the message type is 0 or has bit 31 set")]
    BadType = 5,
    #[error("the flag is not one of the port's")]
    BadFlag = 6,
    #[error("the SynIC of the target is disabled")]
    SynicOff = 7,
    #[error("the buffers of the port are in use")]
    NoBuffers = 8,
    #[error("all tickets are spent")]
    TicketsSpent = 9,
    #[error("the moment lies before the present one")]
    ClockBack = 10,
    #[error("the address lies in no page")]
    OutsideSpace = 11,
    #[error("the bytes lie in two pages")]
    CrossesPage = 12,
    #[error("the length is 0 or above 8")]
    BadLength = 13,
    #[error("there is no such processor")]
    NoSuchProcessor = 14,
    #[error("the processor is suspended already")]
    AlreadySuspended = 15,
    #[error("the processor is not suspended")]
    NotSuspended = 16,
    #[error("the page is in the caller's memory")]
    Elsewhere = 17,
}

impl Refusal {
    /// Its number, as in a reply line of a script's output.
    pub fn number(self) -> u8
        ensures { result ≡ refusal_number self }
    {
        self as u8
    }
}
