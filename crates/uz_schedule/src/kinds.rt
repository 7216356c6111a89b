//! Small enums that certificates and machines share.

/// The number of clocks that an interrupt entry takes. It is a parameter of this project, which the certificate and the
/// command line choose: nothing is claimed about which of the two a given chip has.
#[derive(Clone, Copy)]
pub enum Response {
    Four,
    Five,
}

impl Response {
    ghost use Rattle.std.specs.Prelude.{◌≡◌};
    ghost use Rattle.uz_schedule.specs.Schedule.{response_clocks};

    /// The number of clocks: 4 or 5.
    pub fn clocks(self) -> u16
        ensures { result ≡ response_clocks self }
    {
        match self {
            Response::Four => 4,
            Response::Five => 5,
        }
    }
}

/// What a point of a program belongs to: the main loop, which interrupts break into; the interrupt handler, which
/// begins at the timer's compare match; or a program that is alone, with interrupts disabled throughout.
#[derive(Clone, Copy, PartialEq, Eq)]
pub enum Kind {
    Main,
    Handler,
    Alone,
}

/// By which rules a certificate is judged: those of version 2, which know nothing of comparisons, or those of version 3.
#[derive(Clone, Copy, Default, PartialEq, Eq)]
pub enum RuleVersion {
    #[default]
    Two,
    Three,
}

/// Who writes a tracked cell of RAM: the main loop or the interrupt handler.
#[derive(Clone, Copy, Default)]
pub enum Owner {
    #[default]
    Main,
    Handler,
}
