//! Why a pad file is refused.

ghost use Rattle.std.specs.Prelude.{◌≡◌};
ghost use Rattle.uz_pads.specs.WhyNames.{pad_why_name};

use uz_hex::{LineError, LineWhy};

/// Why a line is refused, in the order of the numbers, from 1.
#[derive(Clone, Copy, Debug)]
pub enum PadWhy {
    /// The line isn't blank and isn't four hexadecimal digits, one space, four hexadecimal digits.
    Digits,
    /// The line holds pair number 65,537.
    Count,
    /// Memory ran out. This says nothing of the text.
    Memory,
}

impl PadWhy {
    /// The name, as it is printed.
    pub fn name(self) -> &'static str
        ensures { result.now ≡ pad_why_name self }
    {
        match self {
            PadWhy::Digits => "Digits",
            PadWhy::Count => "Count",
            PadWhy::Memory => "Memory",
        }
    }
}

impl LineWhy for PadWhy {
    ghost use Rattle.std.specs.Prelude.{◌≡◌};
    ghost use Rattle.uz_pads.specs.declared.errors.PadWhy.TheVariants.{Memory};

    ghost memory = { Memory };

    fn memory() -> PadWhy {
        PadWhy::Memory
    }
}

/// The first faulty line, counted from 1, and why it is refused. With `Memory` the line is 0.
pub type PadError = LineError<PadWhy>;
