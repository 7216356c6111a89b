//! Why files are refused.

ghost use Rattle.std.specs.Prelude.{◌≡◌};
ghost use Rattle.avr_macro.specs.WhyNames.{macro_why_name};

use crate::origin::Origin;
use std::alloc::{AllocError, AllocFailed};

/// Why a line is refused.
#[derive(Clone, Copy, Debug)]
pub enum MacroWhy {
    /// The file could not be read, or there is none of that name.
    Unread,
    /// The file at the line is longer than 1,048,576 bytes.
    TooLong,
    /// An include inside 8 others, or a block or call inside 16 others.
    Depth,
    /// A directive has the wrong words, an include's name isn't UTF-8, an include stands in a block or call, or a block's
    /// end or `.else` has no opening.
    Form,
    /// A block isn't closed in its file or body.
    Unclosed,
    /// A macro of that name is defined already.
    Twice,
    /// An expression has no value, or the one of `.rept` isn't from 0 to 65,535.
    Value,
    /// A call has more than ten arguments, or its body names one that it hasn't.
    Argument,
    /// More than 1,048,576 lines are reached, or the flat text would pass 1,048,576 bytes.
    Full,
    /// There was no memory. Unlike the others, it may come for any files.
    Memory,
}

impl MacroWhy {
    /// The name, as it is printed.
    pub fn name(self) -> &'static str
        ensures { result.now ≡ macro_why_name self }
    {
        match self {
            MacroWhy::Unread => "Unread",
            MacroWhy::TooLong => "TooLong",
            MacroWhy::Depth => "Depth",
            MacroWhy::Form => "Form",
            MacroWhy::Unclosed => "Unclosed",
            MacroWhy::Twice => "Twice",
            MacroWhy::Value => "Value",
            MacroWhy::Argument => "Argument",
            MacroWhy::Full => "Full",
            MacroWhy::Memory => "Memory",
        }
    }
}

/// The first line that is refused, and why.
#[derive(Clone, Copy, Debug)]
pub struct MacroError {
    /// The line; inside of blocks and calls that at which the outermost one begins. Line 0 of the first file where that
    /// file can't be had.
    pub at: Origin,
    /// What is wrong there.
    pub why: MacroWhy,
}

impl From<AllocError> for MacroWhy {
    ghost use Rattle.std.specs.Prelude.{◌≡◌};
    ghost use Rattle.avr_macro.specs.declared.errors.MacroWhy.TheVariants.{Memory};

    ghost from_gives = { λ _ why. why ≡ Memory };

    fn from(_e: AllocError) -> MacroWhy {
        MacroWhy::Memory
    }
}

impl<T: Drop> From<AllocFailed<T>> for MacroWhy {
    ghost use Rattle.std.specs.Prelude.{◌≡◌};
    ghost use Rattle.avr_macro.specs.declared.errors.MacroWhy.TheVariants.{Memory};

    ghost from_gives = { λ _ why. why ≡ Memory };

    fn from(_e: AllocFailed<T>) -> MacroWhy {
        MacroWhy::Memory
    }
}
