//! Why a text is no Intel HEX text, and in which line.

ghost use Rattle.std.specs.Prelude.{◌≡◌};
ghost use Rattle.uz_hex.specs.WhyNames.{hex_why_name};

use std::alloc::AllocError;

/// Why a line is refused, in the order that decides where several stand of one line.
#[derive(Clone, Copy, Debug)]
pub enum HexWhy {
    /// The line isn't blank and doesn't begin with `:`.
    NoColon,
    /// A byte after the colon is no hexadecimal digit.
    BadDigit,
    /// There are fewer than 10 digits, or their number isn't twice the record length plus 10.
    Short,
    /// The record's bytes don't sum to 0 modulo 256.
    Sum,
    /// The record type is above 05.
    Kind,
    /// The record length isn't 0 for type 01, 2 for types 02 and 04, 4 for types 03 and 05.
    Length,
    /// A data byte has an address of 65,536 or more.
    Range,
    /// A data byte differs from one given before at its address.
    Conflict,
    /// No end record came. The line is the number of LF bytes plus 1.
    NoEnd,
    /// There was not enough memory. The line says nothing.
    Memory,
}

impl HexWhy {
    /// The name, as it is printed.
    pub fn name(self) -> &'static str
        ensures { result.now ≡ hex_why_name self }
    {
        match self {
            HexWhy::NoColon => "NoColon",
            HexWhy::BadDigit => "BadDigit",
            HexWhy::Short => "Short",
            HexWhy::Sum => "Sum",
            HexWhy::Kind => "Kind",
            HexWhy::Length => "Length",
            HexWhy::Range => "Range",
            HexWhy::Conflict => "Conflict",
            HexWhy::NoEnd => "NoEnd",
            HexWhy::Memory => "Memory",
        }
    }
}

/// The first faulty line of a text, counted from 1, and the first of its faults.
#[derive(Clone, Copy, Debug)]
pub struct HexError {
    pub line: u32,
    pub why: HexWhy,
}

impl From<AllocError> for HexError {
    ghost use Rattle.std.specs.Prelude.{◌≡◌};
    ghost use Rattle.uz_hex.specs.declared.errors.HexWhy.TheVariants.{Memory};

    ghost from_gives = { λ _ e. e.why ≡ Memory };

    fn from(_error: AllocError) -> HexError {
        HexError {
            line: 0,
            why: HexWhy::Memory,
        }
    }
}
