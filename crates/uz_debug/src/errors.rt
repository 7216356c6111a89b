//! Why a script is refused.

ghost use Rattle.std.specs.Prelude.{◌≡◌};
ghost use Rattle.uz_debug.specs.WhyNames.{script_why_name};

use uz_hex::{LineError, LineWhy};

/// Why a line is refused, in the order of the numbers, from 1.
#[derive(Clone, Copy, Debug)]
pub enum ScriptWhy {
    /// No such command, or another count of words.
    Word,
    /// A number that isn't decimal without leading zeros, or is out of range.
    Number,
    /// The line holds command number 65,537.
    Count,
    /// Memory ran out. This says nothing of the text.
    Memory,
}

impl ScriptWhy {
    /// The name, as it is printed.
    pub fn name(self) -> &'static str
        ensures { result.now ≡ script_why_name self }
    {
        match self {
            ScriptWhy::Word => "Word",
            ScriptWhy::Number => "Number",
            ScriptWhy::Count => "Count",
            ScriptWhy::Memory => "Memory",
        }
    }
}

impl LineWhy for ScriptWhy {
    ghost use Rattle.std.specs.Prelude.{◌≡◌};
    ghost use Rattle.uz_debug.specs.declared.errors.ScriptWhy.TheVariants.{Memory};

    ghost memory = { Memory };

    fn memory() -> ScriptWhy {
        ScriptWhy::Memory
    }
}

/// The first faulty line, counted from 1, and why it is refused. With `Memory` the line is 0.
pub type ScriptError = LineError<ScriptWhy>;
