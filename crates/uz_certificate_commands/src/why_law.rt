//! The law of ways.

ghost use Rattle.uz_certificate_commands.specs.WhyCommand.{OneReading};

use avr_decode::at_most_one;

/// The law that a flash has one reading. Does nothing.
pub fn reading_is_unique()
    ensures { OneReading }
{
    at_most_one();
}
