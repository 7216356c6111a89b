//! Numbers as fields of instructions.

ghost use Rattle.std.specs.Prelude.{◌≡◌, ◌≤◌};
ghost use Rattle.avr_text.specs.Fields.{field as field_of};

use avr_table::Field;

/// The low bits of a number, a negative one in two's complement.
pub fn field<const BITS: u32>(number: i64) -> Field<BITS>
    requires { BITS ≤ 16 }
    ensures { result ≡ field_of BITS number }
{
    let size = 1i64 << BITS;
    let value = number.rem_euclid(size) as u16;
    Field { value }
}
