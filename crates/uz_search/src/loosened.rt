//! Loosening: of a pair of which nothing is known nothing is kept of its bytes.

ghost use Rattle.std.specs.Prelude.{◌≡◌, ◌<◌, length};
ghost use Rattle.uz_search.specs.Loosened.{loosened as loosened_instance, loosened_pair, loosened_register, loosened_value as loosened_of};
ghost use Rattle.uz_search.specs.Widenings.{is_whole as is_whole_pair};

use uz_schedule::{Instance, Span, Val, Wide};

/// Whether a range has every 16-bit number, so that nothing is known of a pair.
pub(crate) fn is_whole(range: Wide) -> bool
    ensures { result ≡ is_whole_pair range }
{
    range.lo() == 0 && range.hi() == 65535
}

/// Every byte in place of a range. Interrupted values stay.
fn loosened_value(value: Val) -> Val
    ensures { result ≡ loosened_of value }
{
    match value {
        Val::Range(range) => Val::Range(Span::between(0, range.hi().max(255))),
        Val::Old(register) => Val::Old(register),
        Val::OldFlags => Val::OldFlags,
    }
}

/// Loosens a register.
fn loosen_register(registers: &mut [Val; 32], register: usize)
    requires { register < 32 }
    ensures before { length registers.old ≡ 32 }
    ensures after { length registers.new ≡ 32 }
    ensures set { registers.new ≡ loosened_register register registers.old }
{
    registers[register] = loosened_value(registers[register]);
}

/// Loosens the two bytes of a pair of which nothing is known, from register `low` on.
fn loosen_pair(pair: Wide, low: usize, registers: &mut [Val; 32])
    requires { low < 31 }
    ensures { registers.new ≡ loosened_pair pair low registers.old }
{
    if is_whole(pair) {
        loosen_register(registers, low);
        loosen_register(registers, low + 1);
    }
}

/// Loosens the bytes of each pair of which nothing is known.
pub(crate) fn loosen(at: &mut Instance)
    ensures { at.new ≡ loosened_instance at.old }
{
    loosen_pair(at.pairs[0], 26, &mut at.regs);
    loosen_pair(at.pairs[1], 28, &mut at.regs);
    loosen_pair(at.pairs[2], 30, &mut at.regs);
}
