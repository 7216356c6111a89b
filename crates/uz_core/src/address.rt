//! Data addresses of the ATmega644 (data sheet, "AVR Memories" and "Register Summary"), and the vector of its one
//! interrupt. An I/O register's data address is its I/O address and 0x20.

ghost use Rattle.std.specs.Prelude.{◌≡◌};
ghost use Rattle.uz_core.specs.Core.{is_core_address};

/// The data address of I/O register 0. Below it R0 to R31 stand.
pub const IO_BASE: u16 = 0x20;

/// The pins of port A.
pub const PINA: u16 = 0x20;

/// The directions of port A.
pub const DDRA: u16 = 0x21;

/// The outputs of port A.
pub const PORTA: u16 = 0x22;

/// The pins of port B.
pub const PINB: u16 = 0x23;

/// The directions of port B.
pub const DDRB: u16 = 0x24;

/// The outputs of port B.
pub const PORTB: u16 = 0x25;

/// The pins of port C.
pub const PINC: u16 = 0x26;

/// The directions of port C.
pub const DDRC: u16 = 0x27;

/// The outputs of port C.
pub const PORTC: u16 = 0x28;

/// The pins of port D.
pub const PIND: u16 = 0x29;

/// The directions of port D.
pub const DDRD: u16 = 0x2A;

/// The outputs of port D.
pub const PORTD: u16 = 0x2B;

/// Timer 1: its flags.
pub const TIFR1: u16 = 0x36;

/// The low byte of the stack pointer.
pub const SPL: u16 = 0x5D;

/// The high byte of the stack pointer.
pub const SPH: u16 = 0x5E;

/// The status register.
pub const SREG: u16 = 0x5F;

/// Timer 1: its interrupt mask.
pub const TIMSK1: u16 = 0x6F;

/// Timer 1: its control register A.
pub const TCCR1A: u16 = 0x80;

/// Timer 1: its control register B.
pub const TCCR1B: u16 = 0x81;

/// Timer 1: the low byte of the count.
pub const TCNT1L: u16 = 0x84;

/// Timer 1: the high byte of the count.
pub const TCNT1H: u16 = 0x85;

/// Timer 1: the low byte of the compare register A.
pub const OCR1AL: u16 = 0x88;

/// Timer 1: the high byte of the compare register A.
pub const OCR1AH: u16 = 0x89;

/// Timer 2: the compare register A, which is the sound's output.
pub const OCR2A: u16 = 0xB3;

/// The last byte of the RAM.
pub const RAM_END: u16 = 0x10FF;

/// The word address at which TIMER1_COMPA is served (data sheet, "Interrupts").
pub const TIMER1_COMPA: u16 = 0x1A;

/// Whether a data address is one of the core's own: R0 to R31, SPL, SPH, SREG.
#[inline(always)]
pub fn is_core_address(at: u16) -> bool
    ensures { result ≡ is_core_address at }
{
    at < IO_BASE || SPL <= at && at <= SREG
}
