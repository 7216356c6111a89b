// Operand fields taken from the bits of a word.

ghost use Rattle.std.specs.Prelude.{◌≡◌, ◌≤◌, ◌<◌, ◌+◌, ◌-◌, ◌*◌, ◌/◌, ◌%◌, ◌^◌, IfSome, IfNone};

use avr_table::Field;

/// The number in `width` neighbouring bits of a word, the lowest of them at `low`.
fn bits(word: u16, low: u32, width: u32) -> u16
    requires { low + width ≤ 16 }
    ensures value { result ≡ word / 2 ^ low % 2 ^ width }
    ensures below { result < 2 ^ width }
{
    let mask = (1u32 << width) - 1;
    (word as u32 >> low & mask) as u16
}

/// The number whose `width` low bits are `lower`, with `upper` above them.
fn joined(upper: u16, lower: u16, width: u32) -> u16
    requires width { width ≤ 16 }
    requires lower { lower < 2 ^ width }
    requires fits { upper * 2 ^ width < 2 ^ 16 }
    ensures { result ≡ upper * 2 ^ width + lower }
{
    ((upper as u32) << width | lower as u32) as u16
}

/// The field in one run of bits, the lowest of them at `low`.
pub(crate) fn run<const BITS: u32>(word: u16, low: u32) -> Field<BITS>
    requires { low + BITS ≤ 16 }
    ensures { result.value ≡ word / 2 ^ low % 2 ^ BITS }
{
    Field {
        value: bits(word, low, BITS),
    }
}

/// The field in two runs of bits: its `width` low bits stand at `low`, the others at `high`.
#[tactic(auto, using(crate::proofs::FieldLemmas::joined_fits))]
pub(crate) fn runs<const BITS: u32>(word: u16, high: u32, low: u32, width: u32) -> Field<BITS>
    requires high { high + BITS ≤ 16 + width }
    requires low { low + width ≤ 16 }
    requires width { width ≤ BITS }
    requires short { BITS ≤ 16 }
    ensures { result.value ≡ word / 2 ^ high % 2 ^ (BITS - width) * 2 ^ width + word / 2 ^ low % 2 ^ width }
{
    Field {
        value: joined(
            bits(word, high, BITS - width),
            bits(word, low, width),
            width,
        ),
    }
}

/// The displacement of LDD and STD, in three runs of bits: bit 13, bits 11 and 10, bits 2 to 0.
pub(crate) fn displacement(word: u16) -> Field<6>
    ensures { result.value ≡ word / 2 ^ 13 % 2 ^ 1 * 2 ^ 5 + (word / 2 ^ 10 % 2 ^ 2 * 2 ^ 3 + word / 2 ^ 0 % 2 ^ 3) }
{
    Field {
        value: joined(
            bits(word, 13, 1),
            joined(bits(word, 10, 2), bits(word, 0, 3), 3),
            5,
        ),
    }
}

/// The field that is a whole word.
pub(crate) fn whole(word: u16) -> Field<16>
    ensures { result.value ≡ word }
{
    Field { value: word }
}

/// The target of JMP and CALL: a second word that is a word address of the flash.
pub(crate) fn target(word: u16) -> Option<Field<15>>
    ensures some { IfSome result (λ k. k.value ≡ word) }
    ensures none { IfNone result (2 ^ 15 ≤ word) }
{
    Field::new(word)
}
