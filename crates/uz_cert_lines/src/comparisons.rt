//! The words of what the flags tell.

ghost use Rattle.std.specs.Prelude.{◌≡◌, ◌<◌, IfOk, IfErr, Ok, Err};
ghost use Rattle.uz_cert_lines.specs.Comparisons.{two_listed as two_of, three_listed as three_of, four_listed as four_of};
ghost use Rattle.uz_cert_lines.specs.Comparisons.{value_told as value_of, register_told as register_of, constant_told as constant_of};
ghost use Rattle.uz_cert_lines.specs.Comparisons.{registers_told as registers_of, constants_told as constants_of};
ghost use Rattle.uz_cert_lines.specs.Comparisons.{result_told as result_of, results_told as results_of, in_range};
ghost use Rattle.uz_cert_lines.specs.Comparisons.{pair_named as pair_of_name, comparison_named as comparison_of_name};
ghost use Rattle.uz_cert_lines.specs.Comparisons.{comparison as comparison_of, is_nothing as tells_nothing};
ghost use Rattle.uz_cert_lines.specs.Values.{ends};
ghost use Rattle.uz_schedule.specs.declared.facts.Compared.TheVariants as told;

use crate::values::one_number;
use crate::why::CertWhy;
use uz_schedule::{Against, Compared, Span, Wide};

/// Two numbers below these limits, with a comma between them.
#[tactic(auto, unfolding(crate::specs::Comparisons::two_listed))]
fn two_listed(a: u32, b: u32, word: &[u8]) -> Result<(u32, u32), CertWhy>
    ensures numbers { result ≡ two_of a b word.now }
    ensures below { IfOk result (λ n. (n.0 < a) × (n.1 < b)) }
{
    match uz_hex::cut(word, b',') {
        Some((front, back)) => {
            let m = one_number(0, a, front)?;
            let n = one_number(0, b, back)?;
            Ok((m, n))
        }
        None => Err(CertWhy::Word),
    }
}

/// Three numbers below these limits, with commas between them.
#[tactic(auto, unfolding(crate::specs::Comparisons::three_listed))]
fn three_listed(a: u32, b: u32, c: u32, word: &[u8]) -> Result<(u32, (u32, u32)), CertWhy>
    ensures numbers { result ≡ three_of a b c word.now }
    ensures below { IfOk result (λ n. (n.0 < a) × (n.1.0 < b) × (n.1.1 < c)) }
{
    match uz_hex::cut(word, b',') {
        Some((front, back)) => {
            let m = one_number(0, a, front)?;
            let n = two_listed(b, c, back)?;
            Ok((m, n))
        }
        None => Err(CertWhy::Word),
    }
}

/// A number below the first limit and three below the second, with commas between them.
#[tactic(auto, unfolding(crate::specs::Comparisons::four_listed))]
fn four_listed(a: u32, b: u32, word: &[u8]) -> Result<(u32, (u32, (u32, u32))), CertWhy>
    ensures numbers { result ≡ four_of a b word.now }
    ensures below { IfOk result (λ n. (n.0 < a) × (n.1.0 < b) × (n.1.1.0 < b) × (n.1.1.1 < b)) }
{
    match uz_hex::cut(word, b',') {
        Some((front, back)) => {
            let m = one_number(0, a, front)?;
            let n = three_listed(b, b, b, back)?;
            Ok((m, n))
        }
        None => Err(CertWhy::Word),
    }
}

/// `tst:D`, of which this is D.
#[tactic(auto, unfolding(crate::specs::Comparisons::value_told))]
fn value_told(word: &[u8]) -> Result<Compared, CertWhy>
    ensures { result ≡ value_of word.now }
{
    let d = one_number(0, 32, word)?;
    Ok(Compared::Value(d as u8))
}

/// `cp:D,R`, of which this follows the name.
#[tactic(auto, unfolding(crate::specs::Comparisons::register_told))]
fn register_told(word: &[u8]) -> Result<Compared, CertWhy>
    ensures { result ≡ register_of word.now }
{
    let (d, r) = two_listed(32, 32, word)?;
    Ok(Compared::Byte(d as u8, Against::Register(r as u8)))
}

/// `cpi:D,K`, of which this follows the name.
#[tactic(auto, unfolding(crate::specs::Comparisons::constant_told))]
fn constant_told(word: &[u8]) -> Result<Compared, CertWhy>
    ensures { result ≡ constant_of word.now }
{
    let (d, k) = two_listed(32, 256, word)?;
    Ok(Compared::Byte(d as u8, Against::Constant(k as u8)))
}

/// `cpw:D,R,H`, of which this follows the name.
#[tactic(auto, unfolding(crate::specs::Comparisons::registers_told))]
fn registers_told(word: &[u8]) -> Result<Compared, CertWhy>
    ensures { result ≡ registers_of word.now }
{
    let (d, other) = three_listed(31, 32, 32, word)?;
    Ok(Compared::Pair(d as u8, Against::Register(other.0 as u8), other.1 as u8))
}

/// `cpiw:D,K,H`, of which this follows the name.
#[tactic(auto, unfolding(crate::specs::Comparisons::constants_told))]
fn constants_told(word: &[u8]) -> Result<Compared, CertWhy>
    ensures { result ≡ constants_of word.now }
{
    let (d, other) = three_listed(31, 256, 32, word)?;
    Ok(Compared::Pair(d as u8, Against::Constant(other.0 as u8), other.1 as u8))
}

/// What is told of a byte of a range less a constant, where the range is in order.
fn byte_result(d: u32, k: u32, lo: u32, hi: u32) -> Result<Compared, CertWhy>
    requires { (d < 32) × (k < 256) × (lo < 256) × (hi < 256) }
    ensures { result ≡ in_range lo hi (told.Result d k (ends lo hi)) }
{
    if lo <= hi {
        Ok(Compared::Result(d as u8, k as u8, Span::between(lo as u8, hi as u8)))
    } else {
        Err(CertWhy::Order)
    }
}

/// `sub:D,K,LO,HI`, of which this follows the name.
#[tactic(auto, unfolding(crate::specs::Comparisons::result_told))]
fn result_told(word: &[u8]) -> Result<Compared, CertWhy>
    ensures { result ≡ result_of word.now }
{
    let (d, other) = four_listed(32, 256, word)?;
    byte_result(d, other.0, other.1.0, other.1.1)
}

/// What is told of a pair of a range less a constant, where the range is in order.
fn pair_result(d: u32, k: u32, lo: u32, hi: u32) -> Result<Compared, CertWhy>
    requires { (d < 31) × (k < 65536) × (lo < 65536) × (hi < 65536) }
    ensures { result ≡ in_range lo hi (told.PairResult d k (ends lo hi)) }
{
    if lo <= hi {
        Ok(Compared::PairResult(d as u8, k as u16, Wide::between(lo as u16, hi as u16)))
    } else {
        Err(CertWhy::Order)
    }
}

/// `subw:D,K,LO,HI`, of which this follows the name.
#[tactic(auto, unfolding(crate::specs::Comparisons::results_told))]
fn results_told(word: &[u8]) -> Result<Compared, CertWhy>
    ensures { result ≡ results_of word.now }
{
    let (d, other) = four_listed(31, 65536, word)?;
    pair_result(d, other.0, other.1.0, other.1.1)
}

/// What is told of a pair, by its name and what follows.
#[tactic(auto, unfolding(crate::specs::Comparisons::pair_named))]
fn pair_named(name: &[u8], word: &[u8]) -> Result<Compared, CertWhy>
    ensures { result ≡ pair_of_name name.now word.now }
{
    if name == b"cpw".as_slice() {
        return registers_told(word);
    }
    if name == b"cpiw".as_slice() {
        return constants_told(word);
    }
    if name == b"subw".as_slice() {
        return results_told(word);
    }
    Err(CertWhy::Word)
}

/// What is told, by its name and what follows.
#[tactic(auto, unfolding(crate::specs::Comparisons::comparison_named))]
fn comparison_named(name: &[u8], word: &[u8]) -> Result<Compared, CertWhy>
    ensures { result ≡ comparison_of_name name.now word.now }
{
    if name == b"tst".as_slice() {
        return value_told(word);
    }
    if name == b"cp".as_slice() {
        return register_told(word);
    }
    if name == b"cpi".as_slice() {
        return constant_told(word);
    }
    if name == b"sub".as_slice() {
        return result_told(word);
    }
    pair_named(name, word)
}

/// A word of what the flags tell.
#[tactic(auto, unfolding(crate::specs::Comparisons::comparison))]
pub(crate) fn comparison(word: &[u8]) -> Result<Compared, CertWhy>
    ensures { result ≡ comparison_of word.now }
{
    match uz_hex::cut(word, b':') {
        Some((name, rest)) => comparison_named(name, rest),
        None => Err(CertWhy::Word),
    }
}

/// Whether nothing is told.
pub(crate) fn is_nothing(compared: &Compared) -> bool
    ensures { result ≡ tells_nothing compared.now }
{
    match compared {
        Compared::Nothing => true,
        Compared::Byte(_, _) => false,
        Compared::Pair(_, _, _) => false,
        Compared::Result(_, _, _) => false,
        Compared::PairResult(_, _, _) => false,
        Compared::Value(_) => false,
    }
}
