//! The joined certificate, where the check accepts it.

ghost use Rattle.std.specs.Prelude.{◌≡◌, false, true, IfErr, IfOk, OnOk, Ok as OkOf};
ghost use Rattle.uz_schedule.specs.WellFormed.{WellFormed};
ghost use Rattle.uz_check.specs.Acceptance.{Accepts};
ghost use Rattle.uz_join.specs.Joined.{SameButPoints};
ghost use Rattle.uz_join.specs.Unjoined.{IsUnjoined};
ghost use Rattle.uz_join.specs.Same.{SameInstances};

use crate::copies::{entry_of, rests_of};
use crate::joining::join_both;
use std::alloc::{AllocError, Global};
use std::mem::replace;
use uz_check::verdict;
use uz_hex::Image;
use uz_schedule::{Cert, Sequence, well_formed};

/// Why a certificate isn't joined.
#[derive(Drop)]
pub enum Unjoined {
    /// There isn't enough memory.
    Memory,
    /// The joined certificate says what the other said, and it is not well formed or the check refuses it.
    Refused { joined: Cert },
}

/// Whether a certificate is well formed and accepted. Takes no memory.
pub fn passes(image: &Image, cert: &Cert) -> bool
    ensures fits { result ≡ true → WellFormed cert.now }
    ensures accepted { result ≡ true → Accepts image.now cert.now }
    ensures refused { result ≡ false → WellFormed cert.now → Accepts image.now cert.now → ⊥ }
{
    well_formed(cert) && verdict(image, cert).is_none()
}

/// Has rests and entry name points by other numbers.
fn renumber(alloc: Global, cert: &mut Cert, numbers: &[u32]) -> Result<(), AllocError>
    ensures same { OnOk result (SameButPoints cert.old cert.new) }
    ensures points { OnOk result (cert.new.points ≡ cert.old.points) }
{
    let rests = rests_of(alloc, cert.rests.as_slice(), numbers)?;
    cert.rests = rests;
    cert.entry = entry_of(&cert.entry, numbers);
    Ok(())
}

/// Joins the points of a certificate. Whether some are joined; else it stays as it was.
fn join(alloc: Global, cert: &mut Cert) -> Result<bool, AllocError>
    ensures same { IfOk result (λ some. SameButPoints cert.old cert.new) }
    ensures instances { IfOk result (λ some. SameInstances cert.old.points cert.new.points) }
    ensures stays { result ≡ OkOf false → cert.new ≡ cert.old }
{
    let points = replace(&mut cert.points, Sequence::new(alloc));
    let joined = join_both(alloc, points.into_vec())?;
    cert.points = Sequence::from_vec(joined.points);
    match joined.numbers {
        Some(numbers) => {
            renumber(alloc, cert, numbers.as_slice())?;
            Ok(true)
        }
        None => Ok(false),
    }
}

/// An accepted certificate whose points are joined line by line and count by count. Header and schedule stay, and so do entry and
/// rests but for the numbers of their points, and the instances of its points are the same ones. Its points are let go while the
/// joined ones are made, so that not all are there twice: so it isn't left where it isn't joined.
///
/// Refused comes only with a joined certificate that says the same, and that isn't well formed or that the check refuses.
pub fn joined(alloc: Global, image: &Image, cert: Cert) -> Result<Cert, Unjoined>
    requires fits { WellFormed cert }
    requires accepted { Accepts image.now cert }
    ensures fits { IfOk result WellFormed }
    ensures accepted { IfOk result (Accepts image.now) }
    ensures same { IfOk result (SameButPoints cert) }
    ensures instances { IfOk result (λ c. SameInstances cert.points c.points) }
    ensures refused { IfErr result (IsUnjoined image.now cert) }
{
    let mut cert = cert;
    match join(alloc, &mut cert) {
        Ok(false) => Ok(cert),
        Ok(true) => {
            if passes(image, &cert) {
                Ok(cert)
            } else {
                Err(Unjoined::Refused { joined: cert })
            }
        }
        Err(AllocError) => {
            drop(cert);
            Err(Unjoined::Memory)
        }
    }
}
