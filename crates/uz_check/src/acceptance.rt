//! The whole check.

ghost use Rattle.std.specs.Prelude.{◌≡◌, ◌≤◌, ◌<◌, ◌+◌, ◌↔◌, ℕ, Some, None, IsNone, IfSome, IsOk, IfOk, IfErr};
ghost use Rattle.uz_schedule.specs.WellFormed.{WellFormed};
ghost use Rattle.uz_check.specs.Acceptance.{Accepts};
ghost use Rattle.uz_check.specs.Certified.{Certified};
ghost use Rattle.uz_check.specs.ImpliedLines.{instances_to_check};
ghost use Rattle.uz_check.specs.Refusal.{FirstRefusal, IsThere};

use crate::entering::entry_refusal;
use crate::points::points_refusal;
use crate::refusal::RefusedWhy;
use crate::rests::rests_refusal;
use crate::soundness;
use crate::steadiness::schedule_refusal;
use std::marker::Model;
use uz_hex::Image;
use uz_rules::local_is_unique;
use uz_schedule::Cert;

/// An image and a certificate that meet all rules. Only `check` makes one.
#[derive(Drop)]
pub struct Accepted {
    image: Image,
    cert: Cert,
}

impl Model for Accepted {
    ghost use Rattle.std.specs.Prelude.{ℕ};
    ghost use Rattle.std.specs.Ordering.{nat_cmp};
    ghost use Rattle.uz_check.specs.Pair.{Pair};
    ghost use Rattle.uz_check.specs.Acceptance.{Accepts};
    ghost use Rattle.uz_schedule.specs.WellFormed.{WellFormed};
    ghost use Rattle.std.specs.Coded.{codes, coded_ℕ};
    ghost use Rattle.std.specs.FinMap as map;

    ghost Value = { Pair };

    ghost coded = { Prim.hlevel (codes, map.code {R = nat_cmp} coded_ℕ coded_ℕ) };

    ghost view = { λ a. record { image = a.image; cert = a.cert } };

    ghost invariant = { λ a. WellFormed a.cert × Accepts a.image a.cert };
}

impl Accepted {
    /// The image. No memory.
    pub fn image(&self) -> &Image
        ensures same { result.now ≡ self.now.image }
        ensures accepted { Accepts self.now.image self.now.cert }
    {
        &self.image
    }

    /// The certificate. No memory.
    pub fn cert(&self) -> &Cert
        ensures same { result.now ≡ self.now.cert }
        ensures well_formed { WellFormed self.now.cert }
        ensures accepted { Accepts self.now.image self.now.cert }
    {
        &self.cert
    }

    /// Both, given back. No memory.
    pub fn into_parts(self) -> (Image, Cert)
        ensures accepted { Accepts result.0 result.1 }
        ensures parts { (result.0 ≡ self.image) × (result.1 ≡ self.cert) }
    {
        let Accepted { image, cert } = self;
        (image, cert)
    }
}

/// An image and a certificate that are refused, and the first failing item.
#[derive(Drop)]
pub struct Refused {
    /// The first failing item.
    pub why: RefusedWhy,
    /// The image that was checked.
    pub image: Image,
    /// The certificate that was checked.
    pub cert: Cert,
}

/// The first item that fails, in the order of `RefusedWhy`. Only points count as looked at.
fn first_refusal(image: &Image, cert: &Cert, looked: &mut u64) -> Option<RefusedWhy>
    requires { WellFormed cert.now }
    ensures first { FirstRefusal image.now cert.now result }
    ensures few { looked.new ≤ looked.old + instances_to_check cert.now }
{
    if let Some(why) = schedule_refusal(&cert.schedule) {
        return Some(why);
    }
    if let Some(why) = rests_refusal(cert) {
        return Some(why);
    }
    if let Some(why) = entry_refusal(cert) {
        return Some(why);
    }
    points_refusal(image, cert, looked)
}

/// Why a pair is refused: the first failing item, and None exactly where `check` accepts the pair. Its condition is that
/// the certificate is well formed (`uz_cert::well_formed`). Takes no memory.
pub fn verdict(image: &Image, cert: &Cert) -> Option<RefusedWhy>
    requires { WellFormed cert.now }
    ensures exact { FirstRefusal image.now cert.now result }
    ensures accepted { IsNone result ↔ Accepts image.now cert.now }
    ensures there { IfSome result (IsThere cert.now) }
{
    local_is_unique();
    let mut looked = 0;
    first_refusal(image, cert, &mut looked)
}

/// Checks an image against a certificate, and hands both back either way. Takes no memory, and a time linear in the
/// instances that are looked at with their successors, and in the lines of the boxes.
///
/// Where it accepts them, then from every state that meets the certificate's entry condition, for every list of pad words and
/// every number of clocks, the machine never stops, its sync edges, pixels, sounds and returns are exactly those of the
/// schedule, each at its clock, and each interrupt is taken with TCNT1 0 to 3.
pub fn check(image: Image, cert: Cert) -> Result<Accepted, Refused>
    requires { WellFormed cert }
    ensures certified { IfOk result (λ a. Certified a.image a.cert) }
    ensures accepted { IsOk result ↔ Accepts image cert }
    ensures same { IfOk result (λ a. (a.image ≡ image) × (a.cert ≡ cert)) }
    ensures refused { IfErr result (λ r. FirstRefusal image cert (Some r.why) × (r.image ≡ image) × (r.cert ≡ cert)) }
    ensures there { IfErr result (λ r. IsThere r.cert r.why) }
{
    let mut looked = 0;
    check_counted(image, cert, &mut looked)
}

/// Checks an image against a certificate as `check` does, and counts the instances that the local rule is asked of. `looked`
/// rises by at most the number of instances on lines that the line before doesn't imply, and stays at the greatest u64.
/// Takes no memory.
pub fn check_counted(image: Image, cert: Cert, looked: &mut u64) -> Result<Accepted, Refused>
    requires { WellFormed cert }
    ensures certified { IfOk result (λ a. Certified a.image a.cert) }
    ensures accepted { IsOk result ↔ Accepts image cert }
    ensures same { IfOk result (λ a. (a.image ≡ image) × (a.cert ≡ cert)) }
    ensures refused { IfErr result (λ r. FirstRefusal image cert (Some r.why) × (r.image ≡ image) × (r.cert ≡ cert)) }
    ensures there { IfErr result (λ r. IsThere r.cert r.why) }
    ensures few { looked.new ≤ looked.old + instances_to_check cert }
{
    soundness();
    local_is_unique();
    match first_refusal(&image, &cert, looked) {
        None => Ok(Accepted { image, cert }),
        Some(why) => Err(Refused { why, image, cert }),
    }
}
