//! Laws of the definitions. Each is the contract of a function that does nothing.

ghost use Rattle.std.specs.Prelude.{◌≡◌, ℕ, Option, None};
ghost use Rattle.std.specs.Ordering.{nat_cmp};
ghost use Rattle.std.specs.FinMap.{FinMap};
ghost use Rattle.uz_schedule.specs.declared.certificate.Cert.{Cert};
ghost use Rattle.uz_check.specs.Acceptance.{Accepts};
ghost use Rattle.uz_check.specs.declared.refusal.RefusedWhy.{RefusedWhy};
ghost use Rattle.uz_check.specs.Refusal.{FirstRefusal};

use uz_rules::local_is_unique;

/// A pair has one first refusal, and none where all rules hold.
pub fn verdict_is_unique()
    ensures one { (image : FinMap nat_cmp ℕ) (cert : Cert) (a b : Option RefusedWhy) → FirstRefusal image cert a
        → FirstRefusal image cert b → a ≡ b }
    ensures none { (image : FinMap nat_cmp ℕ) (cert : Cert) → Accepts image cert → FirstRefusal image cert None }
{
    local_is_unique();
}
