//! Which points say the same at every line.

ghost use Rattle.std.specs.Prelude.{◌≡◌, slice_get};
ghost use Rattle.std.specs.List.{list_all};
ghost use Rattle.uz_check.specs.Folding.{keeps_by_lines as fact_keeps, pair_keeps_by_lines as pair_fact_keeps};
ghost use Rattle.uz_check.specs.Folding.{has_no_line as point_has_no_line, has_no_line_there as no_line_there};
ghost use Rattle.uz_check.specs.Folding.{is_plain as plain};

use uz_schedule::{Cert, Fact, PairFact, Point};

/// Whether a fact says the same at every line.
fn keeps_by_lines(fact: &Fact) -> bool
    ensures { result ≡ fact_keeps fact.now }
{
    match fact {
        Fact::Line(_, _) => false,
        _ => true,
    }
}

/// Whether a fact of a pair does.
fn pair_keeps_by_lines(fact: &PairFact) -> bool
    ensures { result ≡ pair_fact_keeps fact.now }
{
    match fact {
        PairFact::Line(_, _) => false,
        _ => true,
    }
}

/// Whether each of these facts does.
fn all_keep(facts: &[Fact]) -> bool
    ensures { result ≡ list_all fact_keeps facts.now }
{
    'each: for fact in facts {
        if !keeps_by_lines(fact) {
            return false;
        }
    }
    true
}

/// Whether each of these facts of pairs does.
fn pairs_keep(facts: &[PairFact]) -> bool
    ensures { result ≡ list_all pair_fact_keeps facts.now }
{
    'each: for fact in facts {
        if !pair_keeps_by_lines(fact) {
            return false;
        }
    }
    true
}

/// Whether no fact of a point is `Line`.
fn has_no_line(point: &Point) -> bool
    ensures { result ≡ point_has_no_line point.now }
{
    all_keep(&point.regs)
        && (pairs_keep(&point.pairs)
            && (all_keep(point.stack.as_slice()) && all_keep(point.cells.as_slice())))
}

/// Whether no fact of the point of this number is `Line`, which is so where there is no such point.
fn has_no_line_there(cert: &Cert, id: u32) -> bool
    ensures { result ≡ no_line_there (slice_get cert.now.points id) }
{
    match cert.points.as_slice().get(id as usize) {
        Some(point) => has_no_line(point),
        None => true,
    }
}

/// Whether no fact of the points of these numbers is.
fn have_no_line(cert: &Cert, ids: &[u32]) -> bool
    ensures { result ≡ list_all (λ id. no_line_there (slice_get cert.now.points id)) ids.now }
{
    'each: for id in ids {
        if !has_no_line_there(cert, *id) {
            return false;
        }
    }
    true
}

/// Whether no fact of a point, and of its named successors, is `Line`.
pub(crate) fn is_plain(cert: &Cert, point: &Point) -> bool
    ensures { result ≡ plain cert.now point.now }
{
    has_no_line(point) && have_no_line(cert, point.next.as_slice())
}
