//! A certificate that was read by version 2, with what only version 3 has.

use uz_schedule::{Cert, Compared, Point, RuleVersion, Sequence};

/// What a point is given.
#[derive(Clone, Copy)]
pub(crate) enum Given {
    /// The register of a cover.
    Split(u8),
    /// What the flags tell.
    Told(Compared),
}

/// Gives it to a point.
fn give(point: &mut Point, given: Given) {
    match given {
        Given::Split(r) => point.split = Some(r),
        Given::Told(told) => point.compared = told,
    }
}

/// Gives it to the point of this number, if there is one.
fn give_to(points: &mut [Point], id: usize, given: Given) {
    if id < points.len() {
        give(&mut points[id], given);
    }
}

/// The certificate by the rules of a version.
pub(crate) fn judged_by(cert: Cert, version: RuleVersion) -> Cert {
    let mut cert = cert;
    cert.head.version = version;
    cert
}

/// The certificate with one point given something.
pub(crate) fn with_given(cert: Cert, id: usize, given: Given) -> Cert {
    let Cert {
        head,
        schedule,
        rests,
        entry,
        points,
    } = cert;
    let mut points = points.into_vec();
    give_to(points.as_mut_slice(), id, given);
    Cert {
        head,
        schedule,
        rests,
        entry,
        points: Sequence::from_vec(points),
    }
}
