//! The pulses of NTSC, by SMPTE 170M-2004.

ghost use Rattle.std.specs.Prelude.{◌≡◌};
ghost use Rattle.uz_report.specs.Order.{is_same as are_same};
ghost use Rattle.uz_report.specs.Pulses.{kind_of, longer_kind, range_of};
ghost use Rattle.uz_report.specs.Words.{name_of};

use crate::range::{Range, lasts_from, lasts_to};

/// What a pulse of sync is meant to be, by how long sync is low.
#[derive(Clone, Copy)]
pub(crate) enum PulseKind {
    /// 2.3 us, before and behind the broad pulses.
    Equalizing,
    /// 4.7 us, at the begin of a line.
    Horizontal,
    /// Half a line less a serration: the vertical sync.
    Broad,
    /// No pulse of NTSC.
    Other,
}

/// What a pulse of 10 us or more is, or of less.
fn longer(low: u32) -> PulseKind
    ensures { result ≡ longer_kind low }
{
    if lasts_from(10_000, low) {
        if lasts_to(31_778, low) {
            PulseKind::Broad
        } else {
            PulseKind::Other
        }
    } else {
        PulseKind::Horizontal
    }
}

impl PulseKind {
    /// What a pulse is that is low for so many clocks: the bounds between the kinds are this project's choice.
    pub(crate) fn of(low: u32) -> Self
        ensures { result ≡ kind_of low }
    {
        if lasts_from(3500, low) {
            longer(low)
        } else if lasts_from(1000, low) {
            PulseKind::Equalizing
        } else {
            PulseKind::Other
        }
    }

    /// How long sync may be low, where this is a pulse of NTSC.
    pub(crate) fn range(self) -> Option<Range>
        ensures { result ≡ range_of self }
    {
        match self {
            PulseKind::Equalizing => Some(Range {
                least: 2200,
                most: 2400,
            }),
            PulseKind::Horizontal => Some(Range {
                least: 4600,
                most: 4800,
            }),
            PulseKind::Broad => Some(Range {
                least: 26_978,
                most: 27_178,
            }),
            PulseKind::Other => None,
        }
    }

    /// Whether both are one.
    pub(crate) fn is_same(self, other: PulseKind) -> bool
        ensures { result ≡ are_same self other }
    {
        matches!(
            (self, other),
            (PulseKind::Equalizing, PulseKind::Equalizing)
                | (PulseKind::Horizontal, PulseKind::Horizontal)
                | (PulseKind::Broad, PulseKind::Broad)
                | (PulseKind::Other, PulseKind::Other)
        )
    }

    /// The word for it, behind a space.
    pub(crate) fn name(self) -> &'static [u8]
        ensures { result.now ≡ name_of self }
    {
        match self {
            PulseKind::Equalizing => b" equalizing",
            PulseKind::Horizontal => b" horizontal",
            PulseKind::Broad => b" broad",
            PulseKind::Other => b" other",
        }
    }
}
