//! The local rule of a point's instances, asked one after another. The point's instruction is read once, and each instance is made of
//! the one before it.

ghost use Rattle.std.specs.Prelude.{◌≡◌, ◌<◌, true, false, length, slice_get, Some};
ghost use Rattle.uz_schedule.specs.declared.states.Point.{Point};
ghost use Rattle.uz_schedule.specs.Instances.{instance_at};
ghost use Rattle.uz_schedule.specs.WellFormed.{WellFormed};
ghost use Rattle.uz_rules.specs.Local.{local_fail, IsLocal, reason, counted};
ghost use Rattle.uz_rules.specs.Visit.{Keeps, IsVisit, IsAt};

use crate::local_rule::{answer, count, instance_fail, is_stop, point_of, read_at};
use crate::moving::move_to;
use crate::place::place_of;
use crate::varying::{Varying, varying_of};
use avr_table::Instr;
use uz_core::effect;
use uz_hex::Image;
use uz_schedule::{Cert, Instance, Point};
use uz_transfer::{Fail, Step};

/// A point of a certificate, of which the local rule is asked.
#[derive(Clone, Copy)]
pub struct Visit<'a> {
    /// The program.
    pub image: &'a Image,
    /// The certificate.
    pub cert: &'a Cert,
    /// The point's number.
    pub id: u32,
    /// The point.
    pub point: &'a Point,
    /// The instruction at the point's pc, where there is one.
    pub row: Option<Instr>,
}

/// The last instance that a visit came to, of which the next one is made, and room for its step.
#[derive(Drop)]
pub struct LastInstance {
    /// Whether the next instance may be made of the last one.
    pub kept: bool,
    /// The last instance.
    pub at: Instance,
    /// Which facts of the point depend on the line or the count.
    pub varying: Varying,
    /// Room for the step of an instance.
    pub step: Step,
}

impl LastInstance {
    /// No instance: room, to begin with, for those of one point after another.
    #[tactic(auto, using(crate::proofs::VisitLaws::nothing_kept))]
    pub fn none() -> LastInstance
        ensures { (p : Point) → Keeps p result }
    {
        LastInstance {
            kept: false,
            at: Instance::default(),
            varying: Varying::none(),
            step: Step::empty(),
        }
    }

    /// The instance of a point doesn't count any more: another point's come next. A caller that asks of many points keeps one
    /// `LastInstance`, so that little is written for a point of one instance.
    #[tactic(auto, using(crate::proofs::VisitLaws::nothing_kept))]
    pub fn forget(&mut self)
        ensures { (p : Point) → Keeps p self.new }
    {
        self.kept = false;
    }
}

/// Whether a point's box has more than one instance.
fn has_more(point: &Point) -> bool {
    point.l0 < point.l1 || point.c0 < point.c1
}

impl<'a> Visit<'a> {
    /// The visit of point `id`. The point's instruction is read. Takes no memory.
    pub fn new(image: &'a Image, cert: &'a Cert, id: u32) -> Visit<'a>
        requires { id < length cert.now.points }
        ensures image { result.image ≡ image.entry }
        ensures cert { result.cert ≡ cert.entry }
        ensures id { result.id ≡ id }
        ensures visit { IsVisit result }
    {
        let point = point_of(cert, id);
        Visit {
            image,
            cert,
            id,
            point,
            row: read_at(image, point.pc),
        }
    }

    /// The instance at a line and a count is made, where there is one. It is kept where others may follow.
    #[tactic(auto, using(crate::proofs::VisitLaws::first_there, crate::proofs::VisitLaws::first_none))]
    fn make_first(&self, last: &mut LastInstance, l: u16, c: u8) -> bool
        requires fits { WellFormed self.now.cert.now }
        requires visit { IsVisit self.now }
        requires first { last.old.kept ≡ false }
        ensures { IsAt self.now l c result last.new }
    {
        match self.cert.instance(self.id, l, c) {
            Some(at) => {
                last.at = at;
                if has_more(self.point) {
                    last.varying = varying_of(self.point);
                    last.kept = true;
                }
                true
            }
            None => false,
        }
    }

    /// The last instance becomes that at a line and a count, where there is one.
    #[tactic(auto, using(crate::proofs::VisitLaws::moved_there, crate::proofs::VisitLaws::moved_none))]
    fn move_kept(&self, last: &mut LastInstance, l: u16, c: u8) -> bool
        requires fits { WellFormed self.now.cert.now }
        requires visit { IsVisit self.now }
        requires keeps { Keeps self.now.point.now last.old }
        requires kept { last.old.kept ≡ true }
        ensures { IsAt self.now l c result last.new }
    {
        match place_of(&self.cert.schedule, self.point, l, c) {
            Some((clock, level)) => {
                move_to(&mut last.at, self.point, &last.varying, l, c, clock, level);
                true
            }
            None => false,
        }
    }

    /// The visit comes to a line and a count. False where the point has no instance there.
    fn come_to(&self, last: &mut LastInstance, l: u16, c: u8) -> bool
        requires fits { WellFormed self.now.cert.now }
        requires visit { IsVisit self.now }
        requires keeps { Keeps self.now.point.now last.old }
        ensures { IsAt self.now l c result last.new }
    {
        if last.kept {
            self.move_kept(last, l, c)
        } else {
            self.make_first(last, l, c)
        }
    }

    /// Why a line and a count of the point are refused.
    fn fail_at(&self, last: &mut LastInstance, l: u16, c: u8) -> Option<Fail>
        requires fits { WellFormed self.now.cert.now }
        requires visit { IsVisit self.now }
        requires keeps { Keeps self.now.point.now last.old }
        ensures why { result ≡ local_fail self.now.image.now self.now.cert.now self.now.point.now.next.items self.now.point.now.split
            self.now.row (instance_at self.now.cert.now self.now.id l c) }
        ensures keeps { Keeps self.now.point.now last.new }
    {
        let Some(i) = self.row else {
            return Some(Fail::Opcode);
        };
        let e = effect(&i);
        if is_stop(e) {
            return Some(Fail::Opcode);
        }
        if self.come_to(last, l, c) {
            instance_fail(
                self.image,
                self.cert,
                self.point,
                &i,
                e,
                &last.at,
                &mut last.step,
            )
        } else {
            Some(Fail::Box)
        }
    }

    /// The local rule of the point at line `l` and count `c`, as `local` answers it. `last` is the instance of this visit that was asked
    /// before, or none. Adds one to `looked`, which stays at the greatest u64. Takes no memory.
    #[tactic(auto, using(crate::proofs::VisitLaws::tells))]
    pub fn local(
        &self,
        last: &mut LastInstance,
        l: u16,
        c: u8,
        looked: &mut u64,
    ) -> Result<(), Fail>
        requires fits { WellFormed self.now.cert.now }
        requires visit { IsVisit self.now }
        requires keeps { Keeps self.now.point.now last.old }
        ensures answer { IsLocal self.now.image.now self.now.cert.now self.now.id l c (reason result) }
        ensures counted { looked.new ≡ counted looked.old }
        ensures keeps { Keeps self.now.point.now last.new }
    {
        count(looked);
        answer(self.fail_at(last, l, c))
    }
}
