//! What a window onto a run shows of its turns.

ghost use Rattle.std.specs.Prelude.{◌≡◌, ◌≤◌, ◌<◌, ◌^◌, ◌++◌, [], IfOk, IfSome, List, OnOk, length, Bool, false, true};
ghost use Rattle.uz_proposal.specs.Extents.{after_store, extent_of};
ghost use Rattle.uz_proposal.specs.Lines.{line_shapes, shapes_of};
ghost use Rattle.uz_proposal.specs.Matches.{matches_in};
ghost use Rattle.uz_proposal.specs.Depths.{deeper, handler_depth};
ghost use Rattle.uz_proposal.specs.Moments.{Moment, after_edges, after_kind, bytes_stored, edges_of, matches_of, store_by};

use crate::extents::{Extent, RAM_BEGIN, add_store, no_extents};
use crate::glance::Glance;
use crate::lines::{Line, lines_between};
use crate::stores::Stored;
use std::alloc::{AllocError, Global};
use uz_core::{Edge, EdgeKind};

/// What the turns of a window show: their edges, the clocks at which timer 1 matches within them, for each byte of RAM the least and
/// the greatest value that main stores there and that the interrupt's handler stores there, and how deep the handler's stack gets.
#[derive(Drop)]
pub(crate) struct Window {
    pub(crate) edges: Vec<Edge>,
    pub(crate) matches: Vec<u64>,
    pub(crate) main: Vec<Option<Extent>>,
    pub(crate) handler: Vec<Option<Extent>>,
    /// Whether the handler runs.
    pub(crate) handling: bool,
    /// SP at the handler's first instruction, and the most bytes below it that the handler has put on the stack.
    pub(crate) top: u16,
    pub(crate) depth: u16,
    ghost main_size: { length main.items ≡ 4096 },
    ghost handler_size: { length handler.items ≡ 4096 },
}

/// Whether the handler runs after an edge.
fn goes_on(was: bool, kind: EdgeKind) -> bool
    ensures { result ≡ after_kind was kind }
{
    match kind {
        EdgeKind::Enter(_) => true,
        EdgeKind::Leave => false,
        _ => was,
    }
}

/// Whether the handler runs after some edges.
pub(crate) fn handles_after(was: bool, edges: &[Edge]) -> bool
    ensures { result ≡ after_edges was edges.now }
{
    let mut handling = was;
    for edge in edges {
        handling = goes_on(handling, edge.kind);
    }
    handling
}

/// A store, if it is one of the handler, or of main.
fn if_by(handler: bool, handling: bool, store: Option<Stored>) -> Option<Stored>
    ensures { result ≡ store_by handler handling store }
{
    if handler {
        if handling { store } else { None }
    } else if handling {
        None
    } else {
        store
    }
}

/// Adds the clock of a match within a turn.
fn add_match(
    matches: &mut Vec<u64>,
    began: u64,
    ended: u64,
    left: Option<u32>,
) -> Result<(), AllocError>
    requires { began < 2 ^ 62 }
    ensures { OnOk result (matches.new.items ≡ matches.old.items ++ matches_in began ended left) }
{
    match left {
        None => Ok(()),
        Some(left) => {
            let at = began + u64::from(left);
            if at <= ended {
                matches.push(at)?;
            }
            Ok(())
        }
    }
}

/// The depth of a stack whose top and pointer are given, if it is the handler's and deeper.
fn deepest(handling: bool, top: u16, sp: u16, depth: u16) -> u16
    ensures { result ≡ deeper handling top sp depth }
{
    if handling && depth < top.saturating_sub(sp) {
        top.saturating_sub(sp)
    } else {
        depth
    }
}

impl Window {
    ghost use Rattle.uz_proposal.specs.Windows.{Stands, TakesTurn, Tells};

    /// The window of no turn. `handling` says whether the handler runs before the first one.
    pub(crate) fn new(alloc: Global, handling: bool) -> Result<Window, AllocError>
        ensures { IfOk result (Tells handling []) }
    {
        Ok(Window {
            edges: Vec::new(alloc),
            matches: Vec::new(alloc),
            main: no_extents(alloc)?,
            handler: no_extents(alloc)?,
            handling,
            top: 0,
            depth: 0,
        })
    }

    fn add_stores(&mut self, store: Option<Stored>)
        ensures main { self.new.main.items ≡ after_store self.old.main.items (store_by false self.old.handling store) }
        ensures handler { self.new.handler.items ≡ after_store self.old.handler.items (store_by true self.old.handling store) }
        ensures edges { self.new.edges ≡ self.old.edges }
        ensures matches { self.new.matches ≡ self.old.matches }
        ensures handling { self.new.handling ≡ self.old.handling }
        ensures top { self.new.top ≡ self.old.top }
        ensures depth { self.new.depth ≡ self.old.depth }
    {
        add_store(&mut self.main, if_by(false, self.handling, store));
        add_store(&mut self.handler, if_by(true, self.handling, store));
    }

    /// Takes a turn by what was read before it, its last clock, SP behind it and its edges.
    pub(crate) fn take(
        &mut self,
        glance: &Glance,
        ended: u64,
        sp: u16,
        edges: &[Edge],
    ) -> Result<(), AllocError>
        requires { glance.now.clock < 2 ^ 62 }
        ensures { OnOk result (TakesTurn self.old self.new glance.now ended sp edges.now) }
    {
        add_match(&mut self.matches, glance.clock, ended, glance.left)?;
        self.edges.extend_from_slice(edges)?;
        self.add_stores(glance.store);
        self.handling = handles_after(self.handling, edges);
        self.stand(glance.entering, sp);
        Ok(())
    }

    /// SP behind a turn.
    fn stand(&mut self, entering: bool, sp: u16)
        ensures { Stands self.old self.new entering sp }
    {
        self.top = if entering { sp } else { self.top };
        self.depth = deepest(self.handling, self.top, sp, self.depth);
    }

    /// The edges of the turns, in the order of time.
    pub fn edges(&self) -> &[Edge]
        ensures { (first : Bool) (turns : List Moment) → Tells first turns self.now → result.now ≡ edges_of turns }
    {
        self.edges.as_slice()
    }

    /// The clocks at which TCNT1 went from OCR1A to 0, in the order of time: between two of them lies a line.
    pub fn matches(&self) -> &[u64]
        ensures { (first : Bool) (turns : List Moment) → Tells first turns self.now → result.now ≡ matches_of turns }
    {
        self.matches.as_slice()
    }

    /// The lines between the matches. The one error is want of memory.
    pub fn lines(&self, alloc: Global) -> Result<Vec<Line>, AllocError>
        ensures { IfOk result (λ lines. (first : Bool) (turns : List Moment) → Tells first turns self.now
            → shapes_of lines.items ≡ line_shapes (edges_of turns) (matches_of turns)) }
    {
        lines_between(alloc, self.edges.as_slice(), self.matches.as_slice())
    }

    /// The least and the greatest byte that main stored at a data address of RAM, or `None` if it stored none there.
    pub fn stored_by_main(&self, at: u16) -> Option<Extent>
        requires { (256 ≤ at) × (at < 4352) }
        ensures { (first : Bool) (turns : List Moment) → Tells first turns self.now
            → result ≡ extent_of (bytes_stored first false at turns) }
    {
        self.main[usize::from(at - RAM_BEGIN)]
    }

    /// The least and the greatest byte that the handler stored at a data address of RAM, or `None` if it stored none there.
    pub fn stored_by_handler(&self, at: u16) -> Option<Extent>
        requires { (256 ≤ at) × (at < 4352) }
        ensures { (first : Bool) (turns : List Moment) → Tells first turns self.now
            → result ≡ extent_of (bytes_stored first true at turns) }
    {
        self.handler[usize::from(at - RAM_BEGIN)]
    }

    /// The most bytes that the handler put on the stack below its return address, by what it pushed and called.
    pub fn handler_depth(&self) -> u16
        ensures { (first : Bool) (turns : List Moment) → Tells first turns self.now → result ≡ handler_depth first turns }
    {
        self.depth
    }
}
