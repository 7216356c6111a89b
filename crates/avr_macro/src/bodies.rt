//! The lines of files, macros and calls, with the ends of their blocks.

ghost use Rattle.std.specs.Prelude.{◌≡◌, ◌<◌, ◌≤◌, [], ◌||◌, IfOk, IfSome, Some, length, map, nat_lt, slice_index_or, true};
ghost use Rattle.std.specs.List.{slice_range};
ghost use Rattle.avr_macro.specs.Arguments.{any_lacks, replaced as replaced_line};
ghost use Rattle.avr_macro.specs.AtSigns.{KeepsDirectives, are_quiet as are_quiet_lines, are_settled, filled, puts_plain};
ghost use Rattle.avr_macro.specs.AtSigns.{are_steady as are_steady_lines, needed_by as needed_by_lines};
ghost use Rattle.avr_macro.specs.Directives.{closes_well as closes_well_line};
ghost use Rattle.avr_macro.specs.Ends.{blocks_from, closing_at};
ghost use Rattle.avr_macro.specs.Kinds.{AreBlocks};
ghost use Rattle.avr_macro.specs.declared.directives.Word.TheVariants as words;

use crate::errors::MacroWhy;
use crate::{
    Blocks, Closing, Lines, Substitution, are_plain, are_quiet, are_steady, closes_well,
    closes_well_in_call, closing_of, have_dot, needed_by, replaced,
};
use std::alloc::{AllocError, Global};
use std::marker::Model;
use std::rc::Rc;

/// The greatest number of arguments of a call.
const ARGUMENT_LIMIT: usize = 10;

/// Lines, and where their blocks end.
#[derive(Drop)]
pub(crate) struct Text {
    lines: Lines,
    blocks: Rc<Blocks>,
    ghost all_blocks: { AreBlocks lines blocks.value },
}

/// The same text, not copied.
fn share_text(text: &Rc<Text>) -> Result<Rc<Text>, AllocError>
    ensures { IfOk result (λ copy. copy.value ≡ text.now.value) }
{
    let copy = text.clone()?;
    Ok(copy)
}

/// The same blocks, not copied.
fn share_blocks(blocks: &Rc<Blocks>) -> Result<Rc<Blocks>, AllocError>
    ensures { IfOk result (λ copy. copy.value ≡ blocks.now.value) }
{
    let copy = blocks.clone()?;
    Ok(copy)
}

/// The lines of a file or of a call.
///
/// A clause sees the list of lines.
#[derive(Drop)]
pub(crate) struct Body {
    text: Rc<Text>,
    /// What stands for `@` in the text's lines, which are replaced as they are reached. None: they are taken as they are.
    substitution: Option<Substitution>,
    /// Where the blocks of the lines end.
    blocks: Rc<Blocks>,
}

impl Model for Body {
    ghost use Rattle.std.specs.Prelude.{List, ℕ};
    ghost use Rattle.std.specs.Coded.{coded_ℕ, coded_list};
    ghost use Rattle.avr_macro.specs.AtSigns.{filled};
    ghost use Rattle.avr_macro.specs.Kinds.{AreBlocks};

    ghost Value = { List (List ℕ) };

    ghost coded = { coded_list (coded_list coded_ℕ) };

    ghost view = { λ body. filled body.substitution body.text.value.lines };

    ghost invariant = { λ body. AreBlocks (filled body.substitution body.text.value.lines) body.blocks.value };
}

/// The same lines, not copied.
pub(crate) fn share(body: &Rc<Body>) -> Result<Rc<Body>, AllocError>
    ensures { IfOk result (λ copy. copy.value ≡ body.now.value) }
{
    let copy = body.clone()?;
    Ok(copy)
}

/// Some of the lines of a body.
#[derive(Drop)]
pub(crate) struct Called {
    pub body: Rc<Body>,
    /// The first line, and the line before which they end.
    pub start: usize,
    pub end: usize,
    ghost order: { start ≤ end },
    ghost within: { end ≤ length body.value },
}

/// Lines that no call changes.
#[derive(Drop)]
pub(crate) struct Settled {
    lines: Called,
    ghost stay: { are_settled (slice_range lines.body.value lines.start lines.end) ≡ true },
}

/// Lines into which each call puts its arguments.
#[derive(Drop)]
pub(crate) struct Template {
    text: Rc<Text>,
    /// Whether each line is of the same directive in each call, and in those no argument of which begins with `.`.
    steady: bool,
    quiet: bool,
    /// How many arguments the lines need.
    needed: usize,
    ghost all_steady: { steady ≡ true → are_steady_lines text.value.lines ≡ true },
    ghost all_quiet: { quiet ≡ true → are_quiet_lines text.value.lines ≡ true },
    ghost needs: { needed ≡ needed_by_lines text.value.lines },
}

/// The body of a macro.
#[derive(Drop)]
pub(crate) enum Macro {
    /// Calls share its lines.
    Settled(Settled),
    /// Each call puts its arguments into its lines.
    Template(Template),
    /// The same, but its lines are those of a call and aren't made yet.
    Unmade(Called),
}

/// The lines of a call, and those of the macro where this call made them.
#[derive(Drop)]
pub(crate) struct Call {
    pub lines: Called,
    pub made: Option<Template>,
}

impl Called {
    ghost use Rattle.avr_macro.specs.Views.{seen_called};

    /// The same lines, not copied.
    fn shared(&self) -> Result<Called, AllocError>
        ensures { IfOk result (λ called. seen_called called ≡ seen_called self.now) }
    {
        let body = share(&self.body)?;
        Ok(Called {
            body,
            start: self.start,
            end: self.end,
        })
    }

    /// The same lines, made for a macro.
    fn made(&self, alloc: Global) -> Result<Template, AllocError>
        ensures { IfOk result (λ template. template.text.value.lines ≡ seen_called self.now) }
    {
        let lines = self.body.as_ref().copied(alloc, self.start, self.end)?;
        Template::new(alloc, lines)
    }
}

impl Template {
    ghost use Rattle.avr_macro.specs.Views.{CallsBody, seen_called};

    /// Lines with their blocks, and what their `@`s name.
    fn new(alloc: Global, lines: Lines) -> Result<Template, AllocError>
        ensures { IfOk result (λ template. template.text.value.lines ≡ lines) }
    {
        let steady = are_steady(&lines);
        let quiet = are_quiet(&lines);
        let needed = needed_by(&lines);
        let text = Rc::new(alloc, Text::new(alloc, lines)?)?;
        Ok(Template {
            text,
            steady,
            quiet,
            needed,
        })
    }

    /// Whether no line is known to be of another directive in a call.
    #[tactic(auto, using(crate::proofs::Steady::steady_kept, crate::proofs::Quiet::quiet_kept))]
    fn keeps_directives(&self, substitution: &Substitution) -> bool
        ensures { result ≡ true →
            KeepsDirectives (replaced_line substitution.now.arguments substitution.now.call) self.now.text.value.lines }
    {
        self.steady || self.quiet && !have_dot(&substitution.arguments)
    }

    /// Where the blocks end in a call. They are looked for anew only where an argument may be a part of a directive.
    fn blocks_in_call(
        &self,
        alloc: Global,
        substitution: &Substitution,
    ) -> Result<Rc<Blocks>, AllocError>
        ensures { IfOk result (λ blocks. AreBlocks (filled (Some substitution.now) self.now.text.value.lines) blocks.value) }
    {
        if self.keeps_directives(substitution) {
            let blocks = share_blocks(&self.text.as_ref().blocks)?;
            return Ok(blocks);
        }
        let blocks = Blocks::new(alloc, &self.text.as_ref().lines, Some(substitution))?;
        let blocks = Rc::new(alloc, blocks)?;
        Ok(blocks)
    }

    /// The lines in a call, each made when it is reached.
    fn in_call(&self, alloc: Global, substitution: Substitution) -> Result<Called, AllocError>
        ensures { IfOk result (λ called. seen_called called
            ≡ map (replaced_line substitution.arguments substitution.call) self.now.text.value.lines) }
    {
        let blocks = self.blocks_in_call(alloc, &substitution)?;
        let text = share_text(&self.text)?;
        let end = text.as_ref().lines.count();
        let body = Body {
            text,
            substitution: Some(substitution),
            blocks,
        };
        Ok(Called {
            body: Rc::new(alloc, body)?,
            start: 0,
            end,
        })
    }

    /// Whether a call has more than ten arguments, or lacks one that the lines name.
    #[tactic(auto, using(crate::proofs::Needed::lacks_by_need))]
    fn lacks_one(&self, count: usize) -> bool
        ensures { result ≡ (nat_lt 10 count || any_lacks count self.now.text.value.lines) }
    {
        count > ARGUMENT_LIMIT || count < self.needed
    }

    /// The same, where the call lacks no argument.
    fn call(&self, alloc: Global, substitution: Substitution) -> Result<Called, MacroWhy>
        ensures { CallsBody result substitution.arguments substitution.call self.now.text.value.lines }
    {
        if self.lacks_one(substitution.arguments.count()) {
            return Err(MacroWhy::Argument);
        }
        let lines = self.in_call(alloc, substitution)?;
        Ok(lines)
    }
}

impl Settled {
    ghost use Rattle.avr_macro.specs.Views.{CallsBody};

    /// The lines in a call.
    #[tactic(auto, using(crate::proofs::Settled::lacks_none, crate::proofs::Settled::lines_stay))]
    fn call(&self, substitution: Substitution) -> Result<Called, MacroWhy>
        ensures { CallsBody result substitution.arguments substitution.call
            (slice_range self.now.lines.body.value self.now.lines.start self.now.lines.end) }
    {
        if substitution.arguments.count() > ARGUMENT_LIMIT {
            return Err(MacroWhy::Argument);
        }
        let lines = self.lines.shared()?;
        Ok(lines)
    }
}

impl Macro {
    ghost use Rattle.avr_macro.specs.Macros.{seen_macro};
    ghost use Rattle.avr_macro.specs.Calls.{CallsMacro};

    /// The macro whose body are some of the lines of a body: those from a place to before another. The lines of a call
    /// aren't copied; those of a file are where they have an `@`.
    pub fn new(
        alloc: Global,
        body: &Rc<Body>,
        start: usize,
        end: usize,
    ) -> Result<Macro, AllocError>
        requires order { start ≤ end }
        requires bound { end ≤ length body.now.value }
        ensures { IfOk result (λ defined. seen_macro defined ≡ slice_range body.now.value start end) }
    {
        let stay = body.as_ref().stay(start, end);
        let called = body.as_ref().is_call();
        let body = share(body)?;
        let lines = Called { body, start, end };
        if stay {
            Ok(Macro::Settled(Settled { lines }))
        } else if called {
            Ok(Macro::Unmade(lines))
        } else {
            Ok(Macro::Template(lines.made(alloc)?))
        }
    }

    /// A call.
    pub fn call(&self, alloc: Global, substitution: Substitution) -> Result<Call, MacroWhy>
        ensures { CallsMacro result substitution.arguments substitution.call (seen_macro self.now) }
    {
        match self {
            Macro::Settled(settled) => {
                let lines = settled.call(substitution)?;
                Ok(Call { lines, made: None })
            }
            Macro::Template(template) => {
                let lines = template.call(alloc, substitution)?;
                Ok(Call { lines, made: None })
            }
            Macro::Unmade(unmade) => {
                let template = unmade.made(alloc)?;
                let lines = template.call(alloc, substitution)?;
                Ok(Call {
                    lines,
                    made: Some(template),
                })
            }
        }
    }
}

/// Whether no argument of a call has an `@`. Where lines are no call's, this isn't so.
#[tactic(auto, using(crate::proofs::Slices::whole_body))]
fn puts_no_at(substitution: &Option<Substitution>) -> bool
    ensures { result ≡ puts_plain substitution.now }
{
    match substitution {
        Some(substitution) => {
            let arguments = &substitution.arguments;
            are_plain(arguments, 0, arguments.count())
        }
        None => false,
    }
}

impl Body {
    /// Lines as they are.
    pub fn of_lines(alloc: Global, lines: Lines) -> Result<Rc<Body>, AllocError>
        ensures { IfOk result (λ body. body.value ≡ lines) }
    {
        let text = Rc::new(alloc, Text::new(alloc, lines)?)?;
        let blocks = share_blocks(&text.as_ref().blocks)?;
        let body = Body {
            text,
            substitution: None,
            blocks,
        };
        let body = Rc::new(alloc, body)?;
        Ok(body)
    }

    /// Whether the lines are those of a call.
    fn is_call(&self) -> bool {
        self.substitution.is_some()
    }

    /// Whether it is known that no call changes some of the lines: those from a place to before another.
    fn stay(&self, start: usize, end: usize) -> bool
        requires order { start ≤ end }
        requires bound { end ≤ length self.now }
        ensures { result ≡ true → are_settled (slice_range self.now start end) ≡ true }
    {
        if self.is_call() {
            puts_no_at(&self.substitution)
        } else {
            are_plain(&self.text.as_ref().lines, start, end)
        }
    }

    /// A line by its place, where lines are taken as they are.
    pub fn kept_line(&self, n: usize) -> Option<&[u8]>
        requires { n < length self.now }
        ensures { IfSome result (λ line. line.now ≡ slice_index_or self.now n []) }
    {
        match &self.substitution {
            Some(_) => None,
            None => Some(self.text.as_ref().lines.line(n)),
        }
    }

    /// A line by its place, made anew.
    pub fn new_line(&self, alloc: Global, n: usize) -> Result<Vec<u8>, AllocError>
        requires { n < length self.now }
        ensures { IfOk result (λ line. line.items ≡ slice_index_or self.now n []) }
    {
        let line = self.text.as_ref().lines.line(n);
        match &self.substitution {
            Some(substitution) => replaced(alloc, substitution, line),
            None => Vec::from_slice(alloc, line),
        }
    }

    /// Whether a line that closes a block, or parts it, has no further words. It isn't made.
    pub fn closes_well(&self, n: usize) -> bool
        requires { n < length self.now }
        ensures { result ≡ closes_well_line (slice_index_or self.now n []) }
    {
        let line = self.text.as_ref().lines.line(n);
        match &self.substitution {
            Some(substitution) => closes_well_in_call(substitution, line),
            None => closes_well(line),
        }
    }

    /// Some of the lines: those from a place to before another.
    #[tactic(auto, using(crate::proofs::Slices::next_line))]
    fn copied(&self, alloc: Global, start: usize, end: usize) -> Result<Lines, AllocError>
        requires order { start ≤ end }
        requires bound { end ≤ length self.now }
        ensures { IfOk result (λ lines. lines ≡ slice_range self.now start end) }
    {
        let mut lines = Lines::new(alloc);
        for n in start..end {
            let line = self.new_line(alloc, n)?;
            lines = lines.with(line.as_slice())?;
        }
        Ok(lines)
    }

    /// Where the macro ends that begins at a line.
    pub fn macro_closing(&self, line: usize) -> Option<Closing>
        ensures { result ≡ closing_at line (blocks_from words.Macro words.EndMacro 0 self.now) }
    {
        closing_of(self.blocks.as_ref().macros.as_slice(), line)
    }

    /// Where the repeated block ends that begins at a line.
    pub fn repeat_closing(&self, line: usize) -> Option<Closing>
        ensures { result ≡ closing_at line (blocks_from words.Repeat words.EndRepeat 0 self.now) }
    {
        closing_of(self.blocks.as_ref().repeats.as_slice(), line)
    }

    /// Where the conditional block ends that begins at a line.
    pub fn condition_closing(&self, line: usize) -> Option<Closing>
        ensures { result ≡ closing_at line (blocks_from words.If words.EndIf 0 self.now) }
    {
        closing_of(self.blocks.as_ref().conditions.as_slice(), line)
    }
}

impl Text {
    /// Finds the ends of the blocks of lines.
    fn new(alloc: Global, lines: Lines) -> Result<Text, AllocError>
        ensures { IfOk result (λ text. text.lines ≡ lines) }
    {
        let blocks = Rc::new(alloc, Blocks::new(alloc, &lines, None)?)?;
        Ok(Text { lines, blocks })
    }
}
