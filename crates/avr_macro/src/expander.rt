//! Expansion, a line at a time.

ghost use Rattle.std.specs.Prelude.{◌≡◌, ◌<◌, ◌≤◌, ◌+◌, [], ◌∷◌, ◌++◌, true, false, Some, IfOk, IfErr, IfNone, IfSome};
ghost use Rattle.std.specs.Prelude.{IsSome, OnOk, length, nat_lt, slice_index_or, string_bytes};
ghost use Rattle.std.specs.Bool.{OnFalse};
ghost use Rattle.std.specs.FinMap as finmap;
ghost use Rattle.std.specs.Option.{option_map};
ghost use Rattle.avr_macro.specs.Arguments.{arguments_of as arguments_of_line};
ghost use Rattle.avr_macro.specs.Blocks.{if_else as if_else_in};
ghost use Rattle.avr_macro.specs.Calls.{CallsMacro};
ghost use Rattle.avr_macro.specs.Macros.{seen_macro};
ghost use Rattle.avr_macro.specs.Directives.{after_first_word as after_first_word_in};
ghost use Rattle.avr_macro.specs.Directives.{first_word as first_word_of, operands_of as operands_of_line};
ghost use Rattle.avr_macro.specs.Moves.{body_of as body_of_word, call as call_state, chosen_part as chosen_part_of};
ghost use Rattle.avr_macro.specs.Moves.{enter as enter_move, file_name as file_name_of, goes, if_move as if_move_of};
ghost use Rattle.avr_macro.specs.Moves.{if_valued, include_move as include_move_of, included, is_full as is_full_state};
ghost use Rattle.avr_macro.specs.Moves.{is_include as is_include_word, is_null as is_null_value};
ghost use Rattle.avr_macro.specs.Moves.{line_move as line_move_of, macro_body as macro_body_move};
ghost use Rattle.avr_macro.specs.Moves.{macro_move as macro_move_of, move_of, one_part as one_part_of};
ghost use Rattle.avr_macro.specs.Moves.{other_move as other_move_of, part, plain_move as plain_move_of};
ghost use Rattle.avr_macro.specs.Moves.{repeat_move as repeat_move_of, repeat_times as repeat_times_move};
ghost use Rattle.avr_macro.specs.Moves.{repeated as repeated_level, turn_end as turn_end_move, turned};
ghost use Rattle.avr_macro.specs.Moves.{two_parts as two_parts_of, with_setting, word_move};
ghost use Rattle.avr_macro.specs.States.{first_state, inside as inside_level, passed as passed_level};
ghost use Rattle.avr_macro.specs.Values.{setting_of as setting_of_text};
ghost use Rattle.avr_macro.specs.declared.directives.Word.TheVariants as words;
ghost use Rattle.avr_macro.specs.Views.{IsAt, seen_called, seen_frame, seen_frames};
ghost use Rattle.avr_macro.specs.LineViews.{seen_setting};

use crate::bodies::{Call, Called, Macro, share};
use crate::errors::MacroWhy;
use crate::frames::{BLOCK_LIMIT, Frame, INCLUDE_LIMIT};
use crate::macros::Macros;
use crate::origin::Origin;
use crate::{
    Closing, Setting, Substitution, Word, after_first_word, arguments_of, directive_of, first_word,
    is_bare, macro_name, operands_of, setting_of, text_value, trimmed,
};
use avr_asm::predefined;
use avr_text::Symbols;
use std::alloc::{AllocError, Global};

/// The greatest number of lines that are reached.
const LINE_LIMIT: u32 = 1_048_576;

/// The greatest number of bytes of a file, and of the flat text.
pub(crate) const TEXT_LIMIT: u32 = 1_048_576;

/// A file that a line asks for, with the level of that line.
#[derive(Drop)]
pub(crate) struct Request {
    pub name: String,
    pub frame: Frame,
}

/// How far an expansion has come.
#[derive(Drop)]
pub(crate) struct Expander {
    /// What is to be expanded, the innermost last.
    pub frames: Vec<Frame>,
    pub macros: Macros,
    pub constants: Symbols,
    /// How many calls there were, and how many lines were reached.
    pub calls: u32,
    pub reached: u32,
    /// The flat text, with the origins of its lines.
    pub text: Vec<u8>,
    pub origins: Vec<Origin>,
    ghost few_calls: { calls ≤ reached },
    ghost few_lines: { reached ≤ 1048576 },
}

fn is_null(value: i64) -> bool
    ensures { result ≡ is_null_value value }
{
    value == 0
}

/// Adds a line to a text.
fn put_text(text: &mut Vec<u8>, line: &[u8]) -> Result<(), AllocError>
    ensures { OnOk result (text.new.items ≡ text.old.items ++ (line.now ++ 10 ∷ [])) }
{
    text.extend_from_slice(line)?;
    text.push(b'\n')?;
    Ok(())
}

/// The level of a block that is expanded some times, where its end comes after so many lines.
fn repeated(frame: &Frame, times: u32, n: usize) -> Result<Frame, AllocError>
    requires shallow { frame.now.blocks < 16 }
    requires left { frame.now.at + (n + 2) ≤ frame.now.end }
    ensures { IfOk result (λ inner. seen_frame inner ≡ repeated_level times n (seen_frame frame.now)) }
{
    if times == 0 {
        frame.block(0, 0, 0, false, true)
    } else {
        frame.block(0, n, times - 1, true, frame.closed_by(n))
    }
}

/// The level of a conditional block without `.else`.
fn one_part(frame: &Frame, chosen: bool, n: usize) -> Result<Frame, AllocError>
    requires shallow { frame.now.blocks < 16 }
    requires left { frame.now.at + (n + 2) ≤ frame.now.end }
    ensures { IfOk result (λ inner. seen_frame inner ≡ one_part_of chosen n (seen_frame frame.now)) }
{
    let to = if chosen { n } else { 0 };
    frame.block(0, to, 0, false, frame.closed_by(n))
}

/// The level of a conditional block whose `.else` comes after so many lines.
fn two_parts(frame: &Frame, chosen: bool, m: usize, n: usize) -> Result<Frame, AllocError>
    requires shallow { frame.now.blocks < 16 }
    requires left { frame.now.at + (n + 2) ≤ frame.now.end }
    requires parted { m < n }
    ensures { IfOk result (λ inner. seen_frame inner ≡ two_parts_of chosen m n (seen_frame frame.now)) }
{
    let parts_well = frame.closed_by(m);
    let ends_well = frame.closed_by(n);
    let well = parts_well && ends_well;
    if chosen {
        frame.block(0, m, 0, false, well)
    } else if parts_well {
        frame.block(m + 1, n, 0, false, well)
    } else {
        frame.block(0, 0, 0, false, well)
    }
}

/// The level of the chosen part of a conditional block, whose end and `.else` come after so many lines.
fn chosen_part(frame: &Frame, chosen: bool, closing: Closing) -> Result<Frame, AllocError>
    requires shallow { frame.now.blocks < 16 }
    requires left { frame.now.at + (closing.end + 2) ≤ frame.now.end }
    requires inside { IfSome closing.part (λ m. m < closing.end) }
    ensures { IfOk result (λ inner. seen_frame inner ≡ chosen_part_of chosen closing.part closing.end (seen_frame frame.now)) }
{
    match closing.part {
        None => one_part(frame, chosen, closing.end),
        Some(m) => two_parts(frame, chosen, m, closing.end),
    }
}

/// Adds a level.
#[tactic(auto, using(crate::proofs::Levels::last_frame))]
fn push(frames: &mut Vec<Frame>, frame: Frame) -> Result<(), MacroWhy>
    ensures pushed { OnOk result (seen_frames frames.new.items ≡ seen_frame frame ∷ seen_frames frames.old.items) }
    ensures count { OnOk result (length frames.new.items ≡ length frames.old.items + 1) }
    ensures err { IfErr result (λ why. why ≡ MacroWhy.Memory) }
{
    frames.push(frame)?;
    Ok(())
}

/// Sets a constant.
fn set(alloc: Global, constants: &mut Symbols, setting: Option<Setting>) -> Result<(), AllocError>
    ensures { OnOk result (constants.new ≡ with_setting (option_map seen_setting setting) constants.old) }
{
    match setting {
        Some(setting) => constants.set(alloc, setting.name.as_slice(), setting.value),
        None => Ok(()),
    }
}

/// Defines a macro, whose body are so many of the lines after the next one.
fn define_body(
    alloc: Global,
    macros: &mut Macros,
    frame: &Frame,
    name: &[u8],
    n: usize,
) -> Result<(), AllocError>
    requires { frame.now.at + (n + 2) ≤ frame.now.end }
    ensures { OnOk result (macros.new ≡ finmap.insert macros.old name.now (part (seen_frame frame.now) 0 n)) }
{
    let body = frame.body_after(alloc, n)?;
    macros.define(alloc, name, body)
}

/// A call, by the line that calls.
fn called(alloc: Global, line: &[u8], call: u32, body: &Macro) -> Result<Call, MacroWhy>
    ensures { CallsMacro result (arguments_of_line (after_first_word_in line.now)) call (seen_macro body.now) }
{
    let arguments = arguments_of(alloc, after_first_word(line))?;
    body.call(alloc, Substitution { arguments, call })
}

/// The name of a file: some UTF-8.
fn file_name(alloc: Global, bytes: &[u8]) -> Result<Option<String>, AllocError>
    ensures { IfOk result (λ name. option_map string_bytes name ≡ file_name_of bytes.now) }
{
    if bytes.len() == 0 {
        return Ok(None);
    }
    match std::str::from_utf8(bytes) {
        Ok(name) => Ok(Some(String::from_str(alloc, name)?)),
        Err(_) => Ok(None),
    }
}

fn is_include(word: Word) -> bool
    ensures { result ≡ is_include_word word }
{
    match word {
        Word::Include => true,
        _ => false,
    }
}

impl Expander {
    ghost use Rattle.avr_macro.specs.Steps.{Gives, GivesStep, Nearer, seen_expander};

    /// Nothing is reached yet: what is to be expanded is a file.
    pub fn new(alloc: Global, bytes: &[u8]) -> Result<Expander, AllocError>
        requires { length bytes.now ≤ 1048576 }
        ensures { IfOk result (λ e. seen_expander e ≡ first_state bytes.now) }
    {
        let file = Frame::of_file(alloc, 0, 0, bytes)?;
        let mut frames = Vec::new(alloc);
        frames.push(file)?;
        Ok(Expander {
            frames,
            macros: Macros::new(alloc),
            constants: predefined(alloc)?,
            calls: 0,
            reached: 0,
            text: Vec::new(alloc),
            origins: Vec::new(alloc),
        })
    }

    /// Whether no further line may be reached.
    fn is_full(&self) -> bool
        ensures full { result ≡ is_full_state (seen_expander self.now) }
        ensures room { OnFalse result (self.now.reached < 1048576) }
    {
        self.reached >= LINE_LIMIT
    }

    /// A line is reached at which a block, a call or a file begins.
    fn enter(&mut self, inner: Frame, after: Frame) -> Result<(), MacroWhy>
        ensures gives { Gives result (seen_expander self.new) (enter_move (seen_frame inner) (seen_frame after) (seen_expander self.old)) }
        ensures nearer { OnOk result (Nearer self.old self.new) }
    {
        if self.is_full() {
            return Err(MacroWhy::Full);
        }
        push(&mut self.frames, after)?;
        push(&mut self.frames, inner)?;
        self.reached += 1;
        Ok(())
    }

    /// The end of a counted turn is reached.
    fn turn(&mut self, frame: Frame) -> Result<(), MacroWhy>
        requires { self.old.reached < 1048576 }
        ensures gives { Gives result (seen_expander self.new) (goes (turned frame.turns (seen_frame frame) (seen_expander self.old))) }
        ensures nearer { OnOk result (Nearer self.old self.new) }
    {
        if frame.turns > 0 {
            push(&mut self.frames, frame.next_turn())?;
        }
        self.reached += 1;
        Ok(())
    }

    /// The end of a turn.
    fn end_turn(&mut self, frame: Frame) -> Result<(), MacroWhy>
        ensures gives { Gives result (seen_expander self.new) (turn_end_move (seen_frame frame) (seen_expander self.old)) }
        ensures nearer { OnOk result (Nearer self.old self.new) }
    {
        if !frame.well {
            return Err(MacroWhy::Form);
        }
        if !frame.counted {
            return Ok(());
        }
        if self.is_full() {
            return Err(MacroWhy::Full);
        }
        self.turn(frame)
    }

    /// Defines a macro, whose end comes after so many lines.
    fn define(&mut self, alloc: Global, frame: Frame, name: &[u8], n: usize) -> Result<(), MacroWhy>
        requires shallow { frame.blocks < 16 }
        requires left { frame.at + (n + 2) ≤ frame.end }
        ensures gives { Gives result (seen_expander self.new)
            (macro_body_move name.now (Some n) (seen_frame frame) (seen_expander self.old)) }
        ensures nearer { OnOk result (Nearer self.old self.new) }
    {
        if self.macros.get(name).is_some() {
            return Err(MacroWhy::Twice);
        }
        let inner = frame.block(0, 0, 0, false, frame.closed_by(n))?;
        define_body(alloc, &mut self.macros, &frame, name, n)?;
        self.enter(inner, frame.passed(n + 2))
    }

    /// `.macro NAME`
    fn macro_line(&mut self, alloc: Global, frame: Frame, operands: &[u8]) -> Result<(), MacroWhy>
        requires left { frame.at < frame.end }
        requires begins { IsAt words.Macro frame }
        ensures gives { Gives result (seen_expander self.new) (macro_move_of operands.now (seen_frame frame) (seen_expander self.old)) }
        ensures nearer { OnOk result (Nearer self.old self.new) }
    {
        if frame.blocks >= BLOCK_LIMIT {
            return Err(MacroWhy::Depth);
        }
        match macro_name(operands) {
            None => Err(MacroWhy::Form),
            Some(name) => match frame.macro_end() {
                None => Err(MacroWhy::Unclosed),
                Some(n) => self.define(alloc, frame, name, n),
            },
        }
    }

    /// A block is repeated, whose end comes after so many lines.
    fn repeat(&mut self, frame: Frame, times: Option<i64>, n: usize) -> Result<(), MacroWhy>
        requires shallow { frame.blocks < 16 }
        requires left { frame.at + (n + 2) ≤ frame.end }
        ensures gives { Gives result (seen_expander self.new) (repeat_times_move times n (seen_frame frame) (seen_expander self.old)) }
        ensures nearer { OnOk result (Nearer self.old self.new) }
    {
        match times {
            Some(times) if times >= 0 && times <= 65535 => {
                let inner = repeated(&frame, times as u32, n)?;
                self.enter(inner, frame.passed(n + 2))
            }
            _ => Err(MacroWhy::Value),
        }
    }

    /// `.rept E`
    fn repeat_line(&mut self, alloc: Global, frame: Frame, operands: &[u8]) -> Result<(), MacroWhy>
        requires left { frame.at < frame.end }
        requires begins { IsAt words.Repeat frame }
        ensures gives { Gives result (seen_expander self.new) (repeat_move_of operands.now (seen_frame frame) (seen_expander self.old)) }
        ensures nearer { OnOk result (Nearer self.old self.new) }
    {
        if frame.blocks >= BLOCK_LIMIT {
            return Err(MacroWhy::Depth);
        }
        if is_bare(operands) {
            return Err(MacroWhy::Form);
        }
        match frame.repeat_end() {
            None => Err(MacroWhy::Unclosed),
            Some(n) => {
                let times = text_value(alloc, &self.constants, operands)?;
                self.repeat(frame, times, n)
            }
        }
    }

    /// A part of a conditional block is chosen, whose end and `.else` come after so many lines.
    fn choose(&mut self, frame: Frame, value: Option<i64>, closing: Closing) -> Result<(), MacroWhy>
        requires shallow { frame.blocks < 16 }
        requires left { frame.at + (closing.end + 2) ≤ frame.end }
        requires parted { closing.part ≡ if_else_in (part (seen_frame frame) 0 closing.end) }
        requires inside { IfSome closing.part (λ m. m < closing.end) }
        ensures gives { Gives result (seen_expander self.new) (if_valued value closing.end (seen_frame frame) (seen_expander self.old)) }
        ensures nearer { OnOk result (Nearer self.old self.new) }
    {
        match value {
            Some(value) => {
                let inner = chosen_part(&frame, !is_null(value), closing)?;
                self.enter(inner, frame.passed(closing.end + 2))
            }
            None => Err(MacroWhy::Value),
        }
    }

    /// `.if E`
    fn if_line(&mut self, alloc: Global, frame: Frame, operands: &[u8]) -> Result<(), MacroWhy>
        requires left { frame.at < frame.end }
        requires begins { IsAt words.If frame }
        ensures gives { Gives result (seen_expander self.new) (if_move_of operands.now (seen_frame frame) (seen_expander self.old)) }
        ensures nearer { OnOk result (Nearer self.old self.new) }
    {
        if frame.blocks >= BLOCK_LIMIT {
            return Err(MacroWhy::Depth);
        }
        if is_bare(operands) {
            return Err(MacroWhy::Form);
        }
        match frame.condition_end() {
            None => Err(MacroWhy::Unclosed),
            Some(closing) => {
                let value = text_value(alloc, &self.constants, operands)?;
                self.choose(frame, value, closing)
            }
        }
    }

    /// A line gives itself, and perhaps sets a constant.
    fn put_line(
        &mut self,
        alloc: Global,
        frame: Frame,
        line: &[u8],
        setting: Option<Setting>,
    ) -> Result<(), MacroWhy>
        requires { frame.at < frame.end }
        ensures gives { Gives result (seen_expander self.new)
            (plain_move_of line.now (option_map seen_setting setting) (seen_frame frame) (seen_expander self.old)) }
        ensures nearer { OnOk result (Nearer self.old self.new) }
    {
        if self.is_full() || self.is_long(line) {
            return Err(MacroWhy::Full);
        }
        set(alloc, &mut self.constants, setting)?;
        put_text(&mut self.text, line)?;
        self.origins.push(frame.origin)?;
        push(&mut self.frames, frame.passed(1))?;
        self.reached += 1;
        Ok(())
    }

    /// Whether a line would make the flat text too long.
    fn is_long(&self, line: &[u8]) -> bool
        ensures { result ≡ nat_lt 1048576 (length (seen_expander self.now).text + (length line.now + 1)) }
    {
        self.text.len() + (line.len() + 1) > TEXT_LIMIT as usize
    }

    /// A macro is called, whose body in this call is given.
    fn call(&mut self, frame: Frame, lines: Called) -> Result<(), MacroWhy>
        requires shallow { frame.blocks < 16 }
        requires left { frame.at < frame.end }
        ensures gives { Gives result (seen_expander self.new)
            (enter_move (inside_level (seen_frame frame) (seen_called lines) 0 false true)
            (passed_level 1 (seen_frame frame)) (call_state (seen_expander self.old))) }
        ensures nearer { OnOk result (Nearer self.old self.new) }
    {
        if self.is_full() {
            return Err(MacroWhy::Full);
        }
        let inner = frame.call(lines);
        push(&mut self.frames, frame.passed(1))?;
        push(&mut self.frames, inner)?;
        self.reached += 1;
        self.calls += 1;
        Ok(())
    }

    /// A line that is no directive of macros and blocks.
    fn other_line(&mut self, alloc: Global, frame: Frame, line: &[u8]) -> Result<(), MacroWhy>
        requires { frame.at < frame.end }
        ensures gives { Gives result (seen_expander self.new) (other_move_of line.now (seen_frame frame) (seen_expander self.old)) }
        ensures nearer { OnOk result (Nearer self.old self.new) }
    {
        let calls = self.calls;
        let Some(name) = first_word(line) else {
            return self.put_line(alloc, frame, line, None);
        };
        let Some(body) = self.macros.get(name) else {
            return self.put_line(alloc, frame, line, None);
        };
        if frame.blocks >= BLOCK_LIMIT {
            return Err(MacroWhy::Depth);
        }
        match called(alloc, line, calls, body) {
            Ok(call) => {
                self.macros.keep(alloc, name, call.made)?;
                self.call(frame, call.lines)
            }
            Err(why) => Err(why),
        }
    }

    /// `.equ NAME = E`
    fn constant_line(&mut self, alloc: Global, frame: Frame, line: &[u8]) -> Result<(), MacroWhy>
        requires { frame.at < frame.end }
        ensures gives { Gives result (seen_expander self.new)
            (plain_move_of line.now (setting_of_text self.old.constants (operands_of_line line.now)) (seen_frame frame)
            (seen_expander self.old)) }
        ensures nearer { OnOk result (Nearer self.old self.new) }
    {
        let setting = setting_of(alloc, &self.constants, operands_of(line))?;
        self.put_line(alloc, frame, line, setting)
    }

    /// A line that isn't an include.
    fn directive(
        &mut self,
        alloc: Global,
        frame: Frame,
        line: &[u8],
        word: Word,
    ) -> Result<(), MacroWhy>
        requires left { frame.at < frame.end }
        requires begins { IsAt word frame }
        ensures gives { is_include_word word ≡ false →
            Gives result (seen_expander self.new) (word_move word line.now (seen_frame frame) (seen_expander self.old)) }
        ensures nearer { OnOk result (Nearer self.old self.new) }
    {
        match word {
            Word::Macro => self.macro_line(alloc, frame, operands_of(line)),
            Word::Repeat => self.repeat_line(alloc, frame, operands_of(line)),
            Word::If => self.if_line(alloc, frame, operands_of(line)),
            Word::Constant => self.constant_line(alloc, frame, line),
            Word::Other => self.other_line(alloc, frame, line),
            _ => Err(MacroWhy::Form),
        }
    }

    /// `.include NAME`
    fn request(
        &mut self,
        alloc: Global,
        frame: Frame,
        operands: &[u8],
    ) -> Result<Option<Request>, MacroWhy>
        requires { frame.at < frame.end }
        ensures gives { GivesStep result (seen_expander self.old) (seen_expander self.new) (seen_frame frame)
            (include_move_of operands.now (seen_frame frame)) }
        ensures some { IfOk result (λ request. IsSome request) }
        ensures waits { IfOk result (λ request. IfSome request (λ q. q.frame.at < q.frame.end)) }
        ensures same { self.new ≡ self.old }
    {
        match file_name(alloc, trimmed(operands))? {
            Some(name) => Ok(Some(Request { name, frame })),
            None => {
                if frame.includes >= INCLUDE_LIMIT {
                    Err(MacroWhy::Depth)
                } else {
                    Err(MacroWhy::Form)
                }
            }
        }
    }

    /// The next line of a level.
    fn line(
        &mut self,
        alloc: Global,
        frame: Frame,
        line: &[u8],
    ) -> Result<Option<Request>, MacroWhy>
        requires left { frame.at < frame.end }
        requires next { line.now ≡ slice_index_or frame.body.value frame.at [] }
        ensures gives { GivesStep result (seen_expander self.old) (seen_expander self.new) (seen_frame frame)
            (line_move_of line.now (seen_frame frame) (seen_expander self.old)) }
        ensures nearer { IfOk result (λ request. IfNone request (Nearer self.old self.new)) }
        ensures asked { IfOk result (λ request. IsSome request → self.new ≡ self.old) }
        ensures waits { IfOk result (λ request. IfSome request (λ q. q.frame.at < q.frame.end)) }
    {
        let word = directive_of(line);
        if is_include(word) {
            return self.request(alloc, frame, operands_of(line));
        }
        match self.directive(alloc, frame, line, word) {
            Ok(()) => Ok(None),
            Err(why) => Err(why),
        }
    }

    /// The next line of a level, or its end. The state has the levels around it.
    pub fn step(&mut self, alloc: Global, frame: Frame) -> Result<Option<Request>, MacroWhy>
        ensures gives { GivesStep result (seen_expander self.old) (seen_expander self.new) (seen_frame frame)
            (move_of (seen_frame frame) (seen_expander self.old)) }
        ensures nearer { IfOk result (λ request. IfNone request (Nearer self.old self.new)) }
        ensures asked { IfOk result (λ request. IsSome request → self.new ≡ self.old) }
        ensures waits { IfOk result (λ request. IfSome request (λ q. q.frame.at < q.frame.end)) }
    {
        if frame.at == frame.end {
            return match self.end_turn(frame) {
                Ok(()) => Ok(None),
                Err(why) => Err(why),
            };
        }
        let body = share(&frame.body)?;
        match body.as_ref().kept_line(frame.at) {
            Some(line) => self.line(alloc, frame, line),
            None => {
                let line = body.as_ref().new_line(alloc, frame.at)?;
                self.line(alloc, frame, line.as_slice())
            }
        }
    }

    /// A file that a line asked for, which is the file of a number.
    pub fn include(
        &mut self,
        alloc: Global,
        file: u32,
        bytes: &[u8],
        frame: Frame,
    ) -> Result<(), MacroWhy>
        requires short { length bytes.now ≤ 1048576 }
        requires left { frame.at < frame.end }
        ensures gives { Gives result (seen_expander self.new) (included file bytes.now (seen_frame frame) (seen_expander self.old)) }
        ensures nearer { OnOk result (Nearer self.old self.new) }
    {
        if frame.includes >= INCLUDE_LIMIT {
            return Err(MacroWhy::Depth);
        }
        if frame.blocks > 0 {
            return Err(MacroWhy::Form);
        }
        let inner = Frame::of_file(alloc, file, frame.includes + 1, bytes)?;
        self.enter(inner, frame.passed(1))
    }
}
