//! The debugger.

ghost use Rattle.std.specs.Prelude.{◌≡◌, ◌<◌, ◌≤◌, ◌++◌, ◌∷◌, [], ℕ, List, IfOk, IsOk};
ghost use Rattle.uz_schedule.specs.Schedule.{response_clocks};
ghost use Rattle.uz_console.specs.declared.console.Console.{Console};
ghost use Rattle.uz_core.specs.PadLine.{PadHistory};
ghost use Rattle.uz_core.specs.Turn.{State, state_at_reset, history_at_reset};
ghost use Rattle.uz_pads.specs.Pads.{pairs_of};
ghost use Rattle.uz_debug.specs.Debuggers.{Debugs, DoesAct, Keeps, TellsHalt, session_of};
ghost use Rattle.uz_debug.specs.Sessions.{Acts, IsInRange, TellsPlace};
ghost use Rattle.uz_debug.specs.Timelines.{IsAt};
ghost use Rattle.uz_debug.specs.declared.command.Command.{Command};
ghost use Rattle.uz_debug.specs.declared.command.Reply.{Reply};

use crate::breakpoints::Breakpoints;
use crate::command::{Command, DebugWhy, Reply};
use crate::run::Halt;
use crate::slots::Slots;
use crate::timeline::Timeline;
use std::alloc::{AllocError, Global};
use uz_console::{Console, Response};
use uz_hex::Image;
use uz_pads::Pad;

/// The greatest turn number.
const LAST_TURN: u32 = 100_000_000;

/// A console that is run turn by turn, on and back, with breakpoints and slots for turns.
#[derive(Drop)]
pub struct Debugger {
    timeline: Timeline,
    breakpoints: Breakpoints,
    slots: Slots,
}

impl Debugger {
    /// A console at reset, at turn 0, with no breakpoint and empty slots.
    pub fn new(
        alloc: Global,
        image: Image,
        pads: Vec<Pad>,
        irq: Response,
    ) -> Result<Debugger, AllocError>
        ensures { IfOk result (Debugs (state_at_reset image (history_at_reset (pairs_of pads.items)) (response_clocks irq)) []) }
    {
        Ok(Debugger {
            timeline: Timeline::new(alloc, image, pads, irq)?,
            breakpoints: Breakpoints::none(alloc)?,
            slots: Slots::empty(),
        })
    }

    /// The turn number: how many turns from reset the console is.
    pub fn turn(&self) -> u32
        ensures turn { result ≡ (session_of self.now).turn }
        ensures limit { result ≤ 100000000 }
    {
        self.timeline.turn()
    }

    /// The console, so many turns from reset.
    pub fn console(&self) -> &Console
        ensures { (start : State PadHistory) (done : List (Command × Reply)) → Debugs start done self.now
            → IsAt start (session_of self.now).turn result.now }
    {
        self.timeline.console()
    }

    /// Does a command, and answers its reply. The session so far goes on by it. This never lacks memory: a state that can't be
    /// kept is computed again where it is wanted.
    pub fn act(&mut self, alloc: Global, command: Command) -> Result<Reply, AllocError>
        requires { IsInRange command }
        ensures ok { IsOk result }
        ensures acts { IfOk result (λ reply. (start : State PadHistory) (done : List (Command × Reply))
            → Debugs start done self.old → Acts start (session_of self.old) command reply (session_of self.new)) }
        ensures session { IfOk result (λ reply. (start : State PadHistory) (done : List (Command × Reply))
            → Debugs start done self.old → Debugs start (done ++ (command, reply) ∷ []) self.new) }
    {
        Ok(self.reply(alloc, command))
    }

    fn reply(&mut self, alloc: Global, command: Command) -> Reply
        requires { IsInRange command }
        ensures { DoesAct self.old command result self.new }
    {
        match command {
            Command::Step(count) => self.step(alloc, count),
            Command::Run(count) => self.run(alloc, count),
            Command::Back(count) => self.back(alloc, count),
            Command::Break(pc) => self.set_breakpoint(pc),
            Command::Clear(pc) => self.clear_breakpoint(pc),
            Command::Save(slot) => self.save(alloc, slot),
            Command::Load(slot) => self.load(alloc, slot),
            Command::Show => Reply::Shown,
            Command::Mem(_, _) => Reply::Shown,
        }
    }

    /// Where the console is.
    fn place(&self) -> Reply
        ensures { (start : State PadHistory) → Keeps start self.now → TellsPlace start (session_of self.now).turn result }
    {
        let console = self.timeline.console();
        Reply::At {
            turn: self.timeline.turn(),
            clock: console.clock(),
            pc: console.pc(),
        }
    }

    /// The reply of a run that ended so.
    fn end(&self, halt: Halt) -> Reply
        ensures { (start : State PadHistory) → Keeps start self.now → TellsHalt start (session_of self.now).turn halt result }
    {
        match halt {
            Halt::Goal => self.place(),
            Halt::Breakpoint => self.place(),
            Halt::Stuck => {
                let console = self.timeline.console();
                Reply::Stopped {
                    turn: self.timeline.turn(),
                    pc: console.pc(),
                    word: console.word(),
                }
            }
        }
    }

    fn step(&mut self, alloc: Global, count: u32) -> Reply
        requires { count ≤ 100000000 }
        ensures { DoesAct self.old (Command.Step count) result self.new }
    {
        let goal = self.timeline.turn() + count;
        if goal > LAST_TURN {
            return Reply::Refused(DebugWhy::Limit);
        }
        let halt = self.timeline.go_on(alloc, goal, None);
        self.end(halt)
    }

    fn run(&mut self, alloc: Global, count: u32) -> Reply
        requires { count ≤ 100000000 }
        ensures { DoesAct self.old (Command.Run count) result self.new }
    {
        let goal = self.timeline.turn() + count;
        if goal > LAST_TURN {
            return Reply::Refused(DebugWhy::Limit);
        }
        let halt = self.timeline.go_on(alloc, goal, Some(&self.breakpoints));
        self.end(halt)
    }

    fn back(&mut self, alloc: Global, count: u32) -> Reply
        ensures { DoesAct self.old (Command.Back count) result self.new }
    {
        if count > self.timeline.turn() {
            return Reply::Refused(DebugWhy::Far);
        }
        self.timeline.go_to(alloc, self.timeline.turn() - count);
        self.place()
    }

    fn set_breakpoint(&mut self, pc: u16) -> Reply
        requires { pc < 32768 }
        ensures { DoesAct self.old (Command.Break pc) result self.new }
    {
        if self.breakpoints.insert(pc) {
            Reply::Fine
        } else {
            Reply::Refused(DebugWhy::Breaks)
        }
    }

    fn clear_breakpoint(&mut self, pc: u16) -> Reply
        requires { pc < 32768 }
        ensures { DoesAct self.old (Command.Clear pc) result self.new }
    {
        if self.breakpoints.remove(pc) {
            Reply::Fine
        } else {
            Reply::Refused(DebugWhy::Unset)
        }
    }

    fn save(&mut self, alloc: Global, slot: u8) -> Reply
        requires { slot < 10 }
        ensures { DoesAct self.old (Command.Save slot) result self.new }
    {
        self.timeline.mark(alloc, slot);
        self.slots.keep(slot, self.timeline.turn());
        Reply::Fine
    }

    fn load(&mut self, alloc: Global, slot: u8) -> Reply
        requires { slot < 10 }
        ensures { DoesAct self.old (Command.Load slot) result self.new }
    {
        match self.slots.turn(slot) {
            Some(turn) => {
                self.timeline.go_to(alloc, turn);
                self.place()
            }
            None => Reply::Refused(DebugWhy::Unset),
        }
    }
}
