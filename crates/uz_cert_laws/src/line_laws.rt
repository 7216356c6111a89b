//! Of each kind of line two laws. `again`: within the limits that stand where the line is due, the words of what is spelled
//! are read as just that. `only`: what is read is within these limits, and the words are those that it is spelled with; so
//! no default is written, items stand in their order, and numbers are spelled in one way. Each function does nothing.

ghost use Rattle.std.specs.Prelude.{◌≡◌, ◌<◌, ◌≤◌, ◌==◌, ◌^◌, ◌∷◌, [], ℕ, List, All, Ok, codes, decimal, false, length};
ghost use Rattle.uz_schedule.specs.Limits.{clock_limit, EventFits};
ghost use Rattle.uz_schedule.specs.Schedule.{scanline};
ghost use Rattle.uz_schedule.specs.WellFormed.{CellFits, StackFits, RestFits, EntryFits, PointFits, instances_of};
ghost use Rattle.uz_schedule.specs.declared.kinds.Response.{Response};
ghost use Rattle.uz_schedule.specs.declared.header.Cell.{Cell};
ghost use Rattle.uz_schedule.specs.declared.header.Head.{Head};
ghost use Rattle.uz_schedule.specs.declared.lines.Event.{Event};
ghost use Rattle.uz_schedule.specs.declared.states.Rest.{Rest};
ghost use Rattle.uz_schedule.specs.declared.states.Entry.{Entry};
ghost use Rattle.uz_schedule.specs.declared.states.Point.{Point};
ghost use Rattle.uz_cert_lines.specs.Grammar.{Words, words_of};
ghost use Rattle.uz_cert_lines.specs.Forms.{reads};
ghost use Rattle.uz_cert_lines.specs.Lines.{SizesFit, KindLineFits, IsPointIn};
ghost use Rattle.uz_cert_lines.specs.Lines.{size_form, irq_form, stack_form, cell_form, kind_form};
ghost use Rattle.uz_cert_lines.specs.Lines.{event_form, fall_form, run_form, rest_form, entry_form, point_form, end_form};
ghost use Rattle.uz_cert_lines.specs.declared.lines.KindLine.{KindLine};
ghost use Rattle.uz_cert_lines.specs.declared.version.Version.{Version};
ghost use Rattle.uz_cert_lines.specs.declared.lines.Run.{Run};
ghost use Rattle.uz_cert_lines.specs.declared.lines.ParsedLine.{ParsedLine};
ghost use Rattle.uz_cert_lines.specs.declared.lines.ParsedLine.TheVariants as parsed;
ghost use Rattle.uz_cert_lines.specs.declared.lines.Sizes.{Sizes};
ghost use Rattle.uz_cert_lines.specs.declared.lines.StackLine.{StackLine};
ghost use Rattle.uz_cert_writer.specs.Spelling.{line_of, cell_words, kind_words, event_words, run_words, rest_words};
ghost use Rattle.uz_cert_writer.specs.Spelling.{entry_words, point_words};
ghost use Rattle.uz_cert_laws.specs.LineWords.{line, sizes_words, response_words, stack_line_words, with_stack, RunFits, PlacesAre};

/// `size KINDS LINES RESTS POINTS CELLS`
#[tactic(auto, using(crate::proofs::HeadLines::size_again, crate::proofs::HeadLines::size_only))]
pub fn size_line()
    ensures again { (s : Sizes) → SizesFit s → reads size_form (line (sizes_words s)) ≡ Ok (parsed.Size s) }
    ensures only { (words : Words) (says : ParsedLine) → reads size_form words ≡ Ok says
        → (s : Sizes) × (says ≡ parsed.Size s) × (words ≡ line (sizes_words s)) × SizesFit s }
{}

/// `irq R`
#[tactic(auto, using(crate::proofs::HeadLines::irq_again, crate::proofs::HeadLines::irq_only))]
pub fn irq_line()
    ensures again { (r : Response) → reads irq_form (line (response_words r)) ≡ Ok (parsed.Irq r) }
    ensures only { (words : Words) (says : ParsedLine) → reads irq_form words ≡ Ok says
        → (r : Response) × (says ≡ parsed.Irq r) × (words ≡ line (response_words r)) }
{}

/// `stack LO HI MAIN HANDLER`
#[tactic(auto, using(crate::proofs::HeadLines::stack_only))]
pub fn stack_line()
    ensures again { (h : Head) (s : StackLine) → StackFits (with_stack h s)
        → reads stack_form (line (stack_line_words s)) ≡ Ok (parsed.Stack s) }
    ensures only { (words : Words) (says : ParsedLine) → reads stack_form words ≡ Ok says
        → (s : StackLine) × (says ≡ parsed.Stack s) × (words ≡ line (stack_line_words s)) × ((h : Head) → StackFits (with_stack h s)) }
{}

/// `cell ADDRESS OWNER LO HI`, at an address that keeps the order
#[tactic(auto, using(crate::proofs::HeadLines::cell_only))]
pub fn cell_line()
    ensures again { (h : Head) (least : ℕ) (c : Cell) → CellFits h c → least ≤ c.at
        → reads (cell_form h.lo h.hi least) (line (cell_words c)) ≡ Ok (parsed.Cell c) }
    ensures only { (h : Head) (least : ℕ) (words : Words) (says : ParsedLine) → reads (cell_form h.lo h.hi least) words ≡ Ok says
        → (c : Cell) × (says ≡ parsed.Cell c) × (words ≡ line (cell_words c)) × CellFits h c × (least ≤ c.at) }
{}

/// `kind EVENTS LENGTH`, and in version 1 `kind EVENTS`
#[tactic(auto, using(crate::proofs::ScheduleLines::kind_again, crate::proofs::ScheduleLines::kind_only))]
pub fn kind_line()
    ensures again { (version : Version) (k : KindLine) → KindLineFits version k
        → reads (kind_form version) (line (kind_words version k.events k.clocks)) ≡ Ok (parsed.Kind k) }
    ensures only { (version : Version) (words : Words) (says : ParsedLine) → reads (kind_form version) words ≡ Ok says
        → (k : KindLine) × (says ≡ parsed.Kind k) × (words ≡ line (kind_words version k.events k.clocks)) × KindLineFits version k }
{}

/// `CLOCK sync V`, `CLOCK pixel`, `CLOCK sound` and `CLOCK leave`, at a clock of the line that keeps the order
#[tactic(auto, using(crate::proofs::ScheduleLines::event_again, crate::proofs::ScheduleLines::event_only))]
pub fn event_line()
    ensures again { (clocks least : ℕ) (e : Event) → clocks ≤ scanline → EventFits e → e.clock < clocks → least ≤ e.clock
        → reads (event_form clocks least) (line (event_words e)) ≡ Ok (parsed.Event e) }
    ensures only { (clocks least : ℕ) (words : Words) (says : ParsedLine) → clocks ≤ scanline → reads (event_form clocks least) words ≡ Ok says
        → (e : Event) × (says ≡ parsed.Event e) × (words ≡ line (event_words e)) × EventFits e × (e.clock < clocks) × (least ≤ e.clock) }
{}

/// `fall CLOCK`
#[tactic(auto, using(crate::proofs::ScheduleLines::fall_again, crate::proofs::ScheduleLines::fall_only))]
pub fn fall_line()
    ensures again { (clock : ℕ) → 1 ≤ clock → clock < clock_limit
        → reads fall_form (line (codes "fall" ∷ decimal clock ∷ [])) ≡ Ok (parsed.Fall clock) }
    ensures only { (words : Words) (says : ParsedLine) → reads fall_form words ≡ Ok says
        → (clock : ℕ) × (says ≡ parsed.Fall clock) × (words ≡ line (codes "fall" ∷ decimal clock ∷ [])) × (1 ≤ clock)
        × (clock < clock_limit) }
{}

/// `run COUNT KIND`, where so many lines are left, and not of the kind before
#[tactic(auto, using(crate::proofs::ScheduleLines::run_only))]
pub fn run_line()
    ensures again { (kinds left before count kind : ℕ) → kinds ≤ 2 ^ 31 → left < 2 ^ 31 → RunFits kinds left before count kind
        → reads (run_form kinds left before) (line (run_words (count, kind))) ≡ Ok (parsed.Run (record { count = count; kind = kind })) }
    ensures only { (kinds left before : ℕ) (words : Words) (says : ParsedLine) → kinds ≤ 2 ^ 31 → left < 2 ^ 31
        → reads (run_form kinds left before) words ≡ Ok says
        → (r : Run) × (says ≡ parsed.Run r) × (words ≡ line (run_words (r.count, r.kind))) × RunFits kinds left before r.count r.kind }
{}

/// `rest LINE CLOCK VECTOR SPANS`, on a line that keeps the order
#[tactic(auto, using(crate::proofs::ScheduleLines::rest_only))]
pub fn rest_line()
    ensures again { (h : Head) (lines points least : ℕ) (r : Rest) → PlacesAre h lines points → RestFits h lines points r → least ≤ r.line
        → reads (rest_form lines points h.cells.items least) (line (rest_words r)) ≡ Ok (parsed.Rest r) }
    ensures only { (h : Head) (lines points least : ℕ) (words : Words) (says : ParsedLine) → PlacesAre h lines points
        → reads (rest_form lines points h.cells.items least) words ≡ Ok says
        → (r : Rest) × (says ≡ parsed.Rest r) × (words ≡ line (rest_words r)) × RestFits h lines points r × (least ≤ r.line) }
{}

/// `entry KIND ID PC LINE CLOCK ITEMS`
pub fn entry_line()
    ensures again { (h : Head) (lines points : ℕ) (e : Entry) → PlacesAre h lines points → EntryFits h lines points e
        → reads (entry_form h lines points) (line (entry_words h.cells.items e)) ≡ Ok (parsed.Entry e) }
    ensures only { (h : Head) (lines points : ℕ) (words : Words) (says : ParsedLine) → PlacesAre h lines points → 1 ≤ lines
        → reads (entry_form h lines points) words ≡ Ok says
        → (e : Entry) × (says ≡ parsed.Entry e) × (words ≡ line (entry_words h.cells.items e)) × EntryFits h lines points e }
{}

/// `point KIND PC L0 L1 C0 C1 CLOCK SLOPE PENDING ITEMS`, where so many instances are left; in version 1 nothing is said of the
/// timer
pub fn point_line()
    ensures again { (version : Version) (h : Head) (lines points left : ℕ) (p : Point) → PlacesAre h lines points → left ≤ 2 ^ 30
        → PointFits h lines points p → IsPointIn version p → instances_of p ≤ left
        → reads (point_form version h lines points left) (line (point_words h.cells.items p)) ≡ Ok (parsed.Point p) }
    ensures only { (version : Version) (h : Head) (lines points left : ℕ) (words : Words) (says : ParsedLine) → PlacesAre h lines points
        → 1 ≤ lines → left ≤ 2 ^ 30 → reads (point_form version h lines points left) words ≡ Ok says
        → (p : Point) × (says ≡ parsed.Point p) × (words ≡ line (point_words h.cells.items p)) × PointFits h lines points p
        × IsPointIn version p × (instances_of p ≤ left) }
{}

/// `end`
#[tactic(auto, using(crate::proofs::ScheduleLines::end_again, crate::proofs::ScheduleLines::end_only))]
pub fn end_line()
    ensures again { reads end_form (line (codes "end" ∷ [])) ≡ Ok parsed.End }
    ensures only { (words : Words) (says : ParsedLine) → reads end_form words ≡ Ok says → (says ≡ parsed.End) × (words ≡ line (codes "end" ∷ [])) }
{}

/// Words that lack the space, of which the first isn't empty, are the words of the line that they make, cut at each space;
/// and the words of any line make that line.
#[tactic(auto, using(crate::proofs::Plains::words_again, crate::proofs::Plains::words_only))]
pub fn words_line()
    ensures again { (w : List ℕ) (ws : List (List ℕ)) → 0 < length w → All (λ v. All (λ b. (b == 32) ≡ false) v) (w ∷ ws)
        → words_of (line_of (w ∷ ws)) ≡ w ∷ ws }
    ensures only { (text : List ℕ) → line_of (words_of text) ≡ text }
{}
