//! Laws of what a source assembles to.

ghost use Rattle.std.specs.Prelude.{◌≡◌, ◌↔◌, ◌⊎◌, ℕ, ◌+◌, ◌==◌, All, List, ◌∷◌, ◌++◌, length, Ok, Err};
ghost use Rattle.std.specs.List.{filter};
ghost use Rattle.std.specs.List.Sorted.{IsNonDecreasingBy};
ghost use Rattle.avr_asm.specs.Assembly.{Output, assembly};
ghost use Rattle.avr_asm.specs.FirstFault.{IsFirstFault};
ghost use Rattle.avr_asm.specs.Emission.{Flash};
ghost use Rattle.avr_asm.specs.Labels.{by_address};
ghost use Rattle.avr_asm.specs.Relation.{Statement, end_of, HaveNoOrigin, length_of, IsAssembly};
ghost use Rattle.avr_asm.specs.SourceMap.{labels_of, labels_in, hint_lines_of, hint_numbers};
ghost use Rattle.avr_asm.specs.Taken.{Hits, Misses, assembly_over};
ghost use Rattle.avr_asm.specs.declared.errors.AsmError.{AsmError};
ghost use Rattle.avr_asm.specs.declared.labels.Label.{Label};
ghost use Rattle.avr_asm.specs.declared.first_pass.Effect.TheVariants.{Move};
ghost use Rattle.avr_text.specs.declared.errors.AsmWhy.{AsmWhy};

use avr_text::{name_gives_word_count, value_is_kept};

/// The law that the plain definition in two passes gives an assembly exactly where it stands in the relation of the source.
/// Does nothing.
pub fn assembly_is_exact()
    ensures { (text : List ℕ) (out : Output) → (assembly text ≡ Ok out) ↔ IsAssembly text out }
{
    value_is_kept();
    name_gives_word_count();
}

/// The law that the plain definition refuses a source exactly for its first fault. Does nothing.
pub fn fault_is_exact()
    ensures { (text : List ℕ) (fault : AsmError) → (assembly text ≡ Err fault) ↔ IsFirstFault text fault.line fault.why }
{
    name_gives_word_count();
}

/// The law that each source is assembled or has one first fault, and never both. Does nothing.
pub fn source_or_fault()
    ensures either { (text : List ℕ) → ((out : Output) × IsAssembly text out) ⊎ ((line : ℕ) × (why : AsmWhy) × IsFirstFault text line why) }
    ensures one_fault { (text : List ℕ) (m n : ℕ) (v w : AsmWhy) → IsFirstFault text m v → IsFirstFault text n w → (m ≡ n) × (v ≡ w) }
    ensures not_both { (text : List ℕ) (out : Output) (line : ℕ) (why : AsmWhy) → IsAssembly text out → IsFirstFault text line why → ⊥ }
{
    value_is_kept();
    name_gives_word_count();
}

/// The law that a source has one assembly at most: the relation determines the image, the items and the hints. Does
/// nothing.
pub fn assembly_is_unique()
    ensures { (text : List ℕ) (a b : Output) → IsAssembly text a → IsAssembly text b → a ≡ b }
{
    name_gives_word_count();
}

/// The law that an address is the last `.org` plus the lengths of the lines between: where statements end is the sum of
/// their lengths if none is an `.org`, and else the last `.org` plus the lengths after it. Does nothing.
pub fn address_is_origin_and_lengths()
    ensures first { (between : List Statement) → HaveNoOrigin between → end_of 0 between ≡ length_of between }
    ensures later { (before between : List Statement) (origin : Statement) (to : ℕ) → origin.effect ≡ Move to → HaveNoOrigin between
        → end_of 0 (before ++ origin ∷ between) ≡ to + length_of between }
{}

/// The law of a source that is assembled where cells are taken: it is refused at the first statement that places a byte on
/// one of them, and where none does it is assembled. Does nothing.
pub fn taken_cells_refuse()
    ensures first { (text : List ℕ) (taken : Flash) (out : Output) (is : IsAssembly text out) (before after : List Statement)
        (s : Statement) → is.statements ≡ before ++ s ∷ after → All (Misses taken) before → Hits taken s
        → assembly_over taken text ≡ Err (record { line = s.number; why = AsmWhy.Overlap }) }
    ensures none { (text : List ℕ) (taken : Flash) (out : Output) (is : IsAssembly text out) → All (Misses taken) is.statements
        → (built : Output) × (assembly_over taken text ≡ Ok built) }
{
    name_gives_word_count();
}

/// The law that labels in order of their addresses are in that order, and that those of one address stay in the order that
/// they had. Does nothing.
pub fn labels_stay_in_order()
    ensures rising { (labels : List Label) → IsNonDecreasingBy (λ l. l.address) (by_address labels) }
    ensures stable { (labels : List Label) (n : ℕ) → filter (λ l. l.address == n) (by_address labels) ≡ filter (λ l. l.address == n) labels }
{}

/// The law of the source map of an assembly: its labels are those of the statements, and each hint has the number of its
/// statement. Does nothing.
pub fn map_is_of_statements()
    ensures labels { (text : List ℕ) (out : Output) (is : IsAssembly text out) → labels_of text ≡ by_address (labels_in is.statements) }
    ensures hint_lines { (text : List ℕ) (out : Output) (is : IsAssembly text out) → hint_lines_of text ≡ hint_numbers is.statements }
    ensures as_many { (text : List ℕ) (out : Output) → IsAssembly text out → length (hint_lines_of text) ≡ length out.hints }
{}
