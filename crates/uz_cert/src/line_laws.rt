//! What a line says where it is due.

ghost use Rattle.std.specs.Prelude.{◌≡◌, Some, Ok};
ghost use Rattle.uz_cert_lines.specs.Grammar.{Words};
ghost use Rattle.uz_cert_lines.specs.Forms.{reads};
ghost use Rattle.uz_cert_lines.specs.declared.lines.ParsedLine.{ParsedLine};
ghost use Rattle.uz_cert_laws.specs.LineWords.{line};
ghost use Rattle.uz_cert.specs.Drafts.{expected_line, form_of};
ghost use Rattle.uz_cert.specs.Kept.{Kept, SaidFits};
ghost use Rattle.uz_cert.specs.SaidLines.{expected_as, said_words};
ghost use Rattle.uz_cert.specs.declared.draft.Draft.{Draft};
ghost use Rattle.uz_cert.specs.declared.expected_line.ExpectedLine.{ExpectedLine};

use uz_cert_laws::{
    cell_line, end_line, entry_line, event_line, fall_line, irq_line, kind_line, point_line,
    rest_line, run_line, size_line, stack_line,
};

/// What fits where a line is due is read from its words, and what is read there fits and is said by these words alone. Does
/// nothing.
pub fn said_lines()
    ensures again { (d : Draft) (s : ParsedLine) → Kept d → expected_line d ≡ Some (expected_as s) → SaidFits d s
        → reads (form_of d (expected_as s)) (line (said_words d.version d.head s)) ≡ Ok s }
    ensures only { (d : Draft) (expected : ExpectedLine) (words : Words) (s : ParsedLine) → Kept d → expected_line d ≡ Some expected
        → reads (form_of d expected) words ≡ Ok s
        → (words ≡ line (said_words d.version d.head s)) × (expected ≡ expected_as s) × SaidFits d s }
{
    size_line();
    irq_line();
    stack_line();
    cell_line();
    kind_line();
    event_line();
    fall_line();
    run_line();
    rest_line();
    entry_line();
    point_line();
    end_line();
}
