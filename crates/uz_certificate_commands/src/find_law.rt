//! The law of `find` and `certify`.

ghost use Rattle.std.specs.Prelude.{◌≡◌, ℕ, List, Some};
ghost use Rattle.uz_shelf.specs.Files.{FileMap};
ghost use Rattle.avr_asm.specs.Assembly.{Output};
ghost use Rattle.uz_schedule.specs.declared.kinds.Response.{Response};
ghost use Rattle.uz_files.specs.Answers.{Answer};
ghost use Rattle.uz_files.specs.Writing.{hex_file};
ghost use Rattle.uz_certificate_commands.specs.CertifyCommand.{CertifyAnswers};
ghost use Rattle.uz_certificate_commands.specs.FindCommand.{FindAnswers};
ghost use Rattle.uz_certificate_commands.specs.FindLaw.{AreAlike, IsFlatWith};

use avr_macro::expansion_is_unique;
use uz_files::readings_are_unique;

/// The law that `find`, given a flat source as HINTS and what `asm` makes of it as HEX, may answer and write what `certify`
/// of the source may, but for HEX; and the other way round. By which version's rules a certificate is judged isn't said.
/// Does nothing.
pub fn find_is_certify()
    ensures certify { (files : FileMap) (hex source other name : List ℕ) (irq : Response) (output : Output)
        → IsFlatWith (Some files) hex source output
        → (answer : Answer) → CertifyAnswers (Some files) ⊥ source irq other name answer
        → (found : Answer) × FindAnswers (Some files) ⊥ hex source irq name found × AreAlike (hex_file other output.image) answer found }
    ensures find { (files : FileMap) (hex source other name : List ℕ) (irq : Response) (output : Output)
        → IsFlatWith (Some files) hex source output
        → (answer : Answer) → FindAnswers (Some files) ⊥ hex source irq name answer
        → (certified : Answer) × CertifyAnswers (Some files) ⊥ source irq other name certified
        × AreAlike (hex_file other output.image) certified answer }
{
    expansion_is_unique();
    readings_are_unique();
}
