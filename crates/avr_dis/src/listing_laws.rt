//! Laws of reading words and of listing an image, which say that there is an answer.

ghost use Rattle.std.specs.Prelude.{◌⊎◌, ℕ, List};
ghost use Rattle.std.specs.FinMap.{FinMap};
ghost use Rattle.std.specs.Ordering.{nat_cmp};
ghost use Rattle.avr_dis.specs.Listing.{IsListing};
ghost use Rattle.avr_table.specs.Rows.{Reads};
ghost use Rattle.avr_table.specs.declared.Instr.{Instr};

/// The law that at each two words an instruction is read, or none is. Does nothing.
pub fn read_or_none()
    ensures { (first second : ℕ) → ((i : Instr) × Reads first second i) ⊎ ((i : Instr) → Reads first second i → ⊥) }
{}

/// The law that each image has a listing. Does nothing.
pub fn each_image_is_listed()
    ensures { (image : FinMap nat_cmp ℕ) → (text : List ℕ) × IsListing image text }
{}
