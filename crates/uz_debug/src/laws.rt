//! Laws of scripts and sessions. Each is the contract of a function that does nothing.

ghost use Rattle.std.specs.Prelude.{◌≡◌, ℕ, List};
ghost use Rattle.uz_core.specs.PadLine.{PadHistory};
ghost use Rattle.uz_core.specs.Turn.{State};
ghost use Rattle.uz_debug.specs.Sessions.{Acts, Session};
ghost use Rattle.uz_debug.specs.SessionText.{Prints};
ghost use Rattle.uz_debug.specs.declared.command.Command.{Command};
ghost use Rattle.uz_debug.specs.Scripts.{IsFirstFault, IsScript};
ghost use Rattle.uz_debug.specs.declared.command.Reply.{Reply};
ghost use Rattle.uz_debug.specs.declared.errors.ScriptWhy.{ScriptWhy};

/// The law that a command has one reply and leads to one state of the debugger, and that a list of commands
/// has one text. Does nothing.
pub fn session_is_unique()
    ensures reply { (start : State PadHistory) (old a b : Session) (command : Command) (x y : Reply) → Acts start old command x a
        → Acts start old command y b → x ≡ y }
    ensures session { (start : State PadHistory) (old a b : Session) (command : Command) (x y : Reply) → Acts start old command x a
        → Acts start old command y b → a ≡ b }
    ensures text { (start : State PadHistory) (old m n : Session) (commands : List Command) (x y : List ℕ)
        → Prints start old commands x m → Prints start old commands y n → x ≡ y }
{}

/// The law that lines give one list of commands or have one first fault, and not both. Does nothing.
pub fn reading_is_unique()
    ensures list { (lines : List (List ℕ)) (a b : List Command) → IsScript lines a → IsScript lines b → a ≡ b }
    ensures fault { (lines : List (List ℕ)) (n m : ℕ) (v w : ScriptWhy) → IsFirstFault lines n v → IsFirstFault lines m w
        → (n ≡ m) × (v ≡ w) }
    ensures apart { (lines : List (List ℕ)) (commands : List Command) (number : ℕ) (why : ScriptWhy) → IsScript lines commands
        → IsFirstFault lines number why → ⊥ }
{}
