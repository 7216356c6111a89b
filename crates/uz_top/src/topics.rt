//! What `help` and `version` print, and the usage line: texts of one table of the commands.

ghost use Rattle.std.specs.Prelude.{◌≡◌, option_map};
ghost use Rattle.uz_top.specs.Topics.{help_text, text_of, usage_line, version_text};

/// What is told of each command, in one order everywhere: its first word, all its words, what it does, and lines of its files
/// and statuses.
macro_rules! topics {
    ($told:ident) => {
        $told! {
            "asm" "asm SRC HEX" "assembles a source and writes the HEX file"
            "reads SRC, a flat source; writes HEX\n0 done, 2 SRC not read, 3 a fault in SRC, 5 not written, 8 no memory\n";
            "dis" "dis HEX" "prints a listing"
            "reads HEX; writes no file\n0 done, 2 HEX not read, 3 a fault in HEX, 5 not written, 8 no memory\n";
            "trace" "trace HEX PADS IRQ CLOCKS" "runs from reset, prints each sync edge, pixel, sound, interrupt and return"
            "reads HEX, PADS; writes no file; IRQ is 4 or 5, CLOCKS 1 to 1000000000\n0 done, 2 a file not read, 3 a fault in a file, 5 not written, 6 the run stopped, 8 no memory\n";
            "certify" "certify SRC IRQ HEX CERT" "assembles a flat source, finds a certificate by its hints, writes both"
            "reads SRC; writes HEX, CERT; IRQ is 4 or 5\n0 done, 2 SRC not read, 3 a fault in SRC, 4 refused, 5 not written, 8 no memory\n";
            "check" "check HEX CERT" "says whether the image keeps the certificate's schedule"
            "reads HEX, CERT; writes no file\n0 accepted, 2 a file not read, 3 a fault in a file, 4 refused, 5 not written, 8 no memory\n";
            "play" "play HEX CERT PADS CLOCKS FRAMES" "checks, runs from reset, and writes the run's picture"
            "reads HEX, CERT, PADS; writes FRAMES; CLOCKS is 1 to 1000000000\n0 done, 2 a file not read, 3 a fault in a file, 4 refused, 5 not written,\n6 the run stopped, 7 the run never entered, 8 no memory\n";
            "demo" "demo NUMBER" "certifies a generated kernel, and runs it for three frames' time"
            "reads and writes no file; NUMBER is 0 to 65535\n0 done, 4 refused, 5 not written, 6 the run stopped, 7 the run never entered, 8 no memory\n";
            "migrate" "migrate OLD NEW" "writes a certificate of the older text, version 1, in version 2"
            "reads OLD; writes NEW\n0 done, 2 OLD not read, 3 a fault in OLD, 5 not written, 8 no memory\n";
            "expand" "expand SRC FLAT" "expands macros, blocks and included files, and writes the flat source"
            "reads SRC and the files that it includes; writes FLAT\n0 done, 2 a file not read, 3 a fault in a file, 5 not written, 8 no memory\n";
            "build" "build SRC HEX" "expands a source, assembles it, and writes the HEX file"
            "reads SRC and the files that it includes; writes HEX\n0 done, 2 a file not read, 3 a fault in a file, 5 not written, 8 no memory\n";
            "debug" "debug HEX PADS IRQ SCRIPT" "runs from reset as a script says, on and back, with breakpoints"
            "reads HEX, PADS, SCRIPT; writes no file; IRQ is 4 or 5\n0 done, 2 a file not read, 3 a fault in a file, 5 not written, 8 no memory\n";
            "report" "report HEX CERT" "checks, and says how many clocks the main program has"
            "reads HEX, CERT; writes no file\n0 done, 2 a file not read, 3 a fault in a file, 4 refused, 5 not written, 8 no memory\n";
            "wave" "wave HEX PADS IRQ CLOCKS WAV" "runs from reset, and writes the run's sound, one sample a line"
            "reads HEX, PADS; writes WAV; IRQ is 4 or 5, CLOCKS 1 to 1000000000\n0 done, 2 a file not read, 3 a fault in a file, 5 not written, 6 the run stopped, 8 no memory\n";
            "help" "help [COMMAND]" "prints what each command does, or the words, files and statuses of one"
            "reads and writes no file\n0 done, 5 not written, 8 no memory\n";
            "version" "version" "prints the release, and the toolchain that it is proved with"
            "reads and writes no file\n0 done, 5 not written, 8 no memory\n";
            "find" "find HEX HINTS IRQ CERT" "finds a certificate of an image by hints beside it, and writes it"
            "reads HEX, HINTS and the files that it includes; writes CERT; IRQ is 4 or 5\n0 done, 2 a file not read, 3 a fault in a file, 4 refused, 5 not written, 8 no memory\n";
            "timing" "timing HEX CERT" "checks, and says what the schedule is beside NTSC's"
            "reads HEX, CERT; writes no file\n0 done, 2 a file not read, 3 a fault in a file, 4 refused, 5 not written, 8 no memory\n";
            "hints" "hints HEX PADS IRQ CLOCKS HINTS" "runs from reset, and writes hints for find by what the run shows"
            "reads HEX, PADS; writes HINTS; IRQ is 4 or 5, CLOCKS 1 to 1000000000\n0 done, 2 a file not read, 3 a fault in a file, 4 no hints, 5 not written, 8 no memory\n";
            "why" "why HEX HINTS IRQ" "searches as find does, and if it finds none says how the refusal comes about"
            "reads HEX, HINTS and the files that it includes; writes no file; IRQ is 4 or 5\n0 accepted, 2 a file not read, 3 a fault in a file, 4 refused, 5 not written, 8 no memory\n";
        }
    };
}

macro_rules! all_heads {
    ($($name:literal $words:literal $does:literal $more:literal;)*) => {
        concat!($($words, "\n    ", $does, "\n"),*)
    };
}

macro_rules! usage_of {
    ($first:literal $words:literal $does:literal $more:literal; $($name:literal $its:literal $task:literal $rest:literal;)*) => {
        concat!("usage: uzebox ", $first, $(", ", $name,)* "\n")
    };
}

/// What `help` prints.
pub fn help_text() -> &'static str
    ensures { result.now ≡ help_text }
{
    topics!(all_heads)
}

/// What `help` prints of the command of that name, if there is one.
pub fn text_of(name: &str) -> Option<&'static str>
    ensures { option_map (λ text. text.now) result ≡ text_of name.now }
{
    macro_rules! text_by_name {
        ($($topic:literal $words:literal $does:literal $more:literal;)*) => {
            match name {
                $($topic => Some(concat!($words, "\n    ", $does, "\n", $more)),)*
                _ => None,
            }
        };
    }
    topics!(text_by_name)
}

/// The release, and the toolchain that it is proved with.
pub fn version_text() -> &'static str
    ensures { result.now ≡ version_text }
{
    "uzebox 1.0\nproved with rattle-kit-13f logic dac8208d650f15bf\n"
}

/// The line that tells the commands.
pub fn usage_line() -> &'static str
    ensures { result.now ≡ usage_line }
{
    topics!(usage_of)
}
