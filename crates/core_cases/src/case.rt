//! A case: a core, and the words at its pc.

/// What a line says: the word `step` or `interrupt`, pc, SP, SREG and three words in hexadecimal, then for some registers
/// the number in decimal and the value in hexadecimal, until a word that is no number.
#[derive(Drop)]
pub(crate) struct Case {
    pub interrupts: bool,
    pub pc: u16,
    pub sp: u16,
    pub sreg: u8,
    pub words: [u16; 3],
    pub registers: [u8; 32],
}

impl Case {
    /// The case of a line, and None for a line of another form.
    pub(crate) fn read(line: &str) -> Option<Case> {
        let mut words = line.split_whitespace();
        let interrupts = words.next()? == "interrupt";
        let pc = hex_word(words.next()?)?;
        let sp = hex_word(words.next()?)?;
        let sreg = hex_byte(words.next()?)?;
        let first = hex_word(words.next()?)?;
        let second = hex_word(words.next()?)?;
        let third = hex_word(words.next()?)?;
        let mut case = Case {
            interrupts,
            pc,
            sp,
            sreg,
            words: [first, second, third],
            registers: [0; 32],
        };
        for _ in 0..32 {
            let Some(number) = words.next().and_then(decimal) else {
                break
            };
            let Some(value) = words.next().and_then(hex_byte) else {
                break
            };
            if number < 32 {
                case.registers[number as usize] = value;
            }
        }
        Some(case)
    }
}

fn hex_word(text: &str) -> Option<u16> {
    u16::from_str_radix(text, 16).ok()
}

fn hex_byte(text: &str) -> Option<u8> {
    u8::from_str_radix(text, 16).ok()
}

fn decimal(text: &str) -> Option<u8> {
    text.parse::<u8>().ok()
}
