// The one list of rows.

/// Calls a macro with all rows of the instruction table, in the order of the manual's groups.
///
/// `rows!(callback(arguments))` expands to `callback! { (arguments) rows }`. A row has
///
/// - its variant of `Instr`, and for each field in order the bits that spell it;
/// - its key, a word of its own in lower case, for a function of the same name;
/// - its mnemonic;
/// - its operands, as they are written in source;
/// - its words;
/// - its clocks: to the next instruction, where a branch is taken, where one word is skipped, and where two are;
/// - its fixed bits and their values.
///
/// Bits are those of the number `first * 65536 + second` of the row's two words; a row of one word has none
/// in the second. The operands' words: `register(d)` is register d, `upper_register(d)` register 16 + d,
/// `pair(d)` the pair at 2d, `upper_pair(d)` the pair at 24 + 2d, `number(k)` a number without a sign,
/// `pointer("X+")` that pointer, `displaced(y, q)` Y+q where y is 1 and else Z+q, `relative_7(k)` and
/// `relative_12(k)` a signed number of words of that many bits, counted from the following instruction, and
/// `absolute(k)` a word address.
#[macro_export]
macro_rules! rows {
    ($callback:ident ( $($args:tt)* )) => {
        $callback! {
            ($($args)*)
            // Arithmetic and logic
            Add { d 0x01F0_0000, r 0x020F_0000 } add "ADD" [register(d), register(r)],
                words 1, clocks (1, 1, 1, 1), fixed 0xFC00_0000 is 0x0C00_0000;
            Adc { d 0x01F0_0000, r 0x020F_0000 } adc "ADC" [register(d), register(r)],
                words 1, clocks (1, 1, 1, 1), fixed 0xFC00_0000 is 0x1C00_0000;
            Adiw { d 0x0030_0000, k 0x00CF_0000 } adiw "ADIW" [upper_pair(d), number(k)],
                words 1, clocks (2, 2, 2, 2), fixed 0xFF00_0000 is 0x9600_0000;
            Sub { d 0x01F0_0000, r 0x020F_0000 } sub "SUB" [register(d), register(r)],
                words 1, clocks (1, 1, 1, 1), fixed 0xFC00_0000 is 0x1800_0000;
            Subi { d 0x00F0_0000, k 0x0F0F_0000 } subi "SUBI" [upper_register(d), number(k)],
                words 1, clocks (1, 1, 1, 1), fixed 0xF000_0000 is 0x5000_0000;
            Sbc { d 0x01F0_0000, r 0x020F_0000 } sbc "SBC" [register(d), register(r)],
                words 1, clocks (1, 1, 1, 1), fixed 0xFC00_0000 is 0x0800_0000;
            Sbci { d 0x00F0_0000, k 0x0F0F_0000 } sbci "SBCI" [upper_register(d), number(k)],
                words 1, clocks (1, 1, 1, 1), fixed 0xF000_0000 is 0x4000_0000;
            Sbiw { d 0x0030_0000, k 0x00CF_0000 } sbiw "SBIW" [upper_pair(d), number(k)],
                words 1, clocks (2, 2, 2, 2), fixed 0xFF00_0000 is 0x9700_0000;
            And { d 0x01F0_0000, r 0x020F_0000 } and "AND" [register(d), register(r)],
                words 1, clocks (1, 1, 1, 1), fixed 0xFC00_0000 is 0x2000_0000;
            Andi { d 0x00F0_0000, k 0x0F0F_0000 } andi "ANDI" [upper_register(d), number(k)],
                words 1, clocks (1, 1, 1, 1), fixed 0xF000_0000 is 0x7000_0000;
            Or { d 0x01F0_0000, r 0x020F_0000 } or "OR" [register(d), register(r)],
                words 1, clocks (1, 1, 1, 1), fixed 0xFC00_0000 is 0x2800_0000;
            Ori { d 0x00F0_0000, k 0x0F0F_0000 } ori "ORI" [upper_register(d), number(k)],
                words 1, clocks (1, 1, 1, 1), fixed 0xF000_0000 is 0x6000_0000;
            Eor { d 0x01F0_0000, r 0x020F_0000 } eor "EOR" [register(d), register(r)],
                words 1, clocks (1, 1, 1, 1), fixed 0xFC00_0000 is 0x2400_0000;
            Com { d 0x01F0_0000 } com "COM" [register(d)],
                words 1, clocks (1, 1, 1, 1), fixed 0xFE0F_0000 is 0x9400_0000;
            Neg { d 0x01F0_0000 } neg "NEG" [register(d)],
                words 1, clocks (1, 1, 1, 1), fixed 0xFE0F_0000 is 0x9401_0000;
            Inc { d 0x01F0_0000 } inc "INC" [register(d)],
                words 1, clocks (1, 1, 1, 1), fixed 0xFE0F_0000 is 0x9403_0000;
            Dec { d 0x01F0_0000 } dec "DEC" [register(d)],
                words 1, clocks (1, 1, 1, 1), fixed 0xFE0F_0000 is 0x940A_0000;
            Mul { d 0x01F0_0000, r 0x020F_0000 } mul "MUL" [register(d), register(r)],
                words 1, clocks (2, 2, 2, 2), fixed 0xFC00_0000 is 0x9C00_0000;
            Muls { d 0x00F0_0000, r 0x000F_0000 } muls "MULS" [upper_register(d), upper_register(r)],
                words 1, clocks (2, 2, 2, 2), fixed 0xFF00_0000 is 0x0200_0000;
            Mulsu { d 0x0070_0000, r 0x0007_0000 } mulsu "MULSU" [upper_register(d), upper_register(r)],
                words 1, clocks (2, 2, 2, 2), fixed 0xFF88_0000 is 0x0300_0000;
            Fmul { d 0x0070_0000, r 0x0007_0000 } fmul "FMUL" [upper_register(d), upper_register(r)],
                words 1, clocks (2, 2, 2, 2), fixed 0xFF88_0000 is 0x0308_0000;
            Fmuls { d 0x0070_0000, r 0x0007_0000 } fmuls "FMULS" [upper_register(d), upper_register(r)],
                words 1, clocks (2, 2, 2, 2), fixed 0xFF88_0000 is 0x0380_0000;
            Fmulsu { d 0x0070_0000, r 0x0007_0000 } fmulsu "FMULSU" [upper_register(d), upper_register(r)],
                words 1, clocks (2, 2, 2, 2), fixed 0xFF88_0000 is 0x0388_0000;
            // Branches
            Rjmp { k 0x0FFF_0000 } rjmp "RJMP" [relative_12(k)],
                words 1, clocks (2, 2, 2, 2), fixed 0xF000_0000 is 0xC000_0000;
            Ijmp { } ijmp "IJMP" [],
                words 1, clocks (2, 2, 2, 2), fixed 0xFFFF_0000 is 0x9409_0000;
            Jmp { k 0x0000_7FFF } jmp "JMP" [absolute(k)],
                words 2, clocks (3, 3, 3, 3), fixed 0xFFFF_8000 is 0x940C_0000;
            Rcall { k 0x0FFF_0000 } rcall "RCALL" [relative_12(k)],
                words 1, clocks (3, 3, 3, 3), fixed 0xF000_0000 is 0xD000_0000;
            Icall { } icall "ICALL" [],
                words 1, clocks (3, 3, 3, 3), fixed 0xFFFF_0000 is 0x9509_0000;
            Call { k 0x0000_7FFF } call "CALL" [absolute(k)],
                words 2, clocks (4, 4, 4, 4), fixed 0xFFFF_8000 is 0x940E_0000;
            Ret { } ret "RET" [],
                words 1, clocks (4, 4, 4, 4), fixed 0xFFFF_0000 is 0x9508_0000;
            Reti { } reti "RETI" [],
                words 1, clocks (4, 4, 4, 4), fixed 0xFFFF_0000 is 0x9518_0000;
            Cpse { d 0x01F0_0000, r 0x020F_0000 } cpse "CPSE" [register(d), register(r)],
                words 1, clocks (1, 1, 2, 3), fixed 0xFC00_0000 is 0x1000_0000;
            Cp { d 0x01F0_0000, r 0x020F_0000 } cp "CP" [register(d), register(r)],
                words 1, clocks (1, 1, 1, 1), fixed 0xFC00_0000 is 0x1400_0000;
            Cpc { d 0x01F0_0000, r 0x020F_0000 } cpc "CPC" [register(d), register(r)],
                words 1, clocks (1, 1, 1, 1), fixed 0xFC00_0000 is 0x0400_0000;
            Cpi { d 0x00F0_0000, k 0x0F0F_0000 } cpi "CPI" [upper_register(d), number(k)],
                words 1, clocks (1, 1, 1, 1), fixed 0xF000_0000 is 0x3000_0000;
            Sbrc { r 0x01F0_0000, b 0x0007_0000 } sbrc "SBRC" [register(r), number(b)],
                words 1, clocks (1, 1, 2, 3), fixed 0xFE08_0000 is 0xFC00_0000;
            Sbrs { r 0x01F0_0000, b 0x0007_0000 } sbrs "SBRS" [register(r), number(b)],
                words 1, clocks (1, 1, 2, 3), fixed 0xFE08_0000 is 0xFE00_0000;
            Sbic { a 0x00F8_0000, b 0x0007_0000 } sbic "SBIC" [number(a), number(b)],
                words 1, clocks (1, 1, 2, 3), fixed 0xFF00_0000 is 0x9900_0000;
            Sbis { a 0x00F8_0000, b 0x0007_0000 } sbis "SBIS" [number(a), number(b)],
                words 1, clocks (1, 1, 2, 3), fixed 0xFF00_0000 is 0x9B00_0000;
            Brbs { s 0x0007_0000, k 0x03F8_0000 } brbs "BRBS" [number(s), relative_7(k)],
                words 1, clocks (1, 2, 1, 1), fixed 0xFC00_0000 is 0xF000_0000;
            Brbc { s 0x0007_0000, k 0x03F8_0000 } brbc "BRBC" [number(s), relative_7(k)],
                words 1, clocks (1, 2, 1, 1), fixed 0xFC00_0000 is 0xF400_0000;
            // Data transfer
            Mov { d 0x01F0_0000, r 0x020F_0000 } mov "MOV" [register(d), register(r)],
                words 1, clocks (1, 1, 1, 1), fixed 0xFC00_0000 is 0x2C00_0000;
            Movw { d 0x00F0_0000, r 0x000F_0000 } movw "MOVW" [pair(d), pair(r)],
                words 1, clocks (1, 1, 1, 1), fixed 0xFF00_0000 is 0x0100_0000;
            Ldi { d 0x00F0_0000, k 0x0F0F_0000 } ldi "LDI" [upper_register(d), number(k)],
                words 1, clocks (1, 1, 1, 1), fixed 0xF000_0000 is 0xE000_0000;
            LdX { d 0x01F0_0000 } ld_x "LD" [register(d), pointer("X")],
                words 1, clocks (2, 2, 2, 2), fixed 0xFE0F_0000 is 0x900C_0000;
            LdXInc { d 0x01F0_0000 } ld_x_inc "LD" [register(d), pointer("X+")],
                words 1, clocks (2, 2, 2, 2), fixed 0xFE0F_0000 is 0x900D_0000;
            LdXDec { d 0x01F0_0000 } ld_x_dec "LD" [register(d), pointer("-X")],
                words 1, clocks (2, 2, 2, 2), fixed 0xFE0F_0000 is 0x900E_0000;
            LdYInc { d 0x01F0_0000 } ld_y_inc "LD" [register(d), pointer("Y+")],
                words 1, clocks (2, 2, 2, 2), fixed 0xFE0F_0000 is 0x9009_0000;
            LdYDec { d 0x01F0_0000 } ld_y_dec "LD" [register(d), pointer("-Y")],
                words 1, clocks (2, 2, 2, 2), fixed 0xFE0F_0000 is 0x900A_0000;
            LdZInc { d 0x01F0_0000 } ld_z_inc "LD" [register(d), pointer("Z+")],
                words 1, clocks (2, 2, 2, 2), fixed 0xFE0F_0000 is 0x9001_0000;
            LdZDec { d 0x01F0_0000 } ld_z_dec "LD" [register(d), pointer("-Z")],
                words 1, clocks (2, 2, 2, 2), fixed 0xFE0F_0000 is 0x9002_0000;
            Ldd { d 0x01F0_0000, y 0x0008_0000, q 0x2C07_0000 } ldd "LDD" [register(d), displaced(y, q)],
                words 1, clocks (2, 2, 2, 2), fixed 0xD200_0000 is 0x8000_0000;
            Lds { d 0x01F0_0000, k 0x0000_FFFF } lds "LDS" [register(d), number(k)],
                words 2, clocks (2, 2, 2, 2), fixed 0xFE0F_0000 is 0x9000_0000;
            StX { r 0x01F0_0000 } st_x "ST" [pointer("X"), register(r)],
                words 1, clocks (2, 2, 2, 2), fixed 0xFE0F_0000 is 0x920C_0000;
            StXInc { r 0x01F0_0000 } st_x_inc "ST" [pointer("X+"), register(r)],
                words 1, clocks (2, 2, 2, 2), fixed 0xFE0F_0000 is 0x920D_0000;
            StXDec { r 0x01F0_0000 } st_x_dec "ST" [pointer("-X"), register(r)],
                words 1, clocks (2, 2, 2, 2), fixed 0xFE0F_0000 is 0x920E_0000;
            StYInc { r 0x01F0_0000 } st_y_inc "ST" [pointer("Y+"), register(r)],
                words 1, clocks (2, 2, 2, 2), fixed 0xFE0F_0000 is 0x9209_0000;
            StYDec { r 0x01F0_0000 } st_y_dec "ST" [pointer("-Y"), register(r)],
                words 1, clocks (2, 2, 2, 2), fixed 0xFE0F_0000 is 0x920A_0000;
            StZInc { r 0x01F0_0000 } st_z_inc "ST" [pointer("Z+"), register(r)],
                words 1, clocks (2, 2, 2, 2), fixed 0xFE0F_0000 is 0x9201_0000;
            StZDec { r 0x01F0_0000 } st_z_dec "ST" [pointer("-Z"), register(r)],
                words 1, clocks (2, 2, 2, 2), fixed 0xFE0F_0000 is 0x9202_0000;
            Std { y 0x0008_0000, q 0x2C07_0000, r 0x01F0_0000 } std "STD" [displaced(y, q), register(r)],
                words 1, clocks (2, 2, 2, 2), fixed 0xD200_0000 is 0x8200_0000;
            Sts { k 0x0000_FFFF, r 0x01F0_0000 } sts "STS" [number(k), register(r)],
                words 2, clocks (2, 2, 2, 2), fixed 0xFE0F_0000 is 0x9200_0000;
            Lpm { } lpm "LPM" [],
                words 1, clocks (3, 3, 3, 3), fixed 0xFFFF_0000 is 0x95C8_0000;
            LpmZ { d 0x01F0_0000 } lpm_z "LPM" [register(d), pointer("Z")],
                words 1, clocks (3, 3, 3, 3), fixed 0xFE0F_0000 is 0x9004_0000;
            LpmZInc { d 0x01F0_0000 } lpm_z_inc "LPM" [register(d), pointer("Z+")],
                words 1, clocks (3, 3, 3, 3), fixed 0xFE0F_0000 is 0x9005_0000;
            Spm { } spm "SPM" [],
                words 1, clocks (0, 0, 0, 0), fixed 0xFFFF_0000 is 0x95E8_0000;
            In { d 0x01F0_0000, a 0x060F_0000 } in_ "IN" [register(d), number(a)],
                words 1, clocks (1, 1, 1, 1), fixed 0xF800_0000 is 0xB000_0000;
            Out { a 0x060F_0000, r 0x01F0_0000 } out "OUT" [number(a), register(r)],
                words 1, clocks (1, 1, 1, 1), fixed 0xF800_0000 is 0xB800_0000;
            Push { r 0x01F0_0000 } push "PUSH" [register(r)],
                words 1, clocks (2, 2, 2, 2), fixed 0xFE0F_0000 is 0x920F_0000;
            Pop { d 0x01F0_0000 } pop "POP" [register(d)],
                words 1, clocks (2, 2, 2, 2), fixed 0xFE0F_0000 is 0x900F_0000;
            // Bits and bit tests
            Lsr { d 0x01F0_0000 } lsr "LSR" [register(d)],
                words 1, clocks (1, 1, 1, 1), fixed 0xFE0F_0000 is 0x9406_0000;
            Ror { d 0x01F0_0000 } ror "ROR" [register(d)],
                words 1, clocks (1, 1, 1, 1), fixed 0xFE0F_0000 is 0x9407_0000;
            Asr { d 0x01F0_0000 } asr "ASR" [register(d)],
                words 1, clocks (1, 1, 1, 1), fixed 0xFE0F_0000 is 0x9405_0000;
            Swap { d 0x01F0_0000 } swap "SWAP" [register(d)],
                words 1, clocks (1, 1, 1, 1), fixed 0xFE0F_0000 is 0x9402_0000;
            Bset { s 0x0070_0000 } bset "BSET" [number(s)],
                words 1, clocks (1, 1, 1, 1), fixed 0xFF8F_0000 is 0x9408_0000;
            Bclr { s 0x0070_0000 } bclr "BCLR" [number(s)],
                words 1, clocks (1, 1, 1, 1), fixed 0xFF8F_0000 is 0x9488_0000;
            Sbi { a 0x00F8_0000, b 0x0007_0000 } sbi "SBI" [number(a), number(b)],
                words 1, clocks (2, 2, 2, 2), fixed 0xFF00_0000 is 0x9A00_0000;
            Cbi { a 0x00F8_0000, b 0x0007_0000 } cbi "CBI" [number(a), number(b)],
                words 1, clocks (2, 2, 2, 2), fixed 0xFF00_0000 is 0x9800_0000;
            Bst { d 0x01F0_0000, b 0x0007_0000 } bst "BST" [register(d), number(b)],
                words 1, clocks (1, 1, 1, 1), fixed 0xFE08_0000 is 0xFA00_0000;
            Bld { d 0x01F0_0000, b 0x0007_0000 } bld "BLD" [register(d), number(b)],
                words 1, clocks (1, 1, 1, 1), fixed 0xFE08_0000 is 0xF800_0000;
            // Control
            Break { } break_ "BREAK" [],
                words 1, clocks (1, 1, 1, 1), fixed 0xFFFF_0000 is 0x9598_0000;
            Nop { } nop "NOP" [],
                words 1, clocks (1, 1, 1, 1), fixed 0xFFFF_0000 is 0x0000_0000;
            Sleep { } sleep "SLEEP" [],
                words 1, clocks (1, 1, 1, 1), fixed 0xFFFF_0000 is 0x9588_0000;
            Wdr { } wdr "WDR" [],
                words 1, clocks (1, 1, 1, 1), fixed 0xFFFF_0000 is 0x95A8_0000;
        }
    };
}
