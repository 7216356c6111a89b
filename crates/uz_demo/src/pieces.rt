//! The lines of the sample console, cut at what differs from one demo to another.

/// Names of RAM bytes.
pub(crate) const NAMES: [&[u8]; 3] = [
    b".equ line = 0x100",
    b".equ tone = 0x101",
    b".equ pad = 0x102",
];

/// The other hints, and the vectors of reset and of timer 1.
pub(crate) const HINTS: [&[u8]; 7] = [
    b".stack 0x10C0, 0x10FF, 8, 16",
    b".cell line, handler, 0, 38, 0",
    b".start main, loop",
    b".org 0",
    b"  jmp reset",
    b".org 0x34",
    b"  jmp handler",
];

/// Reset: the stack, the ports, and timer 1 with a match every scanline.
pub(crate) const RESET: [&[u8]; 19] = [
    b"reset: ldi r16,16",
    b"  out SPH,r16",
    b"  ldi r16,255",
    b"  out SPL,r16",
    b"  out DDRC,r16",
    b"  ldi r16,1",
    b"  out DDRB,r16",
    b"  out PORTB,r16",
    b"  ldi r16,12",
    b"  out DDRA,r16",
    b"  ldi r16,7",
    b"  sts OCR1AH,r16",
    b"  ldi r16,27",
    b"  sts OCR1AL,r16",
    b"  ldi r16,2",
    b"  sts TIMSK1,r16",
    b"  ldi r16,9",
    b"  sts TCCR1B,r16",
    b"  sei",
];

/// Main: the pads are read again and again.
pub(crate) const MAIN_LOOP: [&[u8]; 14] = [
    b"loop: sbi PORTA,2",
    b"  cbi PORTA,2",
    b"  ldi r18,16",
    b"bit: in r19,PINA",
    b"  lsr r19",
    b"  ror r21",
    b"  ror r20",
    b"  sbi PORTA,3",
    b"  cbi PORTA,3",
    b"  dec r18",
    b"  brne bit",
    b"  sts pad,r20",
    b"  sts pad+1,r21",
    b"  rjmp loop",
];

/// The handler: the jitter is removed, sync falls, and a sound is made.
pub(crate) const HANDLER: [&[u8]; 17] = [
    b"handler: push r31",
    b"  push r30",
    b"  in r30,SREG",
    b"  push r30",
    b"  lds r30,TCNT1L",
    b"  subi r30,15",
    b"  cpi r30,1",
    b"  brlo .",
    b"  cpi r30,2",
    b"  brlo .",
    b"  cpi r30,3",
    b"  brlo .",
    b"  cbi PORTB,0",
    b"  lds r30,tone",
    b"  subi r30,249",
    b"  sts tone,r30",
    b"  sts OCR2A,r30",
];

/// A line that shows nothing.
pub(crate) const BLANK: [&[u8]; 25] = [
    b"  lds r30,line",
    b"  cpi r30,3",
    b"  brlo broad",
    b"  ldi r31,40",
    b"w1: dec r31",
    b"  brne w1",
    b"  nop",
    b"  sbi PORTB,0",
    b"  cpi r30,38",
    b"  brsh draw",
    b"done: inc r30",
    b"  sts line,r30",
    b"leave: pop r30",
    b"  out SREG,r30",
    b"  pop r30",
    b"  pop r31",
    b"  reti",
    b"broad: ldi r31,250",
    b"w2: dec r31",
    b"  brne w2",
    b"  ldi r31,250",
    b"w3: dec r31",
    b"  brne w3",
    b"  sbi PORTB,0",
    b"  rjmp done",
];

/// The picture begins: r30 counts its lines down.
pub(crate) const DRAW: [&[u8]; 1] = [b"draw: push r29"];

/// A line of the picture, up to its pixels.
pub(crate) const ROW: [&[u8]; 5] = [
    b"  rjmp .",
    b"row: mov r29,r30",
    b"  ldi r31,75",
    b"w4: dec r31",
    b"  brne w4",
];

/// Its pixels, 11 clocks apart.
pub(crate) const PIX: [&[u8]; 11] = [
    b"pix: out PORTC,r29",
    b"  inc r29",
    b"  rjmp .",
    b"  rjmp .",
    b"  rjmp .",
    b"  dec r31",
    b"  brne pix",
    b"  ldi r29,0",
    b"  out PORTC,r29",
    b"  dec r30",
    b"  breq drawn",
];

/// The next line begins.
pub(crate) const NEXT_ROW: [&[u8]; 15] = [
    b"  cbi PORTB,0",
    b"  lds r29,tone",
    b"  subi r29,249",
    b"  sts tone,r29",
    b"  sts OCR2A,r29",
    b"  ldi r31,41",
    b"w6: dec r31",
    b"  brne w6",
    b"  rjmp .",
    b"  sbi PORTB,0",
    b"  ldi r31,2",
    b"  out TIFR1,r31",
    b"  rjmp .",
    b"  rjmp .",
    b"  rjmp row",
];

/// The last one is drawn.
pub(crate) const DRAWN: [&[u8]; 4] = [
    b"drawn: pop r29",
    b"  ldi r30,0",
    b"  sts line,r30",
    b"  rjmp leave",
];
