//! A turn's end: time moves on, the held stores act, and their edges are noted.

ghost use Rattle.std.specs.Prelude.{◌≡◌, ◌↔◌, ◌<◌, ◌≤◌, ◌+◌, ◌^◌, length, slice_index, option_to_list, ◌++◌, ◌∷◌, []};
ghost use Rattle.std.specs.Prelude.{IfSome, IsTrue, None, Some, false, if◌then◌else◌};
ghost use Rattle.uz_core.specs.declared.machine.HeldStore.TheVariants.{Bit};
ghost use Rattle.uz_core.specs.declared.machine.EdgeKind.TheVariants.{Leave};
ghost use Rattle.uz_core.specs.Space.{with_plain_byte, with_port_a, plain_byte, space_after, after_store};
ghost use Rattle.uz_core.specs.Space.{after_byte, is_store, is_pin, takes_one_bit, space_taken};
ghost use Rattle.uz_core.specs.Turn.{edge_kinds, address_of, after_stores, all_edge_kinds, edges_at};
ghost use Rattle.uz_pads.specs.Pads.{pads_wiring};
ghost use Rattle.uz_ports.specs.Boards.{space_of, held_of, entered_of, clock_of, entry_edge};
ghost use Rattle.uz_ports.specs.HeldStoreFits.{HeldStoreFits};

use crate::Board;
use arrayvec::ArrayVec;
use uz_core::address::{OCR2A, PINA, PINB, PINC, PIND, PORTA, PORTB, PORTC, RAM_END, TIFR1};
use uz_core::{Edge, EdgeKind, HeldStore, with_bit};
use uz_timer::Timer1;

impl Board {
    fn set_plain_byte(&mut self, at: u16, value: u8)
        requires { at < 4352 }
        ensures held { held_of self.new ≡ held_of self.old }
        ensures entered { entered_of self.new ≡ entered_of self.old }
        ensures clock { clock_of self.new ≡ clock_of self.old }
        ensures space { space_of self.new ≡ with_plain_byte at value (space_of self.old) }
    {
        self.bytes[at as usize] = value;
    }

    fn plain_byte(&self, at: u16) -> u8
        requires { at < 4352 }
        ensures { result ≡ plain_byte (space_of self.now) at }
    {
        let _sized = &self.bytes;
        self.bytes.as_slice()[at as usize]
    }

    fn set_port_a(&mut self, value: u8)
        ensures held { held_of self.new ≡ held_of self.old }
        ensures entered { entered_of self.new ≡ entered_of self.old }
        ensures clock { clock_of self.new ≡ clock_of self.old }
        ensures space { space_of self.new ≡ with_port_a pads_wiring value (space_of self.old) }
    {
        self.bytes[PORTA as usize] = value;
        self.pads.levels(value);
    }

    #[inline(always)]
    fn store_byte(&mut self, at: u16, value: u8)
        ensures held { held_of self.new ≡ held_of self.old }
        ensures entered { entered_of self.new ≡ entered_of self.old }
        ensures clock { clock_of self.new ≡ clock_of self.old }
        ensures space { space_of self.new ≡ after_byte pads_wiring at value (space_of self.old) }
    {
        if at == PINA {
            let new = self.plain_byte(PORTA) ^ value;
            self.set_port_a(new);
        } else if at == PORTA {
            self.set_port_a(value);
        } else if at == PINB || at == PINC || at == PIND {
            let new = self.plain_byte(at + 2) ^ value;
            self.set_plain_byte(at + 2, new);
        } else if Timer1::owns(at) {
            self.timer.write(at, value);
        } else if at <= RAM_END {
            self.set_plain_byte(at, value);
        }
    }

    #[inline(always)]
    fn store_bit(&mut self, at: u16, bit: u8, set: bool)
        requires { bit < 8 }
        ensures held { held_of self.new ≡ held_of self.old }
        ensures entered { entered_of self.new ≡ entered_of self.old }
        ensures clock { clock_of self.new ≡ clock_of self.old }
        ensures space { space_of self.new ≡ after_store pads_wiring (Bit at bit set) (space_of self.old) }
    {
        if takes_one_bit(at) {
            if set {
                self.store_byte(at, 1 << bit);
            }
        } else {
            let old = self.peek(at);
            let new = if set {
                old | 1 << bit
            } else {
                old & (255 - (1 << bit))
            };
            self.store_byte(at, new);
        }
    }

    #[inline(always)]
    fn make(&mut self, store: HeldStore)
        requires { HeldStoreFits store }
        ensures held { held_of self.new ≡ held_of self.old }
        ensures entered { entered_of self.new ≡ entered_of self.old }
        ensures clock { clock_of self.new ≡ clock_of self.old }
        ensures space { space_of self.new ≡ after_store pads_wiring store (space_of self.old) }
    {
        match store {
            HeldStore::Byte { at, value } => self.store_byte(at, value),
            HeldStore::Bit { at, bit, set } => self.store_bit(at, bit, set),
        }
    }

    /// Makes a store, and answers the edge that it gives.
    #[inline(always)]
    fn make_noted(&mut self, store: HeldStore) -> Option<EdgeKind>
        requires { HeldStoreFits store }
        ensures held { held_of self.new ≡ held_of self.old }
        ensures entered { entered_of self.new ≡ entered_of self.old }
        ensures clock { clock_of self.new ≡ clock_of self.old }
        ensures space { space_of self.new ≡ after_store pads_wiring store (space_of self.old) }
        ensures kinds { option_to_list result ≡ edge_kinds store (space_of self.old) (after_store pads_wiring store (space_of self.old)) }
    {
        let at = address_of(store);
        let is_store = is_store(store);
        let before = self.plain_byte(PORTB) % 2;
        self.make(store);
        let after = self.plain_byte(PORTB) % 2;
        if before != after {
            Some(EdgeKind::Sync(after))
        } else if is_store && (at == PORTC || at == PINC) {
            Some(EdgeKind::Pixel(self.plain_byte(PORTC)))
        } else if is_store && at == OCR2A {
            Some(EdgeKind::Sound(self.plain_byte(OCR2A)))
        } else {
            None
        }
    }

    /// Makes a store and answers the edge that it gives, as `make_noted` does: PORTC and the bits of PORTA first, which programs
    /// store most often.
    #[inline(always)]
    fn make_known(&mut self, store: HeldStore) -> Option<EdgeKind>
        requires { HeldStoreFits store }
        ensures held { held_of self.new ≡ held_of self.old }
        ensures entered { entered_of self.new ≡ entered_of self.old }
        ensures clock { clock_of self.new ≡ clock_of self.old }
        ensures space { space_of self.new ≡ after_store pads_wiring store (space_of self.old) }
        ensures kinds { option_to_list result ≡ edge_kinds store (space_of self.old) (after_store pads_wiring store (space_of self.old)) }
    {
        match store {
            HeldStore::Byte { at: PORTC, value } => {
                self.set_plain_byte(PORTC, value);
                Some(EdgeKind::Pixel(value))
            }
            HeldStore::Bit {
                at: PORTA,
                bit,
                set,
            } => {
                let new = with_bit(bit, set, self.plain_byte(PORTA));
                self.set_port_a(new);
                None
            }
            _ => self.make_other(store),
        }
    }

    /// A store of another kind. Kept apart, so that those that are made most often pay nothing for it.
    #[inline(never)]
    fn make_other(&mut self, store: HeldStore) -> Option<EdgeKind>
        requires { HeldStoreFits store }
        ensures held { held_of self.new ≡ held_of self.old }
        ensures entered { entered_of self.new ≡ entered_of self.old }
        ensures clock { clock_of self.new ≡ clock_of self.old }
        ensures space { space_of self.new ≡ after_store pads_wiring store (space_of self.old) }
        ensures kinds { option_to_list result ≡ edge_kinds store (space_of self.old) (after_store pads_wiring store (space_of self.old)) }
    {
        self.make_noted(store)
    }

    /// Ends a turn of one store that isn't held: time moves on, and the store acts. Answers its edge. Nothing may be held or noted.
    #[inline(always)]
    pub fn finish_with(&mut self, clocks: u8, store: HeldStore) -> Option<Edge>
        requires idle { (held_of self.old ≡ []) × (entered_of self.old ≡ None) }
        requires fits { HeldStoreFits store }
        requires clock { clock_of self.old < 2 ^ 62 }
        ensures space { space_of self.new ≡ after_stores pads_wiring (store ∷ []) (space_after clocks (space_of self.old)) }
        ensures idle { (held_of self.new ≡ []) × (entered_of self.new ≡ None) }
        ensures clock { clock_of self.new ≡ clock_of self.old + clocks }
        ensures edges { option_to_list result ≡ edges_at (clock_of self.old + clocks)
            (all_edge_kinds pads_wiring (store ∷ []) (space_after clocks (space_of self.old))) }
    {
        self.pass_many(u32::from(clocks));
        match self.make_known(store) {
            None => None,
            Some(kind) => Some(Edge {
                clock: self.clock,
                kind,
            }),
        }
    }

    /// Makes a store, if there is one.
    #[inline(always)]
    fn note(&mut self, store: Option<HeldStore>) -> Option<EdgeKind>
        requires { IfSome store HeldStoreFits }
        ensures held { held_of self.new ≡ held_of self.old }
        ensures entered { entered_of self.new ≡ entered_of self.old }
        ensures clock { clock_of self.new ≡ clock_of self.old }
        ensures space { space_of self.new ≡ after_stores pads_wiring (option_to_list store) (space_of self.old) }
        ensures kinds { option_to_list result ≡ all_edge_kinds pads_wiring (option_to_list store) (space_of self.old) }
    {
        match store {
            None => None,
            Some(store) => self.make_noted(store),
        }
    }

    /// The held stores, in order.
    fn held_stores(&self) -> (Option<HeldStore>, Option<HeldStore>)
        ensures items { held_of self.now ≡ option_to_list result.0 ++ option_to_list result.1 }
        ensures first { IfSome result.0 HeldStoreFits }
        ensures second { IfSome result.1 HeldStoreFits }
    {
        match self.held.as_slice() {
            [a, b, ..] => (Some(*a), Some(*b)),
            [a] => (Some(*a), None),
            [] => (None, None),
        }
    }

    /// Moves the timer and the clock on: the end of a turn that has neither stores nor edges. Nothing may be held or noted.
    pub fn pass(&mut self, clocks: u8)
        requires idle { (held_of self.old ≡ []) × (entered_of self.old ≡ None) }
        requires clock { clock_of self.old < 2 ^ 62 }
        ensures held { held_of self.new ≡ held_of self.old }
        ensures entered { entered_of self.new ≡ entered_of self.old }
        ensures clock { clock_of self.new ≡ clock_of self.old + clocks }
        ensures space { space_of self.new ≡ space_after clocks (space_of self.old) }
    {
        self.pass_many(u32::from(clocks));
    }

    /// Moves the timer and the clock on, by 2^30 clocks at most: the end of any number of turns in which nothing is stored or loaded.
    #[inline(always)]
    pub fn pass_many(&mut self, clocks: u32)
        requires clock { clock_of self.old < 2 ^ 62 }
        requires most { clocks ≤ 2 ^ 30 }
        ensures held { held_of self.new ≡ held_of self.old }
        ensures entered { entered_of self.new ≡ entered_of self.old }
        ensures clock { clock_of self.new ≡ clock_of self.old + clocks }
        ensures space { space_of self.new ≡ space_after clocks (space_of self.old) }
    {
        self.timer.pass(clocks);
        self.clock += u64::from(clocks);
    }

    /// Notes an interrupt that is taken now, with TCNT1, and clears OCF1A. None may be noted in this turn.
    pub fn enter(&mut self)
        requires { entered_of self.old ≡ None }
        ensures noted { entered_of self.new ≡ Some (space_of self.old).timer.count }
        ensures space { space_of self.new ≡ space_taken (space_of self.old) }
        ensures held { held_of self.new ≡ held_of self.old }
        ensures clock { clock_of self.new ≡ clock_of self.old }
    {
        self.entered = Some(self.timer.phase());
        self.timer.take();
    }

    /// Whether no store is held.
    pub fn holds_nothing(&self) -> bool
        ensures { IsTrue result ↔ (held_of self.now ≡ []) }
    {
        self.held.is_empty()
    }

    /// Whether a turn that ends now has neither stores nor edges: nothing is held or noted, and it is no RETI.
    pub fn is_quiet(&self, returned: bool) -> bool
        ensures { IsTrue result ↔ (held_of self.now ≡ []) × (entered_of self.now ≡ None) × (returned ≡ false) }
    {
        self.held.is_empty() && self.entered.is_none() && !returned
    }

    /// Moves time to the turn's end, makes the held stores in order, and gives the turn's edges in order: an interrupt
    /// that was noted at the clock when it was taken, then the stores' edges, and with `returned` (RETI) a leave.
    pub fn finish(&mut self, clocks: u8, returned: bool) -> ArrayVec<Edge, 4>
        requires { clock_of self.old < 2 ^ 62 }
        ensures space { space_of self.new ≡ after_stores pads_wiring (held_of self.old) (space_after clocks (space_of self.old)) }
        ensures idle { (held_of self.new ≡ []) × (entered_of self.new ≡ None) }
        ensures clock { clock_of self.new ≡ clock_of self.old + clocks }
        ensures edges { result.items ≡ entry_edge (clock_of self.old) (entered_of self.old) ++ edges_at (clock_of self.old + clocks)
            (all_edge_kinds pads_wiring (held_of self.old) (space_after clocks (space_of self.old)) ++
            (if returned then Leave ∷ [] else [])) }
    {
        if self.is_quiet(returned) {
            self.pass(clocks);
            return ArrayVec::new();
        }
        self.finish_stores(clocks, returned)
    }

    /// The store that is held, where it is the only one.
    fn one_store(&self) -> Option<HeldStore>
        ensures { IfSome result (λ store. (held_of self.now ≡ store ∷ []) × HeldStoreFits store) }
    {
        match self.held.as_slice() {
            [store] => Some(*store),
            _ => None,
        }
    }

    /// The end of a turn that holds one store.
    #[inline(always)]
    fn finish_one(&mut self, clocks: u8, store: HeldStore) -> Option<EdgeKind>
        requires one { held_of self.old ≡ store ∷ [] }
        requires fits { HeldStoreFits store }
        requires entered { entered_of self.old ≡ None }
        requires clock { clock_of self.old < 2 ^ 62 }
        ensures space { space_of self.new ≡ after_stores pads_wiring (store ∷ []) (space_after clocks (space_of self.old)) }
        ensures idle { (held_of self.new ≡ []) × (entered_of self.new ≡ None) }
        ensures clock { clock_of self.new ≡ clock_of self.old + clocks }
        ensures kinds { option_to_list result ≡ all_edge_kinds pads_wiring (store ∷ []) (space_after clocks (space_of self.old)) }
    {
        self.held = ArrayVec::new();
        self.pass(clocks);
        self.note(Some(store))
    }

    /// Ends a turn as `finish` does, with its edges in the caller's list in place of what is there. Most turns that aren't quiet have
    /// one store, and no list is moved for them.
    pub fn finish_into(&mut self, clocks: u8, returned: bool, edges: &mut ArrayVec<Edge, 4>)
        requires { clock_of self.old < 2 ^ 62 }
        ensures space { space_of self.new ≡ after_stores pads_wiring (held_of self.old) (space_after clocks (space_of self.old)) }
        ensures idle { (held_of self.new ≡ []) × (entered_of self.new ≡ None) }
        ensures clock { clock_of self.new ≡ clock_of self.old + clocks }
        ensures edges { edges.new.items ≡ entry_edge (clock_of self.old) (entered_of self.old) ++ edges_at
            (clock_of self.old + clocks) (all_edge_kinds pads_wiring (held_of self.old)
            (space_after clocks (space_of self.old)) ++ (if returned then Leave ∷ [] else [])) }
    {
        if !returned && self.entered.is_none() {
            if let Some(store) = self.one_store() {
                let kind = self.finish_one(clocks, store);
                edges.clear();
                if let Some(kind) = kind {
                    edges.push(Edge {
                        clock: self.clock,
                        kind,
                    });
                }
                return;
            }
        }
        self.finish_any(clocks, returned, edges);
    }

    /// Kept apart, so that turns with one store make no list.
    #[inline(never)]
    fn finish_any(&mut self, clocks: u8, returned: bool, edges: &mut ArrayVec<Edge, 4>)
        requires { clock_of self.old < 2 ^ 62 }
        ensures space { space_of self.new ≡ after_stores pads_wiring (held_of self.old) (space_after clocks (space_of self.old)) }
        ensures idle { (held_of self.new ≡ []) × (entered_of self.new ≡ None) }
        ensures clock { clock_of self.new ≡ clock_of self.old + clocks }
        ensures edges { edges.new.items ≡ entry_edge (clock_of self.old) (entered_of self.old) ++ edges_at
            (clock_of self.old + clocks) (all_edge_kinds pads_wiring (held_of self.old)
            (space_after clocks (space_of self.old)) ++ (if returned then Leave ∷ [] else [])) }
    {
        *edges = self.finish(clocks, returned);
    }

    #[tactic(auto, using(crate::proofs::Appended::appended))]
    fn finish_stores(&mut self, clocks: u8, returned: bool) -> ArrayVec<Edge, 4>
        requires { clock_of self.old < 2 ^ 62 }
        ensures space { space_of self.new ≡ after_stores pads_wiring (held_of self.old) (space_after clocks (space_of self.old)) }
        ensures idle { (held_of self.new ≡ []) × (entered_of self.new ≡ None) }
        ensures clock { clock_of self.new ≡ clock_of self.old + clocks }
        ensures edges { result.items ≡ entry_edge (clock_of self.old) (entered_of self.old) ++ edges_at (clock_of self.old + clocks)
            (all_edge_kinds pads_wiring (held_of self.old) (space_after clocks (space_of self.old)) ++
            (if returned then Leave ∷ [] else [])) }
    {
        let (first, second) = self.held_stores();
        let entered = self.entered;
        let start = self.clock;
        self.held = ArrayVec::new();
        self.entered = None;
        self.pass(clocks);
        let one = self.note(first);
        let two = self.note(second);
        gathered(entry(start, entered), self.clock, one, two, returned)
    }
}

fn takes_one_bit(at: u16) -> bool
    ensures { result ≡ takes_one_bit at }
{
    at == PINA || at == PINB || at == PINC || at == PIND || at == TIFR1
}

fn address_of(store: HeldStore) -> u16
    ensures { result ≡ address_of store }
{
    match store {
        HeldStore::Byte { at, value: _ } => at,
        HeldStore::Bit { at, bit: _, set: _ } => at,
    }
}

fn is_store(store: HeldStore) -> bool
    ensures { result ≡ is_store store }
{
    match store {
        HeldStore::Byte { at: _, value: _ } => true,
        HeldStore::Bit { at, bit: _, set } => set || !takes_one_bit(at),
    }
}

/// The edge of an interrupt that was taken.
fn entry(clock: u64, entered: Option<u16>) -> ArrayVec<Edge, 4>
    ensures edges { result.items ≡ entry_edge clock entered }
    ensures few { length result.items < 2 }
{
    let mut edges = ArrayVec::new();
    if let Some(count) = entered {
        edges.push(Edge {
            clock,
            kind: EdgeKind::Enter(count),
        });
    }
    edges
}

/// Adds the edges of a turn's end.
fn gathered(
    edges: ArrayVec<Edge, 4>,
    clock: u64,
    one: Option<EdgeKind>,
    two: Option<EdgeKind>,
    returned: bool,
) -> ArrayVec<Edge, 4>
    requires { length edges.items < 2 }
    ensures { result.items ≡ edges.items ++ edges_at clock
        (option_to_list one ++ option_to_list two ++ (if returned then Leave ∷ [] else [])) }
{
    let mut edges = edges;
    if let Some(kind) = one {
        edges.push(Edge { clock, kind });
    }
    if let Some(kind) = two {
        edges.push(Edge { clock, kind });
    }
    if returned {
        edges.push(Edge {
            clock,
            kind: EdgeKind::Leave,
        });
    }
    edges
}
