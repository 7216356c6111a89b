//! The facts of one program counter, and what they make of an instance.

ghost use Rattle.std.specs.Prelude.{◌≡◌, ◌<◌, ◌≤◌, ◌+◌, ℕ, List, [], ◌∷◌, ◌++◌, length, slice_set, slice_index_or, IfOk, OnOk};
ghost use Rattle.uz_schedule.specs.Ends.{Ends, whole_byte, whole_pair};
ghost use Rattle.uz_schedule.specs.declared.facts.Val.TheVariants.{Range};
ghost use Rattle.uz_search.specs.Widenings.{widened_all};
ghost use Rattle.uz_search.specs.Places.{AreBytes, IsTold, chains_with, folded, folded_value, told};

use crate::chain::Chain;
use crate::place::{PAIRS, REGISTERS, told_of};
use crate::widening::Widening;
use std::alloc::{AllocError, Global};
use std::marker::Model;
use uz_schedule::{Instance, Span, Val, Wide};

/// The facts of one program counter, in the order of their hints. They are made from the last one to the first.
#[derive(Drop)]
pub struct Facts {
    /// The facts as they were written, the last one first.
    facts: Vec<Widening>,
    /// Those of each place.
    chains: Vec<Chain>,
}

impl Model for Facts {
    ghost use Rattle.std.specs.Prelude.{List, reverse};
    ghost use Rattle.uz_search.specs.declared.widening.Widening.{Widening};

    ghost Value = { List Widening };

    ghost use Rattle.uz_search.specs.Places.{AreChains};

    ghost view = { λ f. reverse f.facts.items };

    ghost invariant = { λ f. AreChains (reverse f.facts.items) f.chains.items };
}

/// No fact of any place.
fn empty_chains(alloc: Global) -> Result<Vec<Chain>, AllocError>
    ensures count { IfOk result (λ v. length v.items ≡ 35) }
    ensures none { IfOk result (λ v. (q : ℕ) → slice_index_or v.items q [] ≡ []) }
{
    let mut chains = Vec::new(alloc);
    for place in 0..REGISTERS + PAIRS {
        let _ = place;
        chains.push(Chain::new(alloc))?;
    }
    Ok(chains)
}

/// Puts a fact before all others of its place.
fn put_at(chains: &mut [Chain], place: usize, range: Wide) -> Result<(), AllocError>
    requires { place < length chains.old }
    ensures { OnOk result (chains.new ≡ slice_set chains.old place (range ∷ slice_index_or chains.old place [])) }
{
    let chain = &mut chains[place];
    chain.put_first(range)?;
    Ok(())
}

/// The facts of each place, with one more before those of its place.
fn with_range(mut chains: Vec<Chain>, fact: &Widening) -> Result<Vec<Chain>, AllocError>
    requires { length chains.items ≡ 35 }
    ensures chains { IfOk result (λ v. v.items ≡ chains_with (told fact.now) chains.items) }
    ensures told { IfOk result (λ v. IsTold (told fact.now)) }
{
    if let Some((place, range)) = told_of(fact) {
        put_at(chains.as_mut_slice(), place, range)?;
    }
    Ok(chains)
}

/// Facts, with one more at their end.
fn with_fact(mut facts: Vec<Widening>, fact: Widening) -> Result<Vec<Widening>, AllocError>
    ensures { IfOk result (λ v. v.items ≡ facts.items ++ fact ∷ []) }
{
    facts.push(fact)?;
    Ok(facts)
}

/// What a register's value becomes by the facts of it. Interrupted values stay.
fn value_after(chain: &Chain, value: Val) -> Val
    requires { AreBytes chain.now }
    ensures { result ≡ folded_value chain.now value }
{
    match value {
        Val::Range(range) => {
            let end = chain.end(Wide::between(u16::from(range.lo()), u16::from(range.hi())));
            Val::Range(Span::between(end.lo() as u8, end.hi() as u8))
        }
        Val::Old(register) => Val::Old(register),
        Val::OldFlags => Val::OldFlags,
    }
}

/// Widens each register by the facts of it.
fn widen_registers(chains: &[Chain], registers: &mut [Val; 32])
    requires count { length chains.now ≡ 35 }
    requires bytes { (q : ℕ) → q < 32 → AreBytes (slice_index_or chains.now q []) }
    ensures before { length registers.old ≡ 32 }
    ensures after { length registers.new ≡ 32 }
    ensures each { (q : ℕ) → q < 32 → slice_index_or registers.new q (Range whole_byte)
        ≡ folded_value (slice_index_or chains.now q []) (slice_index_or registers.old q (Range whole_byte)) }
{
    'each: for register in 0..REGISTERS {
        let chain = &chains[register];
        registers[register] = value_after(chain, registers[register]);
    }
}

/// Widens each pair by the facts of it.
fn widen_pairs(chains: &[Chain], pairs: &mut [Wide; 3])
    requires { length chains.now ≡ 35 }
    ensures before { length pairs.old ≡ 3 }
    ensures after { length pairs.new ≡ 3 }
    ensures each { (k : ℕ) → k < 3 → slice_index_or pairs.new k whole_pair
        ≡ folded (slice_index_or chains.now (32 + k) []) (slice_index_or pairs.old k whole_pair) }
{
    'each: for pair in 0..PAIRS {
        let chain = &chains[REGISTERS + pair];
        pairs[pair] = chain.end(pairs[pair]);
    }
}

impl Facts {
    /// No fact.
    pub fn new(alloc: Global) -> Result<Self, AllocError>
        ensures { IfOk result (λ facts. facts ≡ []) }
    {
        let chains = empty_chains(alloc)?;
        Ok(Facts {
            facts: Vec::new(alloc),
            chains,
        })
    }

    /// These facts after one that is written before them.
    pub fn with_first(self, fact: Widening) -> Result<Self, AllocError>
        ensures { IfOk result (λ facts. facts ≡ fact ∷ self) }
    {
        let Facts { facts, chains } = self;
        let chains = with_range(chains, &fact)?;
        let facts = with_fact(facts, fact)?;
        Ok(Facts { facts, chains })
    }

    /// Widens an instance by the facts, in their order. Each place is looked up once, however many facts there are.
    pub fn widen(&self, at: &mut Instance)
        ensures { at.new ≡ widened_all self.now at.old }
    {
        let chains = self.chains.as_slice();
        widen_registers(chains, &mut at.regs);
        widen_pairs(chains, &mut at.pairs);
    }
}
