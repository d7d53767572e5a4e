// The memory of the states met. It keeps each state as one number, its key, and finds one by the links of its key's slot. Its callers
// know no key: they give and get allocation states.
ghost use Rattle.std.specs.Prelude.{◌≡◌, ◌<◌, ◌≤◌, ◌++◌, ◌∷◌, [], List, length, get_or, MatchOption, MatchResult};
ghost use Rattle.convention.specs.declared.Allocation.{Allocation as AllocationOf};
ghost use Rattle.convention.specs.Numbers.{state_limit};
ghost use Rattle.convention.specs.Built.{first_allocation};
ghost use Rattle.stepping.specs.Sets.{set_of};
ghost use Rattle.building.specs.Keys.{set_number, state_of, states_of, key_limit, KeyIs};
ghost use Rattle.building.specs.Links.{slot_count, slot_of, Linked};
ghost use Rattle.building.specs.Holding.{place_of, met_with, Finds, Meets, TooMany};

use convention::{Allocation, Refusal, STATE_LIMIT};
use std::marker::Model;

// How many slots there are: `slot_count`.
const SLOTS: usize = 512;

// What a key is multiplied by, so that keys that are alike mostly have different slots; and what the product is divided by, so
// that its low bits, which tell least, fall away.
const SPREAD: u64 = 0x9e37_79b9;

const SPREAD_LOW: u64 = 0x80_0000;

// The number of a set of registers, from the last register down; by an index, since the proof over `flags.iter().rev()` did not close.
#[tactic(auto, using(crate::proofs::Keyed::number_begin))]
pub(crate) fn set_number(flags: [bool; 16]) -> u32
    ensures value { result ≡ set_number flags }
    ensures upper_bound { result < 65536 }
{
    let mut number: u32 = 0;
    for i in (0..16).rev() {
        number = 2 * number + flags[i] as u32;
    }
    number
}

// The set of registers that has a number.
#[tactic(auto, using(crate::proofs::Keyed::set_on, crate::proofs::Keyed::set_end))]
pub(crate) fn set_of(number: u32) -> [bool; 16]
    ensures { result ≡ set_of 16 number }
{
    let mut flags = [false; 16];
    let mut rest = number;
    for flag in flags.iter_mut() {
        *flag = rest % 2 == 1;
        rest /= 2;
    }
    flags
}

// The key of an allocation state. It and the way back are functions and no `From`: a key is known to this file alone, and an
// allocation state is no type of this crate.
#[tactic(auto, using(crate::proofs::Keyed::key_is))]
fn key_of(a: Allocation) -> u32
    ensures { KeyIs result a }
{
    set_number(a.unavailable) + 0x10000 * a.remainder as u32
}

// The allocation state that has a key.
fn state_of(key: u32) -> Allocation
    ensures { result ≡ state_of key }
{
    Allocation {
        unavailable: set_of(key % 0x10000),
        remainder: (key / 0x10000 % 0x100) as u8,
    }
}

// The slot of a key. Nothing but speed rests on which it is.
#[tactic(auto, unfolding(crate::specs::Links::slot_of))]
fn slot_of(key: u32) -> usize
    ensures value { result ≡ slot_of key }
    ensures upper_bound { result < slot_count }
{
    (key as u64 * SPREAD / SPREAD_LOW % SLOTS as u64) as usize
}

// The states that were met, in the order of meeting: as many as a table may have, at most. Arrays and no map, as the project uses
// no heap; and no `Exploration`, whose nodes are numbers below a limit, where a state has 32 bits.
#[derive(Drop)]
pub(crate) struct States {
    keys: [u32; STATE_LIMIT],
    // Of each state, the one met before it with its slot: its number plus 1, or 0 where there is none. An `Option<u16>` would take
    // twice the bytes.
    links: [u16; STATE_LIMIT],
    // Of each slot, the last state met that has it, in the same way.
    slots: [u16; SLOTS],
    count: u16,
}

// Clauses see the allocation states, in that order.
impl Model for States {
    ghost Value = { List AllocationOf };

    ghost view = { λ s. states_of s.keys s.count };

    ghost invariant = { λ s. Linked s.keys s.links s.slots s.count };
}

impl States {
    // None yet.
    pub(crate) fn new() -> Self
        ensures { result ≡ [] }
    {
        States {
            keys: [0; STATE_LIMIT],
            links: [0; STATE_LIMIT],
            slots: [0; SLOTS],
            count: 0,
        }
    }

    // How many there are.
    pub(crate) fn count(&self) -> u16
        ensures value { result ≡ length self.now }
        ensures few { length self.now ≤ state_limit }
    {
        self.count
    }

    // State i, where there is one.
    pub(crate) fn state(&self, i: u16) -> Option<Allocation>
        ensures few { length self.now ≤ state_limit }
        ensures value { MatchOption result (length self.now ≤ i) (λ a. (i < length self.now) × (a ≡ get_or self.now i first_allocation)) }
    {
        if self.count <= i {
            return None;
        }
        Some(state_of(self.keys[i as usize]))
    }

    // The number of the state that has a key, where one does.
    fn find(&self, key: u32) -> Option<u16>
        requires { key < key_limit }
        ensures { MatchOption result (place_of self.now (state_of key) ≡ length self.now) (λ number. Finds self.now (state_of key) number) }
    {
        let mut link = self.slots[slot_of(key)];
        // A `while`: it follows links and counts nothing.
        while let Some(number) = link.checked_sub(1) {
            if self.keys[number as usize] == key {
                return Some(number);
            }
            link = self.links[number as usize];
        }
        None
    }

    // Keeps a key that no state has after the others, as the last of its slot, if there is room for one more.
    fn keep(&mut self, key: u32) -> Result<u16, Refusal>
        requires small { key < key_limit }
        requires new { place_of self.old (state_of key) ≡ length self.old }
        ensures { MatchResult result (λ number. Meets self.old (state_of key) number self.new) (λ refusal. TooMany (met_with self.old (state_of key)) refusal) }
    {
        let number = self.count;
        if number as usize == STATE_LIMIT {
            return Err(Refusal::States);
        }
        let slot = slot_of(key);
        self.keys[number as usize] = key;
        self.links[number as usize] = self.slots[slot];
        self.slots[slot] = number + 1;
        self.count = number + 1;
        Ok(number)
    }

    // A state met, and its number: it is kept after the others if it is new and there is room for it. Inline, so that its flags
    // need no memory on the way from a step's bits to a key: out of line building takes twice as long.
    #[inline]
    #[tactic(auto, using(crate::proofs::Keeping::meets_known))]
    pub(crate) fn meet(&mut self, a: Allocation) -> Result<u16, Refusal>
        ensures { MatchResult result (λ number. Meets self.old a number self.new) (λ refusal. TooMany (met_with self.old a) refusal) }
    {
        let key = key_of(a);
        match self.find(key) {
            Some(number) => Ok(number),
            None => self.keep(key),
        }
    }
}
