// Fills the sets of a certificate, from state 0 with nothing given on: what may be given at a state may be given at the next one,
// and so may what the transition gives. A state whose set grew waits until its transitions were gone through again, first in
// first out, and once nothing waits the sets are closed; where no transition has a fault by itself they are the least such
// sets. What they are is checked afterwards, so nothing is promised of them here but their number, which is in their type.
ghost use Rattle.std.specs.Prelude.{◌<◌};
ghost use Rattle.certifying.specs.Filled.{GrowAsks};

use crate::REACHED;
use convention::{STATE_LIMIT, Transition};
use table::ReadTable;

// The mark of a state that waits, above its set; below it are the registers and `REACHED`. A bit of the set and no flag beside it:
// each of a table's states would take eight bytes of stack in place of four.
const WAITS: u32 = 0x2_0000;

// How often a set can grow: by each of the sixteen registers, and by `REACHED`.
const GROWTHS: u16 = 17;

// The states that wait, in a ring with a place for each state of a table: `count` of them, from place `first` on. The project
// uses no heap, so it is no `VecDeque`.
#[derive(Drop)]
struct Waiting {
    ring: [u16; STATE_LIMIT],
    first: u16,
    count: u16,
}

impl Waiting {
    // Appends a state, where the ring has a place left. It has one for each state, and each waits once at most.
    fn push(&mut self, state: u16) {
        let count = self.count as usize;
        if count < STATE_LIMIT {
            self.ring[(self.first as usize + count) % STATE_LIMIT] = state;
            self.count += 1;
        }
    }

    // Takes out the state that waits longest.
    fn pop(&mut self) -> Option<u16> {
        if self.count == 0 {
            return None;
        }
        let at = self.first as usize % STATE_LIMIT;
        self.first = ((at + 1) % STATE_LIMIT) as u16;
        self.count -= 1;
        Some(self.ring[at])
    }
}

// The sets, one for each state that a table may have, and the states whose set grew.
#[derive(Drop)]
pub(crate) struct Filling {
    pub(crate) sets: [u32; STATE_LIMIT],
    waiting: Waiting,
}

impl Filling {
    // Empty sets, and nothing that waits.
    pub(crate) fn new() -> Filling {
        Filling {
            sets: [0; STATE_LIMIT],
            waiting: Waiting {
                ring: [0; STATE_LIMIT],
                first: 0,
                count: 0,
            },
        }
    }

    // Adds what may be given after a transition from a state with the set `here` to the next state's set. If that grew, the next
    // state waits. A transition without a place, whose form is 0 as the bytes say it, leads nowhere and adds nothing.
    fn grow(&mut self, x: Transition, here: u32)
        requires { GrowAsks x }
    {
        let next = x.next;
        let old = self.sets[next as usize];
        let new = old | walking::give(x, here);
        if (x.form == 0) | (new == old) {
            return;
        }
        self.sets[next as usize] = new | WAITS;
        if old & WAITS == 0 {
            self.waiting.push(next);
        }
    }

    // Goes through the transitions of a state that waited, which waits no longer.
    fn spread(&mut self, table: &ReadTable<'_>, state: u16)
        requires { state < table.now.table.states }
    {
        let here = self.sets[state as usize] & (WAITS - 1);
        self.sets[state as usize] = here;
        for k in 0..table.table.head.kinds {
            self.grow(table.transition(state, k), here);
        }
    }

    // Fills the sets of a table, which are empty before.
    pub(crate) fn fill(&mut self, table: &ReadTable<'_>) {
        self.sets[0] = REACHED | WAITS;
        self.waiting.push(0);
        for _ in 0..GROWTHS * STATE_LIMIT as u16 {
            let Some(state) = self.waiting.pop() else {
                return;
            };
            if state < table.table.states {
                self.spread(table, state);
            }
        }
    }
}
