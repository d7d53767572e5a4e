// One step of a walk that watches one register, or nothing where that is `None`: a node is a state and whether what is watched was given,
// 2 * state + 1 or 2 * state.
ghost use Rattle.std.specs.Prelude.{◌≡◌, ◌<◌, Some};
ghost use Rattle.convention.specs.declared.Reg.{Reg as Register};
ghost use Rattle.convention.specs.Results.{fault_of};
ghost use Rattle.judging.specs.Watched.{node_of, watched_bits, gives_watched, watched_fault};
ghost use Rattle.judging.specs.Searched.{WatchedStepIs};

use convention::{Fault, Reg};
use walking::Step;

// What a walk watches: one of the sixteen registers, or nothing.
#[derive(Clone, Copy)]
pub(crate) struct Watching {
    pub(crate) watch: Option<Reg>,
    pub(crate) ghost below: { (r : Register) → watch ≡ Some r → r.0 < 16 },
}

impl Watching {
    // The set of what is watched, a bit for each register.
    #[tactic(auto, unfolding(crate::specs::Watched::watched_bits))]
    fn set(self) -> u32
        ensures { result ≡ watched_bits self.watch }
    {
        match self.watch {
            Some(r) => stepping::run(r, 1),
            None => 0,
        }
    }
}

// Whether a step gives what is watched.
fn gives(step: Step, watching: Watching) -> bool
    ensures { result ≡ gives_watched step.x watching.watch }
{
    step.give(0) & watching.set() != 0
}

// Checks a step as far as what is watched tells: fault 2 where that is given once more, and else that of a step before which
// nothing was given.
#[tactic(auto, using(crate::proofs::Stepping::fault_again, crate::proofs::Stepping::fault_else))]
fn check_watched(step: Step, again: bool) -> Result<(), Fault>
    ensures { fault_of result ≡ watched_fault step.head step.shape step.x again }
{
    if again {
        return Err(Fault::GivenTwice);
    }
    step.check(0)
}

// The node of a state: one number, by which an exploration keeps it, and no struct with a `From`, as an entry has two bytes for it.
// `search` takes it apart again.
fn node_of(state: u16, given: bool) -> usize
    ensures { result ≡ node_of state given }
{
    2 * state as usize + given as usize
}

// Takes a step, where what is watched was given before it or was not: its fault, or the node after it.
pub(crate) fn take(step: Step, watching: Watching, given: bool) -> Result<usize, Fault>
    ensures { WatchedStepIs step watching.watch given result }
{
    let here = gives(step, watching);
    check_watched(step, given & here)?;
    Ok(node_of(step.x.next, given | here))
}
