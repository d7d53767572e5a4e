// The check of the sets, transition by transition: what is found of them is collected, and nothing that was found is lost.
ghost use Rattle.std.specs.Prelude.{◌≡◌, ◌<◌};
ghost use Rattle.certifying.specs.Checked.{TransitionIs, StateIs};

use crate::is_reached;
use convention::STATE_LIMIT;
use table::ReadTable;
use walking::Step;

// What the transitions that were checked say: whether the sets are closed, whether none has a fault by itself, and the
// registers that one gives at a state whose set has them. They are found side by side, and none stands for another: no `Option`.
#[derive(Clone, Copy)]
pub(crate) struct Checks {
    pub(crate) closed: bool,
    pub(crate) clean: bool,
    pub(crate) twice: u32,
}

impl Checks {
    // Checks a step from a state with the set `here` to one with the set `next`. Where it has no fault by itself, the next state
    // must be reached, and its set have what is given after it where all of `here` was before.
    fn check(&mut self, step: Step, here: u32, next: u32)
        ensures { TransitionIs step here next self.old self.new }
    {
        let clean = step.check(0).is_ok();
        let gives = step.give(0);
        let after = step.give(here);
        let reached = is_reached(next);
        self.closed &= !clean | (reached & (next & after == after));
        self.clean &= clean;
        self.twice |= here & gives;
    }

    // Checks the transitions of a state, where it is reached.
    pub(crate) fn check_state(
        &mut self,
        table: &ReadTable<'_>,
        sets: &[u32; STATE_LIMIT],
        state: u16,
    )
        requires { state < table.now.table.states }
        ensures { StateIs table.now.table table.now.bytes.now sets.now state self.old self.new }
    {
        let here = sets[state as usize];
        if !is_reached(here) {
            return;
        }
        for k in 0..table.table.head.kinds {
            let step = Step::of(table, state, k);
            let next = sets[step.x.next as usize];
            self.check(step, here, next);
        }
    }
}
