// The certificate of a table: whether it is clean, and which registers no list gives twice. It is found by sets: for each state
// one that holds every register which may be given there, with a mark that the state is reached. They are filled, and then
// checked transition by transition: only the check is relied on. See specs/Certified.antt for what it finds, and
// proofs/Certified.antt for what that says of lists.
#![tactic(auto)]

mod checks;
mod filling;

ghost use Rattle.std.specs.Prelude.{◌≡◌};
ghost use Rattle.certifying.specs.Certified.{is_reached, is_clean, twice_of, Certified, CertificateIs};

use crate::checks::Checks;
use crate::filling::Filling;
use convention::STATE_LIMIT;
use table::ReadTable;

// The mark that a state is reached, above the sixteen registers of its set: `reached_mark`. It is a bit of the set and no flag or
// `Option` beside it, as specs/Certified.antt has it (`is_reached`).
pub(crate) const REACHED: u32 = 0x1_0000;

// The set of all sixteen registers.
const EACH_REGISTER: u32 = 0xFFFF;

// Whether the state of a set is reached.
fn is_reached(set: u32) -> bool
    ensures { result ≡ is_reached set }
{
    set & REACHED == REACHED
}

// Checks the sets of a table: state 0 must be reached.
#[tactic(auto, using(crate::proofs::Checking::states_on))]
fn check_states(table: &ReadTable<'_>, sets: &[u32; STATE_LIMIT]) -> Checks
    ensures { Certified table.now.table table.now.bytes.now sets.now result }
{
    let mut found = Checks {
        closed: is_reached(sets[0]),
        clean: true,
        twice: 0,
    };
    for state in 0..table.table.states {
        found.check_state(table, sets, state);
    }
    found
}

// What is known of a table. `None` says that it is clean: no list of its kinds has a fault, and none gives a register twice.
// Otherwise it is a set of registers, a bit for each of the sixteen, and a register that is not in it is given twice by no list.
// Nothing is said then of a register that is in it, nor whether the table is clean.
// Out of line, so that its sets and the search's entries are not on the stack at once.
#[inline(never)]
#[tactic(auto, using(crate::proofs::Certified::certificate_open, crate::proofs::Certified::certificate_clean, crate::proofs::Certified::certificate_found))]
pub fn certify(table: &ReadTable<'_>) -> Option<u32>
    ensures { CertificateIs table.now.table table.now.bytes.now (is_clean result) (twice_of result) }
{
    let mut filling = Filling::new();
    filling.fill(table);
    let found = check_states(table, &filling.sets);
    if !found.closed {
        return Some(EACH_REGISTER);
    }
    if found.clean & (found.twice == 0) {
        return None;
    }
    Some(found.twice)
}
