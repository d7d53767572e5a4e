// Placing by a table: one step with its fault, then a list. Document 01, 'Placing by a table'.
#![tactic(auto)]

mod step;

ghost use Rattle.std.specs.Prelude.{◌≡◌, length};
ghost use Rattle.convention.specs.Numbers.{state_limit, argument_limit};
ghost use Rattle.convention.specs.Results.{fault_of, placing_answer};
ghost use Rattle.convention.specs.Lists.{fault_from, unknown_at};
ghost use Rattle.convention.specs.Walked.{by_table, place_by_table, table_memory, walk_begin};
ghost use Rattle.walking.specs.TableSteps.{as_table};
ghost use Rattle.walking.specs.Steps.{ArgumentAsks, ArgumentIs};

pub use crate::step::{Step, give};
use convention::{Fault, Offset, Placed, RECORD_LENGTH, Unplaced};
use stepping::Placer;
use table::ReadTable;

// How far placing by a table has come: the state, the registers that were given, a bit for each, and p.
#[derive(Clone, Copy)]
struct TableAt {
    state: u16,
    given: u32,
    p: Offset,
}

// State 0, no register given, and p = 0.
#[tactic(auto, using(stepping::proofs::Sets::set_none))]
fn begin() -> TableAt
    ensures { as_table result ≡ walk_begin }
{
    TableAt {
        state: 0,
        given: 0,
        p: Offset(0),
    }
}

// Places one argument, by its step: the step's fault, or how far placing has come after it. Its record is made from byte `at` on,
// where its step has no fault.
fn argument(step: Step, s: TableAt, records: &mut [u8], at: usize) -> Result<TableAt, Fault>
    requires { ArgumentAsks step (as_table s) records.old at }
    ensures { ArgumentIs step (as_table s) records.old at result records.new }
{
    step.check(s.given)?;
    let found = step.place(s.p);
    stepping::write_record(found, records, at);
    let given = stepping::place_taken(found, s.given);
    let p = stepping::place_p(found, s.p);
    Ok(TableAt {
        state: step.x.next,
        given,
        p,
    })
}

// A table that was read, which places lists. It is a type of its own, since an impl of another crate's trait has to be for one.
#[derive(Drop)]
pub struct TablePlacer<'t>(pub ReadTable<'t>);

impl Placer for TablePlacer<'_> {
    ghost kind_count = { λ placer. placer.0.table.head.kinds };

    ghost way = { λ placer. by_table placer.0.table placer.0.bytes.now };

    fn kinds(&self) -> u8 {
        self.0.table.head.kinds
    }

    #[tactic(auto, using(crate::proofs::Lists::standing_begin, crate::proofs::Lists::next_inside, crate::proofs::Lists::next_room))]
    fn walk(&self, list: &[u8], records: &mut [u8]) -> Result<Offset, Unplaced> {
        // The walk has a copy of the table: through the reference its head was read anew after each record.
        let table = self.0;
        let mut s = begin();
        for (i, &k) in list.iter().enumerate() {
            let step = Step::of(&table, s.state, k);
            let at = RECORD_LENGTH * i;
            s = argument(step, s, records, at).map_err(|fault| Unplaced::Faulty(i, fault))?;
        }
        Ok(s.p)
    }
}

// Checks a list of known kinds, of any length: its fault is that of its first faulty step. No fault depends on p, so the state
// and the given registers are enough; it is a loop of its own beside `walk`, which makes records and takes no list of any length.
#[tactic(auto, using(crate::proofs::Faulting::faulting_begin, crate::proofs::Faulting::faulting_inside, crate::proofs::Faulting::faulting_on, crate::proofs::Faulting::faulting_end))]
pub fn list_fault(table: &ReadTable<'_>, list: &[u8]) -> Result<(), Fault>
    requires { unknown_at table.now.table.head.kinds list.now ≡ length list.now }
    ensures { fault_of result ≡ fault_from (by_table table.now.table table.now.bytes.now) walk_begin list.now }
{
    let mut state: u16 = 0;
    let mut given: u32 = 0;
    for &k in list {
        let step = Step::of(table, state, k);
        step.check(given)?;
        given = step.give(given);
        state = step.x.next;
    }
    Ok(())
}

// Places a list of kinds by a table: the records in the first bytes of `out`, or a refusal that writes nothing.
#[tactic(auto, using(crate::proofs::Calls::refused_answer))]
pub fn place_by_table(t: &[u8], list: &[u8], out: &mut [u8]) -> Result<Placed, Unplaced>
    ensures value { placing_answer result ≡ place_by_table state_limit argument_limit t.now list.now (length out.old) }
    ensures out_after { out.new ≡ table_memory state_limit argument_limit t.now list.now out.old }
{
    let table = TablePlacer(ReadTable::read(t)?);
    stepping::place_list(&table, list, out)
}
