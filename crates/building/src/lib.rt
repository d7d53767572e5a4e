// Building a sheet's table: one exploration of the allocation states decides it, rows and all, and then it is written. Document
// 01, 'The built table'.
#![tactic(auto)]

mod memory;
mod modulus;
mod writer;

ghost use Rattle.std.specs.Prelude.{◌≡◌, ◌+◌, ◌≤◌, length, MatchResult, unwrap_or};
ghost use Rattle.convention.specs.Numbers.{state_limit};
ghost use Rattle.convention.specs.Results.{building_answer};
ghost use Rattle.convention.specs.Bytes.{written};
ghost use Rattle.convention.specs.Layout.{table_length};
ghost use Rattle.convention.specs.Explored.{met as met_before};
ghost use Rattle.convention.specs.Rules.{place_fault};
ghost use Rattle.convention.specs.Built.{allocation as allocationOf, allocations, built_version, built_states, built_table, build as builds, build_memory, first_allocation};
ghost use Rattle.placing.specs.RulesSteps.{as_rules};
ghost use Rattle.building.specs.Deciding.{rows_most, DecidedIs, ManyStates, WriteAsks, BuildingIs};
ghost use Rattle.building.specs.Holding.{nodes, met_with, met_by, TooMany, LeadAsks, LeadIs, MeetsLed, PassAsks, Passes, PassKindsAsks, PassesKinds};

use crate::memory::States;
use crate::modulus::Modulus;
use crate::writer::{BuiltTable, ROWS_VERSION};
use convention::{
    Allocation, Built, Head, KIND_LIMIT, Offset, Placement, Refusal, STATE_LIMIT, Sheet, SheetKind,
};
use fields::layout;
use fields::layout::Layout;
use placing::{Rules, RulesAt};

// How many bytes a transition takes among the rows.
const CELL_BYTES: usize = 4;

// How many bytes the rows of as many states as a table may have take at most: `rows_most`.
pub const ROWS_MOST: usize = CELL_BYTES * KIND_LIMIT * STATE_LIMIT;

// The allocation state in which placing by the rules stands.
fn allocation(modulus: Modulus, s: RulesAt) -> Allocation
    ensures { result ≡ allocationOf modulus.a (as_rules s) }
{
    Allocation {
        unavailable: memory::set_of(s.unavailable),
        remainder: modulus.residue(s.p),
    }
}

// Where a kind leads from an allocation state: the place that the rules give, and the state after it.
#[derive(Clone, Copy)]
struct Led {
    place: Placement,
    next: Allocation,
}

// The rules' step from an allocation state, taken at p = its remainder.
fn lead(head: Head, kind: &SheetKind, a: Allocation) -> Led
    requires { LeadAsks head kind.now }
    ensures { LeadIs head kind.now a result.place result.next }
{
    let unavailable = memory::set_number(a.unavailable);
    let p = Offset(a.remainder as u32);
    let from = RulesAt { unavailable, p };
    let stepped = placing::step(head, kind, from);
    let modulus = Modulus { a: head.modulus };
    let next = allocation(modulus, stepped.next);
    Led {
        place: stepped.place,
        next,
    }
}

// The state after a place met, and its number. Where there is no place nothing is met.
fn meet_led(led: Led, states: &mut States) -> Result<Option<u16>, Refusal>
    ensures { MatchResult result (λ met. MeetsLed led.place led.next states.old (unwrap_or met 0) states.new) (λ refusal. (place_fault led.place ≡ 0) × TooMany (met_with states.old led.next) refusal) }
{
    match led.place {
        Placement::Nowhere => Ok(None),
        Placement::Registers(_, _) | Placement::Stack(_, _) => states.meet(led.next).map(Some),
    }
}

// Kind k gone through at a state: what it leads to is met, where it leads on, and its transition stands among the rows, from
// byte `at` on. (The states and the rows are lent side by side, since `decide` makes the one and is lent the other.)
fn pass(
    rules: &Rules,
    k: u8,
    a: Allocation,
    states: &mut States,
    rows: &mut [u8],
    at: usize,
) -> Result<(), Refusal>
    requires { PassAsks rules.now.sheet k rows.old at }
    ensures { MatchResult result (λ _. Passes rules.now.sheet k a states.old rows.old at states.new rows.new) (λ refusal. TooMany (met_by rules.now.sheet k a states.old) refusal) }
{
    let head = rules.sheet.head;
    let led = lead(head, &rules.sheet.kinds[k as usize], a);
    let met = meet_led(led, states)?;
    let modulus = Modulus { a: head.modulus };
    writer::write_made(modulus, led.place, met.unwrap_or(0), rows, at);
    Ok(())
}

// State i, which is `a`, gone through, in the order of the kinds, and its row made.
fn pass_kinds(
    rules: &Rules,
    i: u16,
    a: Allocation,
    states: &mut States,
    rows: &mut [u8],
) -> Result<(), Refusal>
    requires { PassKindsAsks rules.now.sheet i a states.old rows.old }
    ensures { MatchResult result (λ _. PassesKinds rules.now.sheet i rows.old states.new rows.new) (λ refusal. TooMany (nodes rules.now.sheet (met_before (allocations rules.now.sheet) (i + 1))) refusal) }
{
    let layout = Layout {
        version: ROWS_VERSION,
        head: rules.sheet.head,
    };
    let row = layout.rows_length(i);
    for k in 0..layout.head.kinds {
        let at = layout::in_row(layout.version, row, k);
        pass(rules, k, a, states, rows, at)?;
    }
    Ok(())
}

// State 0: 'the empty set with 0'.
fn first_state() -> Allocation
    ensures { result ≡ first_allocation }
{
    Allocation {
        unavailable: [false; 16],
        remainder: 0,
    }
}

// Decides the table of a sheet that was read: how many states it has, and its rows, which are then the first bytes of `rows`. The
// states are those that lists of kinds reach, in the order of meeting: each that was met is gone through, by its number. Where there
// are more than a table may have it refuses the sheet, and the rows say nothing.
pub fn decide(rules: &Rules, rows: &mut [u8]) -> Result<u16, Refusal>
    requires { rows_most ≤ length rows.old }
    ensures { MatchResult result (λ states. DecidedIs rules.now.sheet states rows.new) (λ refusal. ManyStates rules.now.sheet refusal) }
{
    let mut states = States::new();
    states.meet(first_state())?;
    for i in 0..STATE_LIMIT as u16 {
        let Some(a) = states.state(i) else {
            break;
        };
        pass_kinds(rules, i, a, &mut states, rows)?;
    }
    Ok(states.count())
}

// How long a sheet's table of so many states is.
pub fn table_length(sheet: Sheet, states: u16) -> usize
    ensures { result ≡ table_length (built_version sheet states) sheet.head states }
{
    BuiltTable::new(sheet, states).length()
}

// Writes the table that was decided, of so many states and with these rows, into the first bytes of `out`. The bytes behind it
// stay.
pub fn write(rules: &Rules, states: u16, rows: &[u8], out: &mut [u8])
    requires { WriteAsks rules.now.sheet states rows.now out.old }
    ensures { out.new ≡ written out.old 0 (built_table state_limit rules.now.sheet) }
{
    let table = BuiltTable::new(rules.sheet, states);
    table.write_front(out);
    table.write_rows(rows, out);
}

// Builds the table of a sheet that was read. It is written only where there are not too many states and it has room.
fn build_in(rules: &Rules, out: &mut [u8]) -> Result<Built, Refusal>
    ensures { BuildingIs rules.now.sheet out.old result out.new }
{
    let mut rows = [0u8; ROWS_MOST];
    let states = decide(rules, &mut rows)?;
    let length = table_length(rules.sheet, states);
    fields::check(length <= out.len(), Refusal::Room)?;
    write(rules, states, &rows, out);
    Ok(Built { states, length })
}

// Builds a sheet's table: N and the table's length, with the table in the first bytes of `out`, or a refusal that writes
// nothing. The contract gives the answer and the memory outright, so any two answers that it allows coincide.
pub fn build(sheet: &[u8], out: &mut [u8]) -> Result<Built, Refusal>
    ensures value { building_answer result ≡ builds state_limit sheet.now (length out.old) }
    ensures out_after { out.new ≡ build_memory state_limit sheet.now out.old }
{
    let rules = Rules::read(sheet)?;
    build_in(&rules, out)
}
