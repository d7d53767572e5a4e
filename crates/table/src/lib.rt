// Reads a table and hands out one row of it: document 01, 'Bytes of a sheet and of a table'. What is wrong is found first; the
// values are taken only from a table of which nothing is wrong. The rows stay where they are, in the caller's bytes.
#![tactic(auto)]

mod reading;

ghost use Rattle.std.specs.Prelude.{◌≡◌, ◌++◌, ◌+◌, ◌-◌, ◌*◌, ◌≤◌, length, drop, replicate};
ghost use Rattle.convention.specs.Numbers.{state_limit, or_else, unless};
ghost use Rattle.convention.specs.Results.{number_of, table_answer};
ghost use Rattle.convention.specs.Layout.{kinds_at, rows_at, transition_length, transition_at, table_length};
ghost use Rattle.convention.specs.Fields.{version_of, head_of, left_over_no};
ghost use Rattle.convention.specs.Sheets.{blank_shape};
ghost use Rattle.convention.specs.Tables.{table_kinds_no, table_kinds_of, states_of, states_no, transition_of, is_transition, transition_no, transitions_no, table_no, table_of, read_table, row_no};
ghost use Rattle.table.specs.Within.{KindsThere, TransitionsThere, TransitionThere};
ghost use Rattle.table.specs.Rows.{RowPart};

pub use crate::reading::ReadTable;
use convention::{Head, KIND_LIMIT, Refusal, STATE_LIMIT, Shape, Table, Transition};
use fields::layout::{A_AT, B_AT, FORM_AT, KINDS_AT, Layout, NEXT_AT};
use fields::{layout, shapes};

// How many transitions are gone through before it is asked whether one of them was wrong: `batch`. A table that is wrong early is
// refused early, and these few, of sixteen bytes, are checked side by side.
const BATCH: usize = 4;

// Checks the kinds, 5 or 3 for the first that is wrong or missing, in a table that is at least as long as its head. Each kind is
// parsed from the part of the table that starts at its first byte. Why the sheet reader has a loop of its own is said there.
fn check_kinds(layout: Layout, t: &[u8]) -> Result<(), Refusal>
    requires { kinds_at ≤ length t.now }
    ensures { number_of result ≡ table_kinds_no layout.version layout.head (drop kinds_at t.now) layout.head.kinds }
{
    let mut at = KINDS_AT;
    for _ in 0..layout.head.kinds {
        shapes::check_shape(layout, &t[at..])?;
        at += layout::shape_length(layout.version);
    }
    Ok(())
}

// The kinds of a table that holds them all, in an array of eight, as the project uses no heap; blank kinds stand in the places of
// those that it does not have. A sheet's kinds are another definition.
fn kinds_of(layout: Layout, t: &[u8]) -> [Shape; KIND_LIMIT]
    requires { KindsThere layout.version layout.head t.now }
    ensures { result ≡ table_kinds_of layout.version (drop kinds_at t.now) layout.head.kinds ++ replicate (8 - layout.head.kinds) blank_shape }
{
    let mut kinds = [shapes::blank_shape(); KIND_LIMIT];
    for i in 0..layout.head.kinds {
        let at = layout::table_kind_at(layout.version, i);
        kinds[i as usize] = shapes::read_shape(layout.version, t, at);
    }
    kinds
}

// The number of states, as its bytes say it, which are there.
fn states_of(t: &[u8]) -> u16
    requires { rows_at (version_of t.now) (head_of t.now) ≤ length t.now }
    ensures { result ≡ states_of t.now }
{
    let layout = Layout::of(t);
    fields::state_field(layout.version, t, layout.states_at())
}

// Number 4, or 3, for the number of states: 1 to `STATE_LIMIT`.
#[tactic(auto, using(convention::proofs::Results::tests))]
fn check_states(t: &[u8]) -> Result<(), Refusal>
    ensures { number_of result ≡ states_no state_limit t.now }
{
    let first = Layout::of(t).rows_at();
    fields::check(first <= t.len(), Refusal::Missing)?;
    let states = states_of(t);
    fields::check(
        (1 <= states) & (states as usize <= STATE_LIMIT),
        Refusal::Head,
    )
}

// The transition whose bytes, which are there, begin at byte `at`.
fn read_transition(version: u8, t: &[u8], at: usize) -> Transition
    requires { at + transition_length version ≤ length t.now }
    ensures { result ≡ transition_of version t.now at }
{
    Transition {
        form: t[at + FORM_AT],
        a: t[at + A_AT],
        b: t[at + B_AT],
        next: fields::state_field(version, t, at + NEXT_AT),
    }
}

// Whether a transition has the values that a table of this head and so many states allows. By the form's number, since a byte may
// say any. It asks for each form and never branches by it: forms come in no order that a processor could guess.
fn is_transition(head: Head, states: u16, x: Transition) -> bool
    ensures { result ≡ is_transition head states x }
{
    let none = (x.form == 0) & (x.a == 0) & (x.b == 0) & (x.next == 0);
    let registers = (x.form == 1) & (x.a as u16 + x.b as u16 <= head.registers as u16);
    let stack = (x.form == 2) & (x.a < head.modulus);
    none | ((registers | stack) & (x.next < states))
}

// The rows of a table of so many states, which may be missing or wrong; `bytes` are the whole table's.
// Its methods take it by value: behind a reference a table was read 9 % slower.
#[derive(Clone, Copy)]
struct TableRows<'t> {
    layout: Layout,
    states: u16,
    bytes: &'t [u8],
}

impl<'t> TableRows<'t> {
    // Whether the transition whose bytes, which are there, begin at byte `at`, is right.
    #[tactic(auto, unfolding(convention::specs::Tables::transition_no))]
    fn is_right(self, at: usize) -> bool
        requires { at + transition_length self.layout.version ≤ length self.bytes.now }
        ensures { unless result 7 ≡ transition_no self.entry.layout.version self.entry.layout.head self.entry.states self.entry.bytes.now at }
    {
        let x = read_transition(self.layout.version, self.bytes, at);
        is_transition(self.layout.head, self.states, x)
    }

    // Checks `count` transitions one after the other, from byte `first` on, whose bytes are all there. It goes through all of them,
    // also past one that is wrong, with no branch by what they are.
    fn check_batch(self, first: usize, count: usize) -> Result<(), Refusal>
        requires { first + transition_length self.layout.version * count ≤ length self.bytes.now }
        ensures { number_of result ≡ transitions_no self.entry.layout.version self.entry.layout.head self.entry.states self.entry.bytes.now first count }
    {
        let mut at = first;
        let mut right = true;
        for _ in 0..count {
            right &= self.is_right(at);
            at += layout::transition_length(self.layout.version);
        }
        fields::check(right, Refusal::Transition)
    }

    // Checks `count` transitions one after the other, from byte `first` on, whose bytes are all there, a batch at a time, and those
    // that are left over as a batch of their own. It goes no further than the batch of the first that is wrong.
    fn check_there(self, first: usize, count: usize) -> Result<(), Refusal>
        requires { first + transition_length self.layout.version * count ≤ length self.bytes.now }
        ensures { number_of result ≡ transitions_no self.entry.layout.version self.entry.layout.head self.entry.states self.entry.bytes.now first count }
    {
        let mut at = first;
        for _ in 0..count / BATCH {
            self.check_batch(at, BATCH)?;
            at += layout::transition_length(self.layout.version) * BATCH;
        }
        self.check_batch(at, count % BATCH)
    }

    // How many of `count` transitions from byte `first` on, which is no further than the table's end, have all their bytes there.
    fn transitions_there(self, first: usize, count: usize) -> usize
        requires { first ≤ length self.bytes.now }
        ensures { TransitionsThere self.entry.layout.version self.entry.bytes.now first count result }
    {
        let there = (self.bytes.len() - first) / layout::transition_length(self.layout.version);
        there.min(count)
    }

    // Checks `count` transitions one after the other, from byte `first` on: the first that is wrong or missing.
    fn check_transitions(self, first: usize, count: usize) -> Result<(), Refusal>
        requires { first ≤ length self.bytes.now }
        ensures { number_of result ≡ transitions_no self.entry.layout.version self.entry.layout.head self.entry.states self.entry.bytes.now first count }
    {
        let there = self.transitions_there(first, count);
        self.check_there(first, there)?;
        fields::check(count <= there, Refusal::Missing)
    }

    // Checks what stands after the number of states, which is there: the transitions, and then 6 for bytes left over.
    #[tactic(auto, using(convention::proofs::Results::tests))]
    fn check(self) -> Result<(), Refusal>
        requires { rows_at self.layout.version self.layout.head ≤ length self.bytes.now }
        ensures { number_of result ≡ or_else (transitions_no self.entry.layout.version self.entry.layout.head self.entry.states self.entry.bytes.now (rows_at self.entry.layout.version self.entry.layout.head) (self.entry.layout.head.kinds * self.entry.states)) (left_over_no self.entry.bytes.now (table_length self.entry.layout.version self.entry.layout.head self.entry.states)) }
    {
        let first = self.layout.rows_at();
        let count = self.layout.head.kinds as usize * self.states as usize;
        self.check_transitions(first, count)?;
        fields::check_left_over(self.bytes, self.layout.row_at(self.states))
    }
}

// Checks a whole table: the first thing that is wrong with it.
#[tactic(auto, using(convention::proofs::Results::tests), unfolding(convention::specs::Tables::table_no))]
fn check_table(t: &[u8]) -> Result<(), Refusal>
    ensures { number_of result ≡ table_no state_limit t.now }
{
    fields::check_opening(t)?;
    let layout = Layout::of(t);
    check_kinds(layout, t)?;
    check_states(t)?;
    let rows = TableRows {
        layout,
        states: states_of(t),
        bytes: t,
    };
    rows.check()
}

// The fields of a table that can be read.
fn table_of(t: &[u8]) -> Table
    requires { table_no state_limit t.now ≡ 0 }
    ensures { result ≡ table_of t.now }
{
    let layout = Layout::of(t);
    let kinds = kinds_of(layout, t);
    let states = states_of(t);
    Table {
        version: layout.version,
        head: layout.head,
        kinds,
        states,
    }
}

// Reads a table: every field of the head and the kinds, and the number of states, or the refusal. Like a sheet's reader, over
// definitions of its own (`read_table`).
pub fn read_table(t: &[u8]) -> Result<Table, Refusal>
    ensures { table_answer result ≡ read_table state_limit t.now }
{
    check_table(t)?;
    Ok(table_of(t))
}

// The transition of a kind at a state, in a table of this layout, where its bytes are there: they are wherever a table
// that was read has the state and the kind. They are read and nothing is searched.
pub fn transition_of(layout: Layout, t: &[u8], state: u16, kind: u8) -> Transition
    requires { TransitionThere layout.version layout.head t.now state kind }
    ensures { result ≡ transition_of layout.version t.now (transition_at layout.version layout.head state kind) }
{
    read_transition(layout.version, t, layout.transition_at(state, kind))
}

// Checks that there is a row of a state, whatever the bytes and the state: the reader's refusals, and 13 where the table has no
// such state. `row` gives the row where this refuses nothing.
#[tactic(auto, using(convention::proofs::Results::tests), unfolding(convention::specs::Tables::row_no))]
pub fn check_row(t: &[u8], state: usize) -> Result<(), Refusal>
    ensures { number_of result ≡ row_no state_limit t.now state }
{
    check_table(t)?;
    fields::check(state < states_of(t) as usize, Refusal::Row)
}

// The row of a state, in the form that 01 names, with no `Result`: the caller's own bytes, a transition for each kind, and no copy,
// which lie `Layout::row_at` bytes after the table's first; or the empty part of the table, at its first byte, which refuses.
pub fn row(t: &[u8], state: usize) -> &[u8]
    ensures { RowPart state_limit t.entry state result }
{
    match check_row(t, state) {
        Err(_) => &t[..0],
        Ok(()) => {
            let layout = Layout::of(t);
            let start = layout.row_at(state as u16);
            let end = start + layout.row_length();
            &t[start..end]
        }
    }
}
