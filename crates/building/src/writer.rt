// Writing a sheet's table: the transitions of its rows, one after the other from byte 0 on, and what stands before the rows, each part
// from the byte on where the layout puts it. That is done by functions and no `From`, since each part goes to its own byte of the
// caller's memory.
ghost use Rattle.std.specs.Prelude.{◌≡◌, ◌+◌, ◌-◌, ◌≤◌, length, take};
ghost use Rattle.convention.specs.Numbers.{state_limit};
ghost use Rattle.convention.specs.Bytes.{written, blocks};
ghost use Rattle.convention.specs.Layout.{length_bytes, kinds_at, rows_at, rows_length, table_length, shape_length, state_length, transition_length};
ghost use Rattle.convention.specs.Fields.{shape_bytes, state_bytes};
ghost use Rattle.convention.specs.Tables.{transition_bytes};
ghost use Rattle.convention.specs.Built.{made, built_version, built_kind};
ghost use Rattle.building.specs.Deciding.{rows_version};
ghost use Rattle.building.specs.Writing.{MadeAsks, CopyAsks, KindsAsk, opening_bytes, FrontAsks, front_bytes};

use crate::modulus::Modulus;
use convention::{Placement, Shape, Sheet, Transition};
use fields::layout;
use fields::layout::{
    A_AT, ALIGNMENT_AT, B_AT, FORM_AT, KINDS_COUNT_AT, LENGTH_AT, LENGTH_BYTES, Layout, MODULUS_AT,
    NEXT_AT, REGISTERS_AT, SIZE_AT, VERSION_AT, WIDTH_AT,
};

// The version in whose form rows are made: `rows_version`.
pub(crate) const ROWS_VERSION: u8 = 1;

// Writes the number of states, or of a state, from byte `at` on. (The output and the byte go side by side to four functions alone,
// each of which writes one thing.)
#[tactic(auto, using(convention::proofs::Positions::state_some, crate::proofs::Writing::stored_state))]
fn write_state(version: u8, n: u16, out: &mut [u8], at: usize)
    requires { (n ≤ state_limit) × (at + state_length version ≤ length out.old) }
    ensures { out.new ≡ written out.old at (state_bytes version n) }
{
    out[at] = n as u8;
}

// Writes a kind's shape, from byte `at` on.
#[tactic(auto, using(convention::proofs::Positions::shape_some, crate::proofs::Writing::shape_stores))]
fn write_shape(version: u8, shape: Shape, out: &mut [u8], at: usize)
    requires { at + shape_length version ≤ length out.old }
    ensures { out.new ≡ written out.old at (shape_bytes version shape) }
{
    out[at + SIZE_AT] = shape.size;
    out[at + ALIGNMENT_AT] = shape.alignment;
}

// The transition that is made of a place and the next state's number. On the stack a is the residue, the offset's remainder by A.
fn make_transition(modulus: Modulus, place: Placement, next: u16) -> Transition
    ensures { result ≡ made modulus.a place next }
{
    match place {
        Placement::Registers(first, count) => Transition {
            form: 1,
            a: first.0,
            b: count,
            next,
        },
        Placement::Stack(offset, count) => Transition {
            form: 2,
            a: modulus.residue(offset),
            b: count,
            next,
        },
        Placement::Nowhere => Transition {
            form: 0,
            a: 0,
            b: 0,
            next: 0,
        },
    }
}

// Writes a transition, from byte `at` on.
fn write_transition(version: u8, x: Transition, out: &mut [u8], at: usize)
    requires { (x.next ≤ state_limit) × (at + transition_length version ≤ length out.old) }
    ensures { out.new ≡ written out.old at (transition_bytes version x) }
{
    out[at + FORM_AT] = x.form;
    out[at + A_AT] = x.a;
    out[at + B_AT] = x.b;
    write_state(version, x.next, out, at + NEXT_AT);
}

// Writes among the rows, from byte `at` on, the transition that is made of a place and the next state's number.
pub(crate) fn write_made(modulus: Modulus, place: Placement, next: u16, rows: &mut [u8], at: usize)
    requires { MadeAsks next rows.old at }
    ensures { rows.new ≡ written rows.old at (transition_bytes rows_version (made modulus.a place next)) }
{
    let x = make_transition(modulus, place, next);
    write_transition(ROWS_VERSION, x, rows, at);
}

// A sheet's table of so many states, in its version. That the sheet was read is no part of it: `table_length` may be asked of any.
#[derive(Clone, Copy)]
pub(crate) struct BuiltTable {
    version: u8,
    sheet: Sheet,
    states: u16,
}

impl BuiltTable {
    // Its version is `built_version`.
    #[tactic(auto, unfolding(convention::specs::Built::built_version))]
    pub(crate) fn new(sheet: Sheet, states: u16) -> Self
        ensures { result ≡ record { version = built_version sheet states; sheet = sheet; states = states } }
    {
        BuiltTable {
            version: ROWS_VERSION,
            sheet,
            states,
        }
    }

    // Where its fields stand.
    fn layout(&self) -> Layout
        ensures { result ≡ record { version = self.now.version; head = self.now.sheet.head } }
    {
        Layout {
            version: self.version,
            head: self.sheet.head,
        }
    }

    // How long it is.
    pub(crate) fn length(&self) -> usize
        ensures { result ≡ table_length self.now.version self.now.sheet.head self.now.states }
    {
        self.layout().row_at(self.states)
    }

    // Writes the kinds' shapes, after the opening.
    fn write_kinds(&self, out: &mut [u8])
        requires { KindsAsk self.now.version self.now.sheet out.old }
        ensures { out.new ≡ written out.old kinds_at (blocks (built_kind self.now.version self.now.sheet) self.now.sheet.head.kinds) }
    {
        for k in 0..self.sheet.head.kinds {
            let at = layout::table_kind_at(self.version, k);
            write_shape(self.version, self.sheet.kinds[k as usize].shape, out, at);
        }
    }

    // Writes what stands before the kinds: how many bytes follow the length, the version and the head. (The two bytes are no
    // `to_be_bytes`, since nothing here says that the length fits a `u16`.)
    fn write_opening(&self, out: &mut [u8])
        requires { kinds_at ≤ length out.old }
        ensures { out.new ≡ written out.old 0 (opening_bytes self.now.version self.now.sheet.head (table_length self.now.version self.now.sheet.head self.now.states - length_bytes)) }
    {
        let head = self.sheet.head;
        let follow = self.length() - LENGTH_BYTES;
        out[LENGTH_AT] = (follow / 0x100 % 0x100) as u8;
        out[LENGTH_AT + 1] = (follow % 0x100) as u8;
        out[VERSION_AT] = self.version;
        out[REGISTERS_AT] = head.registers;
        out[WIDTH_AT] = head.width;
        out[MODULUS_AT] = head.modulus;
        out[KINDS_COUNT_AT] = head.kinds;
    }

    // Writes what stands before the rows: the opening, the kinds and N.
    pub(crate) fn write_front(&self, out: &mut [u8])
        requires { FrontAsks self.now.version self.now.sheet self.now.states out.old }
        ensures { out.new ≡ written out.old 0 (front_bytes self.now.version self.now.sheet self.now.states) }
    {
        self.write_opening(out);
        self.write_kinds(out);
        let at = self.layout().states_at();
        write_state(self.version, self.states, out, at);
    }

    // Copies its rows, which are the first of these bytes, to their place.
    pub(crate) fn write_rows(&self, rows: &[u8], out: &mut [u8])
        requires { CopyAsks rows.now (rows_length rows_version self.now.sheet.head self.now.states) out.old (rows_at self.now.version self.now.sheet.head) }
        ensures { out.new ≡ written out.old (rows_at self.now.version self.now.sheet.head) (take (rows_length rows_version self.now.sheet.head self.now.states) rows.now) }
    {
        let made = Layout {
            version: ROWS_VERSION,
            head: self.sheet.head,
        };
        let end = made.rows_length(self.states);
        let first = self.layout().rows_at();
        fields::copy(&rows[..end], &mut out[first..]);
    }
}
