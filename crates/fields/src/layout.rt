// Where the fields of a sheet and a table stand, and how long their parts are: each a definition of
// crates/convention/specs/Layout.antt, and once in code here. What depends on a file's version alone takes it as an argument; what
// depends on its head too is a method of `Layout`.
// Beside the definition each function promises a bound, so that sums fit: a length can be said in a byte, and what follows from that.
ghost use Rattle.std.specs.Prelude.{◌≡◌, ◌*◌, ◌≤◌, ◌<◌, ◌^◌};
ghost use Rattle.convention.specs.Fields.{version_of, head_of};
ghost use Rattle.convention.specs.Layout.{shape_length, flags_at, tries_at, starts_at, table_kind_at, state_length, states_at, rows_at, transition_length, row_length, rows_length, row_at, in_row, transition_at};

use convention::Head;

// `length_at`.
pub const LENGTH_AT: usize = 0;

// `length_bytes`.
pub const LENGTH_BYTES: usize = 2;

// `version_at`.
pub const VERSION_AT: usize = 2;

// `registers_at`.
pub const REGISTERS_AT: usize = 3;

// `width_at`.
pub const WIDTH_AT: usize = 4;

// `modulus_at`.
pub const MODULUS_AT: usize = 5;

// `kinds_count_at`.
pub const KINDS_COUNT_AT: usize = 6;

// `kinds_at`.
pub const KINDS_AT: usize = 7;

// `size_at`.
pub const SIZE_AT: usize = 0;

// `alignment_at`.
pub const ALIGNMENT_AT: usize = 1;

// `form_at`.
pub const FORM_AT: usize = 0;

// `a_at`.
pub const A_AT: usize = 1;

// `b_at`.
pub const B_AT: usize = 2;

// `next_at`.
pub const NEXT_AT: usize = 3;

// How many bytes a kind's shape takes.
pub fn shape_length(version: u8) -> usize
    ensures value { result ≡ shape_length version }
    ensures upper_bound { result ≤ 255 }
{
    2
}

// How many bytes the number of states, or of a state, takes.
pub fn state_length(version: u8) -> usize
    ensures value { result ≡ state_length version }
    ensures upper_bound { result ≤ 252 }
{
    1
}

// Where the flags of a sheet's kind stand.
pub fn flags_at(version: u8) -> usize
    ensures { result ≡ flags_at version }
{
    shape_length(version)
}

// Where its number of starts stands.
pub fn tries_at(version: u8) -> usize
    ensures { result ≡ tries_at version }
{
    shape_length(version) + 1
}

// Where its first start stands, or would if it has none.
pub fn starts_at(version: u8) -> usize
    ensures value { result ≡ starts_at version }
    ensures upper_bound { result ≤ 257 }
{
    shape_length(version) + 2
}

// Where kind k of a table stands.
pub fn table_kind_at(version: u8, k: u8) -> usize
    ensures value { result ≡ table_kind_at version k }
    ensures upper_bound { result < 2 ^ 17 }
{
    KINDS_AT + shape_length(version) * k as usize
}

// How many bytes a transition takes.
pub fn transition_length(version: u8) -> usize
    ensures value { result ≡ transition_length version }
    ensures upper_bound { result ≤ 255 }
{
    NEXT_AT + state_length(version)
}

// Where the transition of a kind starts, in a row that starts at byte `row`.
pub fn in_row(version: u8, row: usize, k: u8) -> usize
    requires { row < 2 ^ 33 }
    ensures { result ≡ in_row version row k }
{
    row + transition_length(version) * k as usize
}

// Where the fields of a file of this version and head stand.
#[derive(Clone, Copy)]
pub struct Layout {
    pub version: u8,
    pub head: Head,
}

impl Layout {
    // By the version and the head that a file's bytes say, whether they are right or not.
    pub fn of(s: &[u8]) -> Self
        ensures { result ≡ record { version = version_of s.now; head = head_of s.now } }
    {
        Layout {
            version: crate::version_of(s),
            head: crate::head_of(s),
        }
    }

    // Where the number of states stands.
    pub fn states_at(self) -> usize
        ensures value { result ≡ states_at self.version self.head }
        ensures upper_bound { result < 2 ^ 17 }
    {
        table_kind_at(self.version, self.head.kinds)
    }

    // Where the first row starts.
    pub fn rows_at(self) -> usize
        ensures value { result ≡ rows_at self.version self.head }
        ensures upper_bound { result < 2 ^ 18 }
    {
        self.states_at() + state_length(self.version)
    }

    // How many bytes a row takes.
    pub fn row_length(self) -> usize
        ensures value { result ≡ row_length self.version self.head }
        ensures upper_bound { result ≤ 255 * 255 }
    {
        transition_length(self.version) * self.head.kinds as usize
    }

    // How many bytes the rows of so many states take.
    pub fn rows_length(self, states: u16) -> usize
        ensures value { result ≡ rows_length self.version self.head states }
        ensures upper_bound { result < 2 ^ 32 }
    {
        self.row_length() * states as usize
    }

    // Where the row of a state starts; of as many states as there are, where the table ends.
    pub fn row_at(self, state: u16) -> usize
        ensures value { result ≡ row_at self.version self.head state }
        ensures upper_bound { result < 2 ^ 33 }
    {
        self.rows_at() + self.rows_length(state)
    }

    // Where the transition of a kind at a state starts.
    pub fn transition_at(self, state: u16, k: u8) -> usize
        ensures { result ≡ transition_at self.version self.head state k }
    {
        in_row(self.version, self.row_at(state), k)
    }
}
