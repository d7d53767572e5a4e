// A table that was read, with the bytes that it was read from: document 01, 'Bytes of a sheet and of a table'.
ghost use Rattle.convention.specs.Numbers.{state_limit};
ghost use Rattle.convention.specs.Promised.{TableRead};

use convention::{Refusal, Shape, Table, Transition};
use fields::layout::Layout;

// A table that was read, with its bytes: its rows stay there, in the caller's.
#[derive(Clone, Copy)]
pub struct ReadTable<'t> {
    pub table: Table,
    pub bytes: &'t [u8],
    pub ghost read: { TableRead state_limit table bytes.now },
}

impl<'t> ReadTable<'t> {
    ghost use Rattle.std.specs.Prelude.{◌≡◌, ◌<◌, IfOk};
    ghost use Rattle.convention.specs.Promised.{ShapeRead};
    ghost use Rattle.convention.specs.Results.{number_of};
    ghost use Rattle.convention.specs.Tables.{transition, table_kind, table_no, table_of};
    ghost use Rattle.table.specs.Within.{InTable, TransitionRead};

    // Reads a table from bytes, which stay the caller's and are kept beside it; or the refusal.
    pub fn read(t: &'t [u8]) -> Result<ReadTable<'t>, Refusal>
        ensures number { number_of result ≡ table_no state_limit t.now }
        ensures table { IfOk result (λ r. r.table ≡ table_of t.now) }
        ensures bytes { IfOk result (λ r. r.bytes ≡ t.entry) }
    {
        crate::check_table(t)?;
        let table = crate::table_of(t);
        Ok(ReadTable { table, bytes: t })
    }

    // The transition of a kind at a state, which the table has: it is read and nothing is searched.
    pub fn transition(&self, state: u16, kind: u8) -> Transition
        requires { InTable self.now.table state kind }
        ensures value { result ≡ transition self.now.table self.now.bytes.now state kind }
        ensures allowed { TransitionRead self.now.table.head self.now.table.states result }
    {
        let layout = Layout {
            version: self.table.version,
            head: self.table.head,
        };
        crate::transition_of(layout, self.bytes, state, kind)
    }

    // The shape of a kind, which the table has.
    pub fn kind(&self, kind: u8) -> Shape
        requires { kind < self.now.table.head.kinds }
        ensures value { result ≡ table_kind self.now.table kind }
        ensures allowed { ShapeRead self.now.table.head result }
    {
        self.table.kinds[kind as usize]
    }
}
