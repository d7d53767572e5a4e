// The static library: the calls of crates/teaselram for C and Rust, each with the clauses that it has there. (C names them, and a
// crate is a library or a static library, so each stands here once more.) A slice is a pointer and a
// length; nothing is written but `out`. Each answer is one of three structs of eight bytes, by value.
#![tactic(auto)]

ghost use Rattle.std.specs.Prelude.{◌≡◌, length};
ghost use Rattle.convention.specs.Numbers.{state_limit, argument_limit, placing_says, building_says};
ghost use Rattle.convention.specs.Built.{build, build_memory};
ghost use Rattle.convention.specs.Sheets.{read_sheet};
ghost use Rattle.convention.specs.Tables.{read_table};
ghost use Rattle.convention.specs.Rules.{place_by_rules, rules_memory};
ghost use Rattle.convention.specs.Walked.{place_by_table, table_memory};
ghost use Rattle.teaselram.specs.Says.{answer_of, sheet_says, table_says, sheet_kind_says, table_kind_says, row_says, JudgeSays};

use teaselram::{Answer, HeadAnswer, KindAnswer};

// Reads a sheet: its head. `states` is 0. `teaselram_sheet_kind` answers the kinds, one by one.
#[unsafe(no_mangle)]
pub extern "C" fn teaselram_read_sheet(sheet: &[u8]) -> HeadAnswer
    ensures { result ≡ sheet_says (read_sheet sheet.now) }
{
    teaselram::teaselram_read_sheet(sheet)
}

// Reads a table: its head and the number of its states. `teaselram_table_kind` answers the kinds, one by one.
#[unsafe(no_mangle)]
pub extern "C" fn teaselram_read_table(table: &[u8]) -> HeadAnswer
    ensures { result ≡ table_says (read_table state_limit table.now) }
{
    teaselram::teaselram_read_table(table)
}

// Asks for one kind of a sheet, by any number: its size, alignment, flags and number of starts, and where in the sheet its
// first start stands, or would if it has none. Start i of the kind is byte `first_start + i` of the sheet, for each i below
// `starts`: `start_is` of crates/convention/proofs/Sheets.antt; and these bytes lie within the sheet: `starts_within` there.
#[unsafe(no_mangle)]
pub extern "C" fn teaselram_sheet_kind(sheet: &[u8], kind: u64) -> KindAnswer
    ensures { result ≡ sheet_kind_says sheet.now kind }
{
    teaselram::teaselram_sheet_kind(sheet, kind)
}

// Asks for one kind of a table, by any number: its size and alignment. Every other field is 0.
#[unsafe(no_mangle)]
pub extern "C" fn teaselram_table_kind(table: &[u8], kind: u64) -> KindAnswer
    ensures { result ≡ table_kind_says state_limit table.now kind }
{
    teaselram::teaselram_table_kind(table, kind)
}

// Places a list of kinds by the rules of a sheet.
#[unsafe(no_mangle)]
pub extern "C" fn teaselram_place_by_rules(sheet: &[u8], kinds: &[u8], out: &mut [u8]) -> Answer
    ensures value { result ≡ answer_of (placing_says (place_by_rules argument_limit sheet.now kinds.now (length out.old))) }
    ensures out_after { out.new ≡ rules_memory argument_limit sheet.now kinds.now out.old }
{
    teaselram::teaselram_place_by_rules(sheet, kinds, out)
}

// Places a list of kinds by a table.
#[unsafe(no_mangle)]
pub extern "C" fn teaselram_place_by_table(table: &[u8], kinds: &[u8], out: &mut [u8]) -> Answer
    ensures value { result ≡ answer_of (placing_says (place_by_table state_limit argument_limit table.now kinds.now (length out.old))) }
    ensures out_after { out.new ≡ table_memory state_limit argument_limit table.now kinds.now out.old }
{
    teaselram::teaselram_place_by_table(table, kinds, out)
}

// Builds the table of a sheet.
#[unsafe(no_mangle)]
pub extern "C" fn teaselram_build(sheet: &[u8], out: &mut [u8]) -> Answer
    ensures value { result ≡ answer_of (building_says (build state_limit sheet.now (length out.old))) }
    ensures out_after { out.new ≡ build_memory state_limit sheet.now out.old }
{
    teaselram::teaselram_build(sheet, out)
}

// Judges a table.
#[unsafe(no_mangle)]
pub extern "C" fn teaselram_judge(table: &[u8], out: &mut [u8]) -> Answer
    ensures { JudgeSays state_limit table.now out.old result out.new }
{
    teaselram::teaselram_judge(table, out)
}

// Asks for the row of a state, any number: how long it is, and where it starts in the table. A row is never empty, so an
// empty part means refused, and a second question answers the number.
#[unsafe(no_mangle)]
pub extern "C" fn teaselram_row(table: &[u8], state: u64) -> Answer
    ensures { result ≡ answer_of (row_says state_limit table.now state) }
{
    teaselram::teaselram_row(table, state)
}
