// The boundary: the calls of document 01, which crates/teaselram_c exports for C and Rust. Nothing is written but `out`.
// Each answer is one of three structs of eight bytes, by value: 01's number, 0 on success, and the values that 01 names for the
// answer; every other field is 0.
#![tactic(auto)]

ghost use Rattle.std.specs.Prelude.{◌≡◌, ◌<◌, ◌^◌, length, ltb};
ghost use Rattle.convention.specs.Numbers.{state_limit, argument_limit, refusal, placing_says, building_says, judging_says};
ghost use Rattle.convention.specs.Results.{refusal_number, number_of, placing_answer, building_answer, judging_answer};
ghost use Rattle.convention.specs.Built.{build, build_memory};
ghost use Rattle.convention.specs.Sheets.{read_sheet, blank_head};
ghost use Rattle.convention.specs.Tables.{read_table};
ghost use Rattle.convention.specs.Rules.{place_by_rules, rules_memory};
ghost use Rattle.convention.specs.Walked.{place_by_table, table_memory};
ghost use Rattle.teaselram.specs.Says.{answer_of, head_says, sheet_says, table_says, kind_refusal, kind_says, sheet_kind_says, table_kind_says, row_says, JudgeSays};

use convention::{Built, FaultyList, Head, Placed, Refusal, Shape, Unplaced};
use fields::layout;
use fields::layout::Layout;

#[repr(C)]
#[derive(Clone, Copy)]
pub struct Answer {
    pub number: u8,
    pub fault: u8,
    pub count: u16,
    pub value: u32,
}

#[repr(C)]
#[derive(Clone, Copy)]
pub struct HeadAnswer {
    pub number: u8,
    pub registers: u8,
    pub width: u8,
    pub modulus: u8,
    pub kinds: u8,
    pub zero: u8,
    pub states: u16,
}

#[repr(C)]
#[derive(Clone, Copy)]
pub struct KindAnswer {
    pub number: u8,
    pub size: u8,
    pub alignment: u8,
    pub flags: u8,
    pub starts: u8,
    pub zero: u8,
    pub first_start: u16,
}

// The numbers that come with a position: an unknown kind, which asking for a kind that the file does not have gives too, and a
// faulty step.
const UNKNOWN_KIND: u8 = 9;

const FAULTY_STEP: u8 = 10;

// Nothing but zeros: what an answer says beside its number where that is all.
const NOTHING: Answer = Answer {
    number: 0,
    fault: 0,
    count: 0,
    value: 0,
};

const NO_HEAD: HeadAnswer = HeadAnswer {
    number: 0,
    registers: 0,
    width: 0,
    modulus: 0,
    kinds: 0,
    zero: 0,
    states: 0,
};

const NO_KIND: KindAnswer = KindAnswer {
    number: 0,
    size: 0,
    alignment: 0,
    flags: 0,
    starts: 0,
    zero: 0,
    first_start: 0,
};

// A refusal says its number, and nothing else.
impl From<Refusal> for Answer {
    ghost use Rattle.convention.specs.Numbers.{refusal as refused};
    ghost use Rattle.convention.specs.Results.{refusal_number};
    ghost use Rattle.teaselram.specs.Says.{answer_of};

    ghost from_gives = { λ r answer. answer ≡ answer_of (refused (refusal_number r)) };

    fn from(refusal: Refusal) -> Answer {
        Answer {
            number: refusal.number(),
            ..NOTHING
        }
    }
}

impl From<Refusal> for HeadAnswer {
    ghost use Rattle.convention.specs.Results.{refusal_number};
    ghost use Rattle.convention.specs.Sheets.{blank_head};
    ghost use Rattle.teaselram.specs.Says.{head_says};

    ghost from_gives = { λ r answer. answer ≡ head_says (refusal_number r) blank_head 0 };

    fn from(refusal: Refusal) -> HeadAnswer {
        HeadAnswer {
            number: refusal.number(),
            ..NO_HEAD
        }
    }
}

impl From<Refusal> for KindAnswer {
    ghost use Rattle.convention.specs.Results.{refusal_number};
    ghost use Rattle.teaselram.specs.Says.{kind_refusal};

    ghost from_gives = { λ r answer. answer ≡ kind_refusal (refusal_number r) };

    fn from(refusal: Refusal) -> KindAnswer {
        KindAnswer {
            number: refusal.number(),
            ..NO_KIND
        }
    }
}

// What an answer of placing says in 01's numbers. A call places so few arguments that the count fits: it asks for that, which no
// `From` can, nor those of building and judging.
fn placing_says(placing: Result<Placed, Unplaced>) -> Answer
    requires { (placing_says (placing_answer placing)).count < 2 ^ 16 }
    ensures { result ≡ answer_of (placing_says (placing_answer placing)) }
{
    match placing {
        Ok(placed) => Answer {
            count: placed.arguments as u16,
            value: placed.p.0,
            ..NOTHING
        },
        Err(Unplaced::Unknown(at)) => Answer {
            number: UNKNOWN_KIND,
            count: at as u16,
            ..NOTHING
        },
        Err(Unplaced::Faulty(at, fault)) => Answer {
            number: FAULTY_STEP,
            fault: fault.number(),
            count: at as u16,
            ..NOTHING
        },
        Err(Unplaced::Refused(refusal)) => refusal.into(),
    }
}

// What an answer of building says: N and the table's length, which fits.
fn building_says(building: Result<Built, Refusal>) -> Answer
    requires { (building_says (building_answer building)).value < 2 ^ 32 }
    ensures { result ≡ answer_of (building_says (building_answer building)) }
{
    match building {
        Ok(built) => Answer {
            count: built.states,
            value: built.length as u32,
            ..NOTHING
        },
        Err(refusal) => refusal.into(),
    }
}

// What a verdict says: fault number and list length, both 0 where clean. A list has at most 2N kinds, so its length fits.
fn judging_says(verdict: Result<Option<FaultyList>, Refusal>) -> Answer
    requires { (judging_says (judging_answer verdict)).count < 2 ^ 16 }
    ensures { result ≡ answer_of (judging_says (judging_answer verdict)) }
{
    match verdict {
        Ok(None) => NOTHING,
        Ok(Some(found)) => Answer {
            fault: found.fault.number(),
            count: found.kinds as u16,
            ..NOTHING
        },
        Err(refusal) => refusal.into(),
    }
}

// What reading a file says: the head, and a table's number of states. A function of both, as a `From` of a pair would be no plainer.
fn head_says(head: Head, states: u16) -> HeadAnswer
    ensures { result ≡ head_says 0 head states }
{
    HeadAnswer {
        number: 0,
        registers: head.registers,
        width: head.width,
        modulus: head.modulus,
        kinds: head.kinds,
        zero: 0,
        states,
    }
}

// Whether a file of this head has a kind.
fn has_kind(head: Head, kind: u64) -> bool
    ensures { result ≡ ltb kind head.kinds }
{
    kind < head.kinds as u64
}

// What asking for a kind says where the file has no such kind.
fn no_such_kind() -> KindAnswer
    ensures { result ≡ kind_refusal UNKNOWN_KIND }
{
    KindAnswer {
        number: UNKNOWN_KIND,
        ..NO_KIND
    }
}

// What it says of one that the file has, of four values that no type holds.
fn kind_says(shape: Shape, flags: u8, starts: u8, first_start: u16) -> KindAnswer
    ensures { result ≡ kind_says shape flags starts first_start }
{
    KindAnswer {
        number: 0,
        size: shape.size,
        alignment: shape.alignment,
        flags,
        starts,
        zero: 0,
        first_start,
    }
}

// Reads a sheet: its head. `states` is 0. `teaselram_sheet_kind` answers the kinds, one by one.
pub fn teaselram_read_sheet(sheet: &[u8]) -> HeadAnswer
    ensures { result ≡ sheet_says (read_sheet sheet.now) }
{
    match sheet::read_sheet(sheet) {
        Ok(read) => head_says(read.head, 0),
        Err(refusal) => refusal.into(),
    }
}

// Reads a table: its head and the number of its states. `teaselram_table_kind` answers the kinds, one by one.
pub fn teaselram_read_table(table: &[u8]) -> HeadAnswer
    ensures { result ≡ table_says (read_table state_limit table.now) }
{
    match table::read_table(table) {
        Ok(read) => head_says(read.head, read.states),
        Err(refusal) => refusal.into(),
    }
}

// Asks for one kind of a sheet, by any number: its size, alignment, flags and number of starts, and where in the sheet its
// first start stands, or would if it has none. Start i of the kind is byte `first_start + i` of the sheet, for each i below
// `starts`: `start_is` of crates/convention/proofs/Sheets.antt; and these bytes lie within the sheet: `starts_within` there.
pub fn teaselram_sheet_kind(sheet: &[u8], kind: u64) -> KindAnswer
    ensures { result ≡ sheet_kind_says sheet.now kind }
{
    let read = match sheet::read_sheet(sheet) {
        Ok(read) => read,
        Err(refusal) => return refusal.into(),
    };
    if !has_kind(read.head, kind) {
        return no_such_kind();
    }
    let asked = read.kinds[kind as usize];
    let at = sheet::kind_at(read.version, sheet, kind as usize);
    let first = (at + layout::starts_at(read.version)) as u16;
    kind_says(asked.shape, asked.flags, asked.tries, first)
}

// Asks for one kind of a table, by any number, as C asks for one of a sheet; what it says of it is another definition: its size and
// alignment. Every other field is 0.
pub fn teaselram_table_kind(table: &[u8], kind: u64) -> KindAnswer
    ensures { result ≡ table_kind_says state_limit table.now kind }
{
    let read = match table::read_table(table) {
        Ok(read) => read,
        Err(refusal) => return refusal.into(),
    };
    if !has_kind(read.head, kind) {
        return no_such_kind();
    }
    kind_says(read.kinds[kind as usize], 0, 0, 0)
}

// Places a list of kinds by the rules of a sheet.
pub fn teaselram_place_by_rules(sheet: &[u8], kinds: &[u8], out: &mut [u8]) -> Answer
    ensures value { result ≡ answer_of (placing_says (place_by_rules argument_limit sheet.now kinds.now (length out.old))) }
    ensures out_after { out.new ≡ rules_memory argument_limit sheet.now kinds.now out.old }
{
    placing_says(placing::place_by_rules(sheet, kinds, out))
}

// Places a list of kinds by a table.
pub fn teaselram_place_by_table(table: &[u8], kinds: &[u8], out: &mut [u8]) -> Answer
    ensures value { result ≡ answer_of (placing_says (place_by_table state_limit argument_limit table.now kinds.now (length out.old))) }
    ensures out_after { out.new ≡ table_memory state_limit argument_limit table.now kinds.now out.old }
{
    placing_says(walking::place_by_table(table, kinds, out))
}

// Builds the table of a sheet.
pub fn teaselram_build(sheet: &[u8], out: &mut [u8]) -> Answer
    ensures value { result ≡ answer_of (building_says (build state_limit sheet.now (length out.old))) }
    ensures out_after { out.new ≡ build_memory state_limit sheet.now out.old }
{
    building_says(building::build(sheet, out))
}

// Judges a table.
pub fn teaselram_judge(table: &[u8], out: &mut [u8]) -> Answer
    ensures { JudgeSays state_limit table.now out.old result out.new }
{
    judging_says(judging::judge(table, out))
}

// Asks for the row of a state, any number: how long it is, and where it starts in the table. A row is never empty, so an
// empty part means refused, and a second question answers the number.
pub fn teaselram_row(table: &[u8], state: u64) -> Answer
    ensures { result ≡ answer_of (row_says state_limit table.now state) }
{
    let row = table::row(table, state as usize);
    let length = row.len();
    if length == 0 {
        return match table::check_row(table, state as usize) {
            Ok(()) => NOTHING,
            Err(refusal) => refusal.into(),
        };
    }
    let start = Layout::of(table).row_at(state as u16);
    Answer {
        number: 0,
        fault: 0,
        count: length as u16,
        value: start as u32,
    }
}
