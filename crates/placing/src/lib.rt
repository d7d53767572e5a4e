// Placing by the rules: one search of a kind's starts, one argument, a list. Document 01, 'Placing by the rules'.
#![tactic(auto)]

ghost use Rattle.std.specs.Prelude.{◌≡◌, MatchResult, length};
ghost use Rattle.convention.specs.Numbers.{argument_limit};
ghost use Rattle.convention.specs.Promised.{SheetRead};
ghost use Rattle.convention.specs.Results.{refusal_number, placing_answer};
ghost use Rattle.convention.specs.Rules.{by_rules, place_by_rules, rules_memory, rules_begin};
ghost use Rattle.convention.specs.Sheets.{sheet_no, sheet_of};
ghost use Rattle.placing.specs.RulesSteps.{as_rules, SearchAsks, SearchIs, PlaceAsks, skipped_by, place_found, AfterAsks, AfterIs, CursorIs};
ghost use Rattle.placing.specs.RulesSteps.{StepFromAsks, StepFromIs, RulesStepAsks, RulesStepIs};

use convention::{
    Fault, Head, KIND_LIMIT, Offset, Placed, Placement, RECORD_LENGTH, Refusal, Reg, Sheet,
    SheetKind, Unplaced,
};
use fields::shapes;
use stepping::Placer;

// How far placing has come: the unavailable registers, a bit for each, and p.
#[derive(Clone, Copy)]
pub struct RulesAt {
    pub unavailable: u32,
    pub p: Offset,
}

// What a search of a kind's starts found: which one is the first whose run is wholly available; and the registers of the runs
// that were tried and not taken, available or not, a bit for each.
#[derive(Clone, Copy)]
struct Searched {
    found: Option<u8>,
    passed: u32,
}

// Rule 1: tries the starts of a kind that needs `count` registers, in order, from start `from` on. Those before it are
// skipped: the run of none of them is wholly available.
fn search(taken: u32, kind: &SheetKind, from: u8, count: u8) -> Searched
    requires { SearchAsks taken kind.now.starts from kind.now.tries count }
    ensures { SearchIs taken kind.now.starts from kind.now.tries count result.found result.passed }
{
    let mut passed: u32 = 0;
    for i in from..kind.tries {
        let run = stepping::run(Reg(kind.starts[i as usize]), count);
        if taken & run == 0 {
            return Searched {
                found: Some(i),
                passed,
            };
        }
        passed |= run;
    }
    Searched {
        found: None,
        passed,
    }
}

// Rules 1 to 3, once the kind's starts were searched: the place of an argument that needs `count` registers.
#[tactic(auto, using(crate::proofs::Steps::found_registers, crate::proofs::Steps::found_stack, crate::proofs::Steps::found_nowhere))]
fn place(kind: &SheetKind, count: u8, found: Option<u8>, p: Offset) -> Placement
    requires { PlaceAsks kind.now found p }
    ensures { result ≡ place_found kind.now count (skipped_by kind.now.tries found) p }
{
    if let Some(i) = found {
        return Placement::Registers(Reg(kind.starts[i as usize]), count);
    }
    if kind.may_use_stack() {
        let offset = stepping::least_offset(kind.shape.alignment, 0, p);
        return Placement::Stack(offset, shapes::stack_bytes(kind.shape));
    }
    Placement::Nowhere
}

// What the place takes, and rule 4, with the registers that the search passed: how far placing has come after the argument.
#[tactic(auto, using(crate::proofs::Steps::after_open, crate::proofs::Steps::after_closed))]
fn after(kind: &SheetKind, passed: u32, place: Placement, s: RulesAt) -> RulesAt
    requires { AfterAsks place }
    ensures { AfterIs kind.now.flags passed place (as_rules s) (as_rules result) }
{
    let taken = stepping::place_taken(place, s.unavailable);
    let p = stepping::place_p(place, s.p);
    if !kind.is_closing() {
        return RulesAt {
            unavailable: taken,
            p,
        };
    }
    RulesAt {
        unavailable: taken | passed,
        p,
    }
}

// Where the next search of a kind may begin, after one that skipped so many starts: a register never becomes available again.
// A closing kind takes the registers of every start that it skips, so its searches begin at the first.
fn cursor(kind: &SheetKind, skipped: u8) -> u8
    ensures { CursorIs kind.now.flags skipped result }
{
    if kind.is_closing() { 0 } else { skipped }
}

// One argument placed: its place, and how far placing has come after it.
#[derive(Clone, Copy)]
pub struct RulesStep {
    pub place: Placement,
    pub next: RulesAt,
}

// One step by the rules whose search begins at start `from`, where an earlier one of the kind allowed it, or at the first. It
// moves `from` to where the next search of the kind may begin.
fn step_from(head: Head, kind: &SheetKind, s: RulesAt, from: &mut u8) -> RulesStep
    requires { StepFromAsks head kind.now (as_rules s) from.old }
    ensures { StepFromIs head kind.now (as_rules s) result.place (as_rules result.next) from.new }
{
    let count = shapes::registers_needed(head.width, kind.shape);
    let searched = search(s.unavailable, kind, *from, count);
    let found = place(kind, count, searched.found, s.p);
    let reached = after(kind, searched.passed, found, s);
    *from = cursor(kind, searched.found.unwrap_or(kind.tries));
    RulesStep {
        place: found,
        next: reached,
    }
}

// One step by the rules, of a kind that was read, from wherever there is room for the most that an argument takes.
pub fn step(head: Head, kind: &SheetKind, s: RulesAt) -> RulesStep
    requires { RulesStepAsks head kind.now (as_rules s) }
    ensures { RulesStepIs head kind.now (as_rules s) result.place (as_rules result.next) }
{
    let mut from = 0;
    step_from(head, kind, s, &mut from)
}

// Every register available, and p = 0.
#[tactic(auto, unfolding(stepping::specs::Sets::set_of))]
fn begin() -> RulesAt
    ensures { as_rules result ≡ rules_begin }
{
    RulesAt {
        unavailable: 0,
        p: Offset(0),
    }
}

// A sheet that was read, which places lists by its rules.
#[derive(Drop)]
pub struct Rules {
    pub sheet: Sheet,
    pub ghost read: { SheetRead sheet },
}

impl Rules {
    // Reads a sheet, or refuses it.
    #[tactic(auto, using(crate::proofs::Calls::right, crate::proofs::Calls::is_sheet, crate::proofs::Calls::was_read, crate::proofs::Calls::was_refused))]
    pub fn read(s: &[u8]) -> Result<Rules, Refusal>
        ensures { MatchResult result (λ rules. (sheet_no s.now ≡ 0) × (rules.sheet ≡ sheet_of s.now)) (λ refusal. refusal_number refusal ≡ sheet_no s.now) }
    {
        let sheet = sheet::read_sheet(s)?;
        Ok(Rules { sheet })
    }
}

impl Placer for Rules {
    ghost kind_count = { λ rules. rules.sheet.head.kinds };

    ghost way = { λ rules. by_rules rules.sheet };

    fn kinds(&self) -> u8 {
        self.sheet.head.kinds
    }

    // The next search of each kind begins where `from` says. No kind is copied, and the sheet is not.
    fn walk(&self, list: &[u8], records: &mut [u8]) -> Result<Offset, Unplaced> {
        let head = self.sheet.head;
        let mut from = [0u8; KIND_LIMIT];
        let mut s = begin();
        for (i, &k) in list.iter().enumerate() {
            let kind = &self.sheet.kinds[k as usize];
            let stepped = step_from(head, kind, s, &mut from[k as usize]);
            if let Placement::Nowhere = stepped.place {
                return Err(Unplaced::Faulty(i, Fault::NoPlace));
            }
            stepping::write_record(stepped.place, records, RECORD_LENGTH * i);
            s = stepped.next;
        }
        Ok(s.p)
    }
}

// Places a list of kinds by the rules of a sheet: the records in the first bytes of `out`, or a refusal that writes
// nothing. The contract gives the answer and the memory outright, so any two answers that it allows coincide.
#[tactic(auto, using(crate::proofs::Calls::placed_answer, crate::proofs::Calls::placed_memory, crate::proofs::Calls::refused_answer, crate::proofs::Calls::refused_memory))]
pub fn place_by_rules(sheet: &[u8], list: &[u8], out: &mut [u8]) -> Result<Placed, Unplaced>
    ensures value { placing_answer result ≡ place_by_rules argument_limit sheet.now list.now (length out.old) }
    ensures out_after { out.new ≡ rules_memory argument_limit sheet.now list.now out.old }
{
    let rules = Rules::read(sheet)?;
    stepping::place_list(&rules, list, out)
}
