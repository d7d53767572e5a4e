// The verdict on a table, above the table reader: document 01, demand 3. A table that is certified is clean. Any other is
// searched: nothing is watched, and then one register at a time of those that may be given twice, and the least of the lists that
// are found is the answer. See specs/Watched.antt for what is searched, and proofs/ for why it is the verdict.
#![tactic(auto)]

mod lists;
mod search;
mod steps;

ghost use Rattle.std.specs.Prelude.{Ok};
ghost use Rattle.convention.specs.Numbers.{state_limit};
ghost use Rattle.convention.specs.Results.{judging_answer};
ghost use Rattle.convention.specs.Judged.{Judges};
ghost use Rattle.certifying.specs.Certified.{OnceBut};
ghost use Rattle.judging.specs.Found.{ImproveIs, BestIs, JudgeAsks};

use convention::{FaultyList, Refusal, Reg, STATE_LIMIT};
use exploring::Exploration;
use lists::List;
use steps::Watching;
use table::ReadTable;

// The most nodes of a watched walk, two for each state. A list that is found has no more kinds.
const NODE_LIMIT: usize = 2 * STATE_LIMIT;

// Makes the first faulty list of a watched walk the best list, where there is none or it is before it. The exploration is lent, and
// begins anew: one of its own for each walk would be 2,400 bytes to clear, of which a small table uses few.
fn improve(
    table: &ReadTable<'_>,
    watching: Watching,
    exploration: &mut Exploration<NODE_LIMIT>,
    best: &mut Option<List>,
)
    ensures { ImproveIs table.now.table table.now.bytes.now watching.watch best.old best.new }
{
    exploration.restart();
    if let Some(found) = search::search(table, watching, exploration) {
        lists::keep_better(best, exploration, found);
    }
}

// The least of the lists that are found where nothing is watched, and where a register is, one at a time; `twice` has each
// register that may be given twice. No other is watched: no list is found there that is before the best.
fn least_list(table: &ReadTable<'_>, twice: u32) -> Option<List>
    requires { OnceBut table.now.table table.now.bytes.now twice }
    ensures { BestIs table.now.table table.now.bytes.now table.now.table.head.registers result }
{
    let mut exploration = Exploration::start();
    let mut best = None;
    let nothing = Watching { watch: None };
    improve(table, nothing, &mut exploration, &mut best);
    for i in 0..table.table.head.registers {
        if !stepping::free_run(twice, Reg(i), 1) {
            let watch = Some(Reg(i));
            improve(table, Watching { watch }, &mut exploration, &mut best);
        }
    }
    best
}

// The first faulty list of a table, with room for it, by searching the table: the list is written only where there is one.
// Out of line, so that the search's entries are not on the stack while the table is certified.
#[inline(never)]
#[tactic(auto, using(crate::proofs::Answers::judge_clean, crate::proofs::Answers::judge_room, crate::proofs::Answers::judge_fault))]
fn judge_by_search(table: &ReadTable<'_>, twice: u32, out: &mut [u8]) -> Option<FaultyList>
    requires judge_asks { JudgeAsks table.now.table table.now.bytes.now out.old }
    requires once_but { OnceBut table.now.table table.now.bytes.now twice }
    ensures { Judges state_limit table.now.bytes.now out.old (judging_answer (Ok result)) out.new }
{
    let best = least_list(table, twice);
    let Some(list) = &best else {
        return None;
    };
    let kinds = list.as_slice();
    fields::copy(kinds, out);
    let fault = walking::list_fault(table, kinds).unwrap_err();
    Some(FaultyList {
        fault,
        kinds: kinds.len(),
    })
}

// The first faulty list of a table, with room for it: one that is certified has none, and only another is searched.
#[tactic(auto, using(crate::proofs::Answers::judge_certified))]
fn judge_read(table: &ReadTable<'_>, out: &mut [u8]) -> Option<FaultyList>
    requires { JudgeAsks table.now.table table.now.bytes.now out.old }
    ensures { Judges state_limit table.now.bytes.now out.old (judging_answer (Ok result)) out.new }
{
    // No set of registers: the table is clean, and that is the answer.
    let twice = certifying::certify(table)?;
    judge_by_search(table, twice, out)
}

// Judges a table: `None` where it is clean, or the first faulty list in the first bytes of `out`, shorter lists first and those of
// one length in kind order, with its fault; or a refusal, which writes nothing.
#[tactic(auto, using(crate::proofs::Answers::judge_refused, crate::proofs::Answers::judge_short, crate::proofs::Answers::judge_asks))]
pub fn judge(t: &[u8], out: &mut [u8]) -> Result<Option<FaultyList>, Refusal>
    ensures { Judges state_limit t.now out.old (judging_answer result) out.new }
{
    let table = ReadTable::read(t)?;
    fields::check(2 * table.table.states as usize <= out.len(), Refusal::Room)?;
    Ok(judge_read(&table, out))
}
