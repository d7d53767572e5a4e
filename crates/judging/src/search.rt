// The search for the first faulty kind of the walk that watches a register, or nothing: breadth first over the nodes, in the
// order of meeting, and at each node the kinds in order.
ghost use Rattle.judging.specs.Searched.{ThroughAsks, ThroughIs, SearchAsks, SearchIs};

use crate::steps::Watching;
use crate::{NODE_LIMIT, steps};
use exploring::Exploration;
use table::ReadTable;
use walking::Step;

// Goes through the kinds from entry i, whose node it is, up to the first that is faulty, which it answers, and meets where they
// lead.
fn go_through(
    table: &ReadTable<'_>,
    watching: Watching,
    exploration: &mut Exploration<NODE_LIMIT>,
    i: usize,
    node: usize,
) -> Option<u8>
    requires { ThroughAsks table.now.table table.now.bytes.now watching.watch i node exploration.old }
    ensures { ThroughIs table.now.table table.now.bytes.now watching.watch i result exploration.new }
{
    let state = (node / 2) as u16;
    let given = node % 2 == 1;
    for k in 0..table.table.head.kinds {
        let step = Step::of(table, state, k);
        match steps::take(step, watching, given) {
            Ok(next) => exploration.meet(next, i, k),
            Err(_) => return Some(k),
        };
    }
    None
}

// What the search found: an entry and its first faulty kind.
#[derive(Clone, Copy)]
pub(crate) struct Found {
    pub(crate) entry: usize,
    pub(crate) kind: u8,
}

// Searches the nodes of a watched walk, from the start on, for its first faulty kind, and stops there. (The table, what is watched and
// the exploration go side by side to three functions alone.)
pub(crate) fn search(
    table: &ReadTable<'_>,
    watching: Watching,
    exploration: &mut Exploration<NODE_LIMIT>,
) -> Option<Found>
    requires { SearchAsks table.now.table table.now.bytes.now watching.watch exploration.old }
    ensures { SearchIs table.now.table table.now.bytes.now watching.watch result exploration.new }
{
    let nodes = 2 * table.table.states as usize;
    for i in 0..nodes {
        // No entry i: all nodes that are reached were gone through, and nothing is found.
        let node = exploration.node(i)?;
        if let Some(kind) = go_through(table, watching, exploration, i, node) {
            return Some(Found { entry: i, kind });
        }
    }
    None
}
