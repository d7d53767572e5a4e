// The entries of an exploration: which nodes were met, in the order of meeting, and from which entry and by which kind each was.
// Nodes are the numbers below `NODES`. No function knows what is explored: whatever automaton the entries are read as those of,
// they are afterwards what the definitions make of them (specs/Stored.antt).
#![tactic(auto)]

ghost use Rattle.std.specs.Prelude.{◌≡◌, ◌*◌, ◌≤◌, ◌<◌, [], ◌∷◌, length};
ghost use Rattle.exploring.specs.Stored.{pair_kinds, word_limit, start_entry, EachBelow, Unmarked, MeetAsks, MeetIs, EntryIs, NodeIs, PathIs};

use std::marker::Model;

// How many kinds a pair of entry and kind can tell apart.
const PAIR_KINDS: usize = 8;

// One node met, and the pair of the entry from which and the kind by which it was: 8 * parent + kind, one number, so that an
// entry takes four bytes. As two fields they would make it six, and judging would need more stack than the header says.
#[derive(Clone, Copy)]
pub struct Entry {
    pub node: u16,
    pub pair: u16,
}

// The first entry: node 0, met from nowhere.
const START: Entry = Entry { node: 0, pair: 0 };

// The entries of an exploration, in arrays that fit them all and no `Vec` or map, as the project uses no heap. A node's mark is the
// number of its entry plus one, and 0 where it was not met: an `Option<u16>` would take twice the bytes.
#[derive(Drop)]
pub struct Exploration<const NODES: usize> {
    marks: [u16; NODES],
    entries: [Entry; NODES],
    count: usize,
}

// Clauses see the entries, in the order of meeting.
impl<const NODES: usize> Model for Exploration<NODES> {
    ghost use Rattle.std.specs.Prelude.{List, take};
    ghost use Rattle.exploring.specs.declared.Entry.{Entry};

    ghost Value = { List Entry };

    ghost use Rattle.exploring.specs.Stored.{Kept};

    ghost view = { λ x. take x.count x.entries };

    ghost invariant = { λ x. Kept NODES x.marks x.entries x.count };
}

// Takes back the marks of the nodes of these entries.
fn unmark(marks: &mut [u16], entries: &[Entry])
    requires { EachBelow (length marks.old) entries.now }
    ensures { Unmarked entries.now (length entries.now) marks.old marks.new }
{
    for entry in entries {
        marks[entry.node as usize] = 0;
    }
}

impl<const NODES: usize> Exploration<NODES> {
    // Begins an exploration: node 0 is the only entry.
    pub fn start() -> Self
        requires some { 0 < NODES }
        requires words { pair_kinds * NODES ≤ word_limit }
        ensures { result ≡ start_entry ∷ [] }
    {
        let mut marks = [0; NODES];
        marks[0] = 1;
        Exploration {
            marks,
            entries: [START; NODES],
            count: 1,
        }
    }

    // Begins anew, as `start` does, in the same memory. It costs no more than the exploration before it did, whatever NODES is, since
    // only the marks of the nodes that were met are taken back.
    pub fn restart(&mut self)
        requires { 0 < NODES }
        ensures { self.new ≡ start_entry ∷ [] }
    {
        unmark(&mut self.marks, &self.entries[..self.count]);
        self.marks[0] = 1;
        self.entries[0] = START;
        self.count = 1;
    }

    // The node of entry i. Where there is no such entry, nothing is said of it.
    pub fn entry_node(&self, i: usize) -> usize
        ensures { EntryIs self.now i result }
    {
        self.node(i).unwrap_or(0)
    }

    // The node of entry i, where there is one.
    #[tactic(auto, using(crate::proofs::Meeting::node_there, crate::proofs::Meeting::node_none))]
    pub fn node(&self, i: usize) -> Option<usize>
        ensures { NodeIs self.now i result }
    {
        if i < self.count {
            Some(self.entries[i].node as usize)
        } else {
            None
        }
    }

    // Meets a node, to which a kind led from entry `parent`: one that is new is appended. Answers the node's number, which is
    // how many entries there were exactly where it was new.
    pub fn meet(&mut self, node: usize, parent: usize, kind: u8) -> usize
        requires { MeetAsks NODES self.old node parent kind }
        ensures { MeetIs self.old node parent kind result self.new }
    {
        if let Some(number) = (self.marks[node] as usize).checked_sub(1) {
            return number;
        }
        let number = self.count;
        self.entries[number] = Entry {
            node: node as u16,
            pair: (PAIR_KINDS * parent + kind as usize) as u16,
        };
        self.count = number + 1;
        self.marks[node] = self.count as u16;
        number
    }

    // Writes the path to entry i into the last bytes of `to`, from its last kind on, by the pairs, to the start. Answers where it
    // begins. It goes from parent to parent, which no `for` counts.
    pub fn write_path(&self, i: usize, to: &mut [u8]) -> usize
        requires inside { i < length self.now }
        requires room { i ≤ length to.old }
        ensures { PathIs self.now i to.old result to.new }
    {
        let mut at = to.len();
        let mut j = i;
        while 0 < j {
            let pair = self.entries[j].pair as usize;
            at -= 1;
            to[at] = (pair % PAIR_KINDS) as u8;
            j = pair / PAIR_KINDS;
        }
        at
    }
}
