// A list of kinds that was found, and which of two is before the other.
ghost use Rattle.std.specs.Prelude.{◌≡◌, ◌≤◌, ◌<◌, length, drop};
ghost use Rattle.judging.specs.Limits.{node_limit};
ghost use Rattle.judging.specs.Listed.{FoundIs, CompareIs, KeepIs};

use crate::NODE_LIMIT;
use crate::search::Found;
use exploring::Exploration;
use std::marker::Model;

// A list of kinds, from byte `from` on. An array that fits every list and no `Vec`, as the project uses no heap.
#[derive(Drop)]
pub(crate) struct List {
    kinds: [u8; NODE_LIMIT],
    from: usize,
}

// Clauses see the kinds.
impl Model for List {
    ghost use Rattle.std.specs.Prelude.{ℕ, ◌≤◌, List, drop};
    ghost use Rattle.judging.specs.Limits.{node_limit};

    ghost Value = { List ℕ };

    ghost view = { λ l. drop l.from l.kinds };

    ghost invariant = { λ l. l.from ≤ node_limit };
}

impl List {
    pub(crate) fn as_slice(&self) -> &[u8]
        ensures { result.now ≡ self.now }
    {
        &self.kinds[self.from..]
    }

    // Whether it is before another: shorter, or as long and earlier in kind order.
    fn is_before(&self, other: &List) -> bool
        ensures { CompareIs self.now other.now result }
    {
        let kinds = self.as_slice();
        let others = other.as_slice();
        let lengths = kinds.len().cmp(&others.len());
        lengths.then(kinds.cmp(others)).is_lt()
    }
}

// Writes the kinds that led to the entry that was found, and then its faulty kind, into the last bytes of `to`. Answers where they
// begin.
fn write(exploration: &Exploration<NODE_LIMIT>, found: Found, to: &mut [u8; NODE_LIMIT]) -> usize
    requires there { found.entry < length exploration.now }
    requires room { found.entry < node_limit }
    ensures within { result ≤ node_limit }
    ensures long { length to.new ≡ node_limit }
    ensures found { FoundIs exploration.now found.entry found.kind (drop result to.new) }
{
    let last = NODE_LIMIT - 1;
    let from = exploration.write_path(found.entry, &mut to[..last]);
    to[last] = found.kind;
    from
}

// Makes the kinds that led to the entry that was found, and then its faulty kind, the best list, where there is none or they are
// before it. The best is lent and not handed on, since each copy of a list would take 400 bytes of stack.
pub(crate) fn keep_better(
    best: &mut Option<List>,
    exploration: &Exploration<NODE_LIMIT>,
    found: Found,
)
    requires there { found.entry < length exploration.now }
    requires room { found.entry < node_limit }
    ensures { KeepIs exploration.now found.entry found.kind best.old best.new }
{
    let mut list = List {
        kinds: [0; NODE_LIMIT],
        from: 0,
    };
    list.from = write(exploration, found, &mut list.kinds);
    let better = match best {
        Some(best) => list.is_before(best),
        None => true,
    };
    if better {
        *best = Some(list);
    }
}
