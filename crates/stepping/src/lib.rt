// What placing by the rules and placing by a table have in common: sets and runs of registers, the least offset, the tests of a
// list's length, room and kinds, what places lists and how that is decided and written, a placement's record, and what a placement
// takes.
#![tactic(auto)]

ghost use Rattle.std.specs.Prelude.{ℕ, ◌≡◌, ◌+◌, ◌*◌, ◌%◌, ◌≤◌, ◌<◌, ◌^◌, true, leb, length, position};
ghost use Rattle.convention.specs.Fields.{is_modulus};
ghost use Rattle.convention.specs.Offsets.{IsLeast, least_offset};
ghost use Rattle.convention.specs.Bytes.{written};
ghost use Rattle.convention.specs.Lists.{Steps, record_length, list_no, record_of};
ghost use Rattle.convention.specs.Results.{number_of};
ghost use Rattle.convention.specs.Rules.{free_run, mark_run, place_taken, place_p};
ghost use Rattle.convention.specs.Numbers.{argument_limit};
ghost use Rattle.stepping.specs.Ends.{run_end, stack_end};
ghost use Rattle.stepping.specs.Sets.{set_of, run_bits};
ghost use Rattle.stepping.specs.Walks.{ListTested, WalkAsks, WalkMakes, RecordsRoom, DecidedIs, PlacingIs};

use convention::{
    ARGUMENT_LIMIT, Offset, Placed, Placement, PlacementParts, RECORD_LENGTH, Refusal, Reg,
    Unplaced,
};

// The most arguments of a list that counts as short. To clear the memory for the records of any list would take longer
// than to place a short one.
pub const SHORT_LIST: usize = 32;

// How long the memory for the records of a short list is.
const SHORT_RECORDS: usize = RECORD_LENGTH * SHORT_LIST;

// How long the memory for the records of any list that a call places is.
const LONG_RECORDS: usize = RECORD_LENGTH * ARGUMENT_LIMIT;

// The set of the `count` registers from `first` on, a bit for each. A set is a number and no type of its own: crates/certifying keeps
// marks above its bits, and a type would be taken apart for each `|` and `&`, which are the library's.
pub fn run(first: Reg, count: u8) -> u32
    requires { first.0 + count ≤ 16 }
    ensures { result ≡ run_bits first.0 count }
{
    let at = first.0 as u32;
    ((1u32 << count as u32) - 1) << at
}

// Whether the run of `count` registers from `first` on is wholly available, where the registers of `taken` are not. That a run ends
// within the sixteen is asked of its two numbers and is no type: a sheet and a table have them as bytes, which their readers test.
pub fn free_run(taken: u32, first: Reg, count: u8) -> bool
    requires { first.0 + count ≤ 16 }
    ensures { result ≡ free_run (set_of 16 taken) first.0 count }
{
    taken & run(first, count) == 0
}

// `taken` with the run of `count` registers from `first` on taken too.
pub fn mark_run(taken: u32, first: Reg, count: u8) -> u32
    requires { first.0 + count ≤ 16 }
    ensures { set_of 16 result ≡ mark_run (set_of 16 taken) first.0 count }
{
    taken | run(first, count)
}

// The remainder of `x` by a modulus, which is a power of two: what a mask keeps. It is asked and no type: a head holds the byte that
// was read, right or wrong, and of the crates above building alone asks for it more than once.
pub fn remainder(x: u32, modulus: u32) -> u32
    requires { is_modulus modulus ≡ true }
    ensures { result ≡ x % modulus }
{
    x & (modulus - 1)
}

// The least offset, at least `p`, whose remainder by `modulus` is `residue`. It lies less than sixteen bytes after `p`, and that is
// the room that it asks for.
#[tactic(auto, using(crate::proofs::Offsets::sum_is, crate::proofs::Offsets::sum_least))]
pub fn least_offset(modulus: u8, residue: u8, p: Offset) -> Offset
    requires { (is_modulus modulus ≡ true) × (residue < modulus) × (p.0 + 16 < 2 ^ 32) }
    ensures result_value { result.0 ≡ least_offset modulus residue p.0 }
    ensures least { IsLeast modulus residue p.0 result.0 }
{
    let m = modulus as u32;
    let r = residue as u32;
    Offset(p.0 + remainder(m + r - remainder(p.0, m), m))
}

// Refuses a list of so many arguments with so much room, before its kinds are looked at: 8 where there are more than a call
// places, then 12 where their records have no room.
#[tactic(auto, using(convention::proofs::Results::tests, crate::proofs::Calls::divided))]
fn check_size(arguments: usize, room: usize) -> Result<(), Refusal>
    ensures { number_of result ≡ list_no argument_limit arguments room }
{
    fields::check(arguments <= ARGUMENT_LIMIT, Refusal::Arguments)?;
    fields::check(arguments <= room / RECORD_LENGTH, Refusal::Room)
}

// The first position of a kind number of `kinds` or more.
fn unknown_at(kinds: u8, list: &[u8]) -> Option<usize>
    ensures { result ≡ position (leb kinds) list.now }
{
    list.iter().position(|&kind| kinds <= kind)
}

// Tests a list before it is placed, in 01's order: 8, 12, 9. A list that passes has known kinds alone, is short enough, and
// its records have room.
#[tactic(auto, using(crate::proofs::Calls::tested_list, crate::proofs::Calls::tested_unknown, crate::proofs::Calls::tested_known))]
pub fn test_list(kinds: u8, list: &[u8], room: usize) -> Result<(), Unplaced>
    ensures { ListTested argument_limit kinds list.now room result }
{
    check_size(list.len(), room)?;
    match unknown_at(kinds, list) {
        Some(at) => Err(Unplaced::Unknown(at)),
        None => Ok(()),
    }
}

// What places lists: a sheet that was read, by its rules, or a table. All that `decide` and `place_list` promise of it is said by
// its number of kinds and its way of placing.
pub trait Placer {
    ghost kind_count: { Self → ℕ };

    ghost way: { Self → Steps };

    // How many kinds it has.
    fn kinds(&self) -> u8
        ensures { result ≡ kind_count self.now };

    // Goes through a list of known kinds up to its first faulty step, and makes the records of the arguments before it in
    // `records`. Answers the final p, or that step's position and fault.
    fn walk(&self, list: &[u8], records: &mut [u8]) -> Result<Offset, Unplaced>
        requires { WalkAsks (kind_count self.now) list.now (length records.old) }
        ensures { WalkMakes (way self.now) list.now records.old result records.new };
}

// Decides how a list is placed, with so much room for its records: the answer, in 01's order of refusals, 8, 12, 9, 10; and the
// records, where it is success, in the first bytes of `records`, which a refusal may have written to.
pub fn decide<P: Placer>(
    placer: &P,
    list: &[u8],
    room: usize,
    records: &mut [u8],
) -> Result<Placed, Unplaced>
    requires { RecordsRoom argument_limit list.now room (length records.old) }
    ensures { DecidedIs argument_limit (P.kind_count placer.now) (P.way placer.now) list.now room result records.new }
{
    test_list(placer.kinds(), list, room)?;
    let p = placer.walk(list, records)?;
    Ok(Placed {
        arguments: list.len(),
        p,
    })
}

// Places a list: it is decided in `records`, and the records of a list that is placed are copied to `out`. (The placer, the list and
// the output are handed on as the call got them.)
#[tactic(auto, using(crate::proofs::Calls::list_unwritten))]
fn place_in<P: Placer>(
    placer: &P,
    list: &[u8],
    records: &mut [u8],
    out: &mut [u8],
) -> Result<Placed, Unplaced>
    requires { RecordsRoom argument_limit list.now (length out.old) (length records.old) }
    ensures { PlacingIs argument_limit (P.kind_count placer.now) (P.way placer.now) list.now out.old result out.new }
{
    let placed = decide(placer, list, out.len(), records)?;
    fields::copy(&records[..RECORD_LENGTH * placed.arguments], out);
    Ok(placed)
}

// Places a list, with N bytes of memory for its records, which are no more than those of the longest list.
fn place_with<P: Placer, const N: usize>(
    placer: &P,
    list: &[u8],
    out: &mut [u8],
) -> Result<Placed, Unplaced>
    requires records_room { RecordsRoom argument_limit list.now (length out.old) N }
    requires most { N ≤ record_length * argument_limit }
    ensures { PlacingIs argument_limit (P.kind_count placer.now) (P.way placer.now) list.now out.old result out.new }
{
    let mut records = [0u8; N];
    place_in(placer, list, &mut records, out)
}

// Places a list: the records in the first bytes of `out`, or a refusal that writes nothing.
pub fn place_list<P: Placer>(placer: &P, list: &[u8], out: &mut [u8]) -> Result<Placed, Unplaced>
    ensures { PlacingIs argument_limit (P.kind_count placer.now) (P.way placer.now) list.now out.old result out.new }
{
    if list.len() <= SHORT_LIST {
        return place_with::<P, SHORT_RECORDS>(placer, list, out);
    }
    place_with::<P, LONG_RECORDS>(placer, list, out)
}

// Writes the six bytes of a placement's record from byte `at` on.
#[tactic(auto, using(crate::proofs::Records::record_stored))]
pub fn write_record(place: Placement, out: &mut [u8], at: usize)
    requires { at + record_length ≤ length out.old }
    ensures { out.new ≡ written out.old at (record_of place) }
{
    let parts = PlacementParts::from(place);
    let [first, second, third, fourth] = parts.number.to_be_bytes();
    out[at] = parts.form;
    out[at + 1] = first;
    out[at + 2] = second;
    out[at + 3] = third;
    out[at + 4] = fourth;
    out[at + 5] = parts.count;
}

// The registers that are taken once `place` was given: those of its run too.
pub fn place_taken(place: Placement, taken: u32) -> u32
    requires { run_end place ≤ 16 }
    ensures { set_of 16 result ≡ place_taken place (set_of 16 taken) }
{
    match place {
        Placement::Registers(first, count) => mark_run(taken, first, count),
        Placement::Stack(_, _) | Placement::Nowhere => taken,
    }
}

// Where the stack goes on once `place` was given: after its stack bytes, or at `p` as before.
pub fn place_p(place: Placement, p: Offset) -> Offset
    requires { stack_end place < 2 ^ 32 }
    ensures { result ≡ place_p place p }
{
    match place {
        Placement::Stack(offset, count) => Offset(offset.0 + count as u32),
        Placement::Registers(_, _) | Placement::Nowhere => p,
    }
}
