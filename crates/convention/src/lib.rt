// The words of document 01: registers and offsets, the placement, heads and kinds, the states, and the answer of each call.
// Types, and what is read off one of them alone. What they mean stands in specs/, section by section; the laws of those
// definitions stand in proofs/.
#![tactic(auto)]

ghost use Rattle.std.specs.Prelude.{◌≡◌};
ghost use Rattle.convention.specs.Results.{refusal_number, fault_number};

// The most states of a table: the definition `state_limit`.
pub const STATE_LIMIT: usize = 200;

// The most kinds of a sheet or a table.
pub const KIND_LIMIT: usize = 8;

// The most arguments that a call places: `argument_limit`.
pub const ARGUMENT_LIMIT: usize = 400;

// How many bytes a placement's record has: `record_length`.
pub const RECORD_LENGTH: usize = 6;

// A register's number. Never an offset.
#[derive(Clone, Copy)]
pub struct Reg(pub u8);

// A byte offset on the stack. Never a register's number.
#[derive(Clone, Copy)]
pub struct Offset(pub u32);

// Where one argument goes: registers with a first and a count, stack with an offset and a count, or nowhere.
#[derive(Clone, Copy)]
pub enum Placement {
    Registers(Reg, u8),
    Stack(Offset, u8),
    Nowhere,
}

// What a placement is made of: its form, 1 for registers, 2 for the stack and 0 for nowhere; its first register or its offset; its
// count. The form is a number and no enum, as the record says it and `parts_of` defines it.
#[derive(Clone, Copy)]
pub struct PlacementParts {
    pub form: u8,
    pub number: u32,
    pub count: u8,
}

impl From<Placement> for PlacementParts {
    ghost use Rattle.std.specs.Prelude.{◌<◌};
    ghost use Rattle.convention.specs.Lists.{parts_of};

    // That a first register is a byte is said here, since its number has room for an offset.
    ghost from_gives = { λ place parts. (parts ≡ parts_of place) × ((parts.form ≡ 2 → ⊥) → parts.number < 256) };

    fn from(place: Placement) -> PlacementParts {
        match place {
            Placement::Registers(first, count) => PlacementParts {
                form: 1,
                number: first.0 as u32,
                count,
            },
            Placement::Stack(offset, count) => PlacementParts {
                form: 2,
                number: offset.0,
                count,
            },
            Placement::Nowhere => PlacementParts {
                form: 0,
                number: 0,
                count: 0,
            },
        }
    }
}

// The head of a sheet or a table: n, w, A and m.
#[derive(Clone, Copy)]
pub struct Head {
    pub registers: u8,
    pub width: u8,
    pub modulus: u8,
    pub kinds: u8,
}

// What both files say of a kind: its size and its alignment. It is all that a table says of one.
#[derive(Clone, Copy)]
pub struct Shape {
    pub size: u8,
    pub alignment: u8,
}

// A sheet's kind. Of `starts` the first `tries` count; the others are 0. The flags stay a number, as the definitions have them
// (`sheet_kind_of`), and so does the number of starts beside them.
#[derive(Clone, Copy)]
pub struct SheetKind {
    pub shape: Shape,
    pub flags: u8,
    pub tries: u8,
    pub starts: [u8; 16],
}

impl SheetKind {
    ghost use Rattle.convention.specs.Sheets.{may_use_stack, is_closing};

    // Whether it may use the stack: flag 1.
    pub fn may_use_stack(&self) -> bool
        ensures { result ≡ may_use_stack self.now }
    {
        self.flags % 2 == 1
    }

    // Whether it is closing: flag 2.
    pub fn is_closing(&self) -> bool
        ensures { result ≡ is_closing self.now }
    {
        2 <= self.flags
    }
}

// A sheet that was read. Of `kinds` the first m count; the others are blank.
#[derive(Clone, Copy)]
pub struct Sheet {
    pub version: u8,
    pub head: Head,
    pub kinds: [SheetKind; KIND_LIMIT],
}

// A table that was read, but for its rows, which stay in the caller's bytes. Of `kinds` the first m count.
#[derive(Clone, Copy)]
pub struct Table {
    pub version: u8,
    pub head: Head,
    pub kinds: [Shape; KIND_LIMIT],
    pub states: u16,
}

// One transition of a table, as its bytes say it. Its form is a number and no enum, since a byte may say any: `is_transition` and
// `table_fault` are asked of every form, and so is the promise of `walking::Step::check`.
#[derive(Clone, Copy)]
pub struct Transition {
    pub form: u8,
    pub a: u8,
    pub b: u8,
    pub next: u16,
}

// An allocation state: the set of unavailable registers with p mod A.
#[derive(Clone, Copy)]
pub struct Allocation {
    pub unavailable: [bool; 16],
    pub remainder: u8,
}

// How far placing by the rules has come, as the definitions have it: the set of unavailable registers, and p.
#[derive(Clone, Copy)]
pub struct ByRules {
    pub unavailable: [bool; 16],
    pub p: Offset,
}

// How far placing by a table has come, as the definitions have it: the state, the registers given to earlier arguments, and p.
#[derive(Clone, Copy)]
pub struct ByTable {
    pub state: u16,
    pub given: [bool; 16],
    pub p: Offset,
}

// Why a call refuses what it was given: one for each of document 01's numbers but 9 and 10, which `Unplaced` has.
#[derive(Clone, Copy, Debug, PartialEq, Eq)]
pub enum Refusal {
    // Fewer than two bytes, or a length field that is not the count of the bytes after it.
    Length = 1,
    // A version that is not 1.
    Version = 2,
    // A byte is missing.
    Missing = 3,
    // n, w, A, m or N outside its values.
    Head = 4,
    // A kind's field outside its values.
    Kind = 5,
    // Bytes left over.
    LeftOver = 6,
    // A transition outside its values.
    Transition = 7,
    // More arguments than a call places.
    Arguments = 8,
    // Lists of the sheet's kinds reach more allocation states than a table may have.
    States = 11,
    // The lent output is shorter than needed.
    Room = 12,
    // A row asked of a state of N or more.
    Row = 13,
}

impl Refusal {
    // Its number: `refusal_number`.
    pub fn number(self) -> u8
        ensures { result ≡ refusal_number self }
    {
        self as u8
    }
}

// What is wrong with a step: document 01's faults.
#[derive(Clone, Copy, Debug, PartialEq, Eq)]
pub enum Fault {
    // There is no place.
    NoPlace = 1,
    // A register of the run was given to an earlier argument.
    GivenTwice = 2,
    // Not the registers, or not the stack bytes, that the kind's size needs.
    WrongCount = 3,
    // A residue that is no multiple of the alignment.
    Misaligned = 4,
}

impl Fault {
    // Its number: `fault_number`.
    pub fn number(self) -> u8
        ensures { result ≡ fault_number self }
    {
        self as u8
    }
}

// A list that was placed: the number of its arguments and the final p.
#[derive(Clone, Copy)]
pub struct Placed {
    pub arguments: usize,
    pub p: Offset,
}

// Why a list was not placed: a refusal; or an unknown kind, number 9, with its position; or a faulty step, number 10, with its
// position and fault.
#[derive(Clone, Copy)]
pub enum Unplaced {
    Refused(Refusal),
    Unknown(usize),
    Faulty(usize, Fault),
}

impl From<Refusal> for Unplaced {
    ghost use Rattle.convention.specs.declared.Unplaced.TheVariants.{Refused};

    ghost from_gives = { λ refusal unplaced. unplaced ≡ Refused refusal };

    fn from(refusal: Refusal) -> Unplaced {
        Unplaced::Refused(refusal)
    }
}

// A table that was built: N and its length.
#[derive(Clone, Copy)]
pub struct Built {
    pub states: u16,
    pub length: usize,
}

// A list that goes wrong: the fault of its first faulty step, and how many kinds it has.
#[derive(Clone, Copy)]
pub struct FaultyList {
    pub fault: Fault,
    pub kinds: usize,
}
