// Reads a rule sheet: document 01, 'Bytes of a sheet and of a table'. What is wrong is found
// first; the values are taken only from a sheet of which nothing is wrong. Each kind is parsed from the part of the sheet
// that starts at its first byte.
#![tactic(auto)]

ghost use Rattle.std.specs.Prelude.{◌≡◌, true, ◌++◌, ◌+◌, ◌-◌, ◌≤◌, IfOk, length, take, drop, replicate};
ghost use Rattle.convention.specs.Results.{number_of, sheet_answer};
ghost use Rattle.convention.specs.Layout.{kinds_at};
ghost use Rattle.convention.specs.Fields.{is_width};
ghost use Rattle.convention.specs.Sheets.{sheet_kind_length, starts_no, sheet_kind_no, sheet_kind_of, sheet_kinds_no, sheet_kinds_of, sheet_kind_at, sheet_no, sheet_of, blank_kind, read_sheet};
ghost use Rattle.sheet.specs.Kinds.{HeadThere, KindWhole, KindsRight, KindThere};

use convention::{KIND_LIMIT, Refusal, Sheet, SheetKind};
use fields::layout::{KINDS_AT, Layout};
use fields::{layout, shapes};

// Checks so many starts of a kind, from byte `first` on: 5, or 3, for the first that is wrong or missing.
fn check_starts(registers: u8, needed: u8, s: &[u8], first: usize, tries: u8) -> Result<(), Refusal>
    requires { first ≤ 257 }
    ensures { number_of result ≡ starts_no registers needed s.now first tries }
{
    for at in first..first + tries as usize {
        let start = fields::byte_at(s, at);
        let fits = start as u16 + needed as u16 <= registers as u16;
        fields::check_field(s, at, fits, Refusal::Kind)?;
    }
    Ok(())
}

// Checks one kind; s is the rest of the sheet from its first byte on.
#[tactic(auto, using(convention::proofs::Results::tests), unfolding(convention::specs::Sheets::sheet_kind_no))]
fn check_kind(layout: Layout, s: &[u8]) -> Result<(), Refusal>
    requires { is_width layout.head.width ≡ true }
    ensures { number_of result ≡ sheet_kind_no layout.version layout.head s.now }
{
    let Layout { version, head } = layout;
    shapes::check_shape(layout, s)?;
    let flags_at = layout::flags_at(version);
    fields::check_field(
        s,
        flags_at,
        fields::byte_at(s, flags_at) <= 3,
        Refusal::Kind,
    )?;
    let tries_at = layout::tries_at(version);
    let tries = fields::byte_at(s, tries_at);
    fields::check_field(s, tries_at, tries <= 16, Refusal::Kind)?;
    let needed = shapes::registers_needed(head.width, shapes::shape_of(version, s));
    check_starts(head.registers, needed, s, layout::starts_at(version), tries)
}

// How many bytes a kind takes; s begins at its first byte.
fn kind_length(version: u8, s: &[u8]) -> usize
    ensures value { result ≡ sheet_kind_length version s.now }
    ensures upper_bound { result ≤ 512 }
{
    let tries = fields::byte_at(s, layout::tries_at(version));
    layout::starts_at(version) + tries as usize
}

// Checks the kinds of a sheet that is at least as long as its head. Answers where the last one ends. The table reader has a like
// loop: a trait over both kinds of file would be no plainer, since each has its definitions (`sheet_kinds_no`, `table_kinds_no`),
// and where a sheet's kind ends is said by its own bytes.
fn check_kinds(layout: Layout, s: &[u8]) -> Result<usize, Refusal>
    requires { HeadThere layout.head s.now }
    ensures first { number_of result ≡ sheet_kinds_no layout.version layout.head (drop kinds_at s.now) layout.head.kinds }
    ensures ends { IfOk result (λ end. end ≡ sheet_kind_at layout.version s.now layout.head.kinds) }
{
    let mut at = KINDS_AT;
    for _ in 0..layout.head.kinds {
        let rest = &s[at..];
        check_kind(layout, rest)?;
        at += kind_length(layout.version, rest);
    }
    Ok(at)
}

// So many starts of a kind that is right, from byte `first` on, in an array of sixteen.
fn starts_of(s: &[u8], first: usize, tries: u8) -> [u8; 16]
    requires { (tries ≤ 16) × (first + tries ≤ length s.now) }
    ensures { result ≡ take tries (drop first s.now) ++ replicate (16 - tries) 0 }
{
    let mut starts = [0u8; 16];
    fields::copy(&s[first..first + tries as usize], &mut starts);
    starts
}

// The values of a kind that is right; s begins at its first byte.
#[tactic(auto, unfolding(convention::specs::Sheets::sheet_kind_of))]
fn kind_of(version: u8, s: &[u8]) -> SheetKind
    requires { KindWhole version s.now }
    ensures { result ≡ sheet_kind_of version s.now }
{
    let tries = fields::byte_at(s, layout::tries_at(version));
    let starts = starts_of(s, layout::starts_at(version), tries);
    let shape = shapes::shape_of(version, s);
    let flags = fields::byte_at(s, layout::flags_at(version));
    SheetKind {
        shape,
        flags,
        tries,
        starts,
    }
}

// What stands in the place of a kind that a sheet does not have.
fn blank_kind() -> SheetKind
    ensures { result ≡ blank_kind }
{
    let shape = shapes::blank_shape();
    SheetKind {
        shape,
        flags: 0,
        tries: 0,
        starts: [0u8; 16],
    }
}

// Eight blank kinds, to be filled.
fn blank_kinds() -> [SheetKind; KIND_LIMIT]
    ensures { result ≡ replicate 8 blank_kind }
{
    let blank = blank_kind();
    [blank; KIND_LIMIT]
}

// The kinds of a sheet of which nothing is wrong, in an array of eight, as the project uses no heap; a table's are another definition.
fn kinds_of(layout: Layout, s: &[u8]) -> [SheetKind; KIND_LIMIT]
    requires { KindsRight layout.version layout.head s.now }
    ensures { result ≡ sheet_kinds_of layout.version (drop kinds_at s.now) layout.head.kinds ++ replicate (8 - layout.head.kinds) blank_kind }
{
    let mut kinds = blank_kinds();
    let mut at = KINDS_AT;
    for i in 0..layout.head.kinds {
        let rest = &s[at..];
        kinds[i as usize] = kind_of(layout.version, rest);
        at += kind_length(layout.version, rest);
    }
    kinds
}

// Checks a whole sheet: the first thing that is wrong with it.
#[tactic(auto, using(convention::proofs::Results::tests), unfolding(convention::specs::Sheets::sheet_no))]
fn check_sheet(s: &[u8]) -> Result<(), Refusal>
    ensures { number_of result ≡ sheet_no s.now }
{
    fields::check_opening(s)?;
    let end = check_kinds(Layout::of(s), s)?;
    fields::check_left_over(s, end)
}

// The fields of a sheet that can be read.
#[tactic(auto, using(crate::proofs::Whole::read_right), unfolding(convention::specs::Sheets::sheet_of))]
fn sheet_of(s: &[u8]) -> Sheet
    requires { sheet_no s.now ≡ 0 }
    ensures { result ≡ sheet_of s.now }
{
    let layout = Layout::of(s);
    let kinds = kinds_of(layout, s);
    Sheet {
        version: layout.version,
        head: layout.head,
        kinds,
    }
}

// Reads a sheet: every field of the head and the kinds, starts included, or the refusal. Like a table's reader, over definitions of
// its own (`read_sheet`).
#[tactic(auto, using(crate::proofs::Whole::answer_read, crate::proofs::Whole::answer_refused))]
pub fn read_sheet(s: &[u8]) -> Result<Sheet, Refusal>
    ensures { sheet_answer result ≡ read_sheet s.now }
{
    check_sheet(s)?;
    Ok(sheet_of(s))
}

// Where kind k stands in a sheet of this version that was read and has it: after the kinds before it, each as long as its
// number of starts says.
pub fn kind_at(version: u8, s: &[u8], k: usize) -> usize
    requires { KindThere version s.now k }
    ensures { result ≡ sheet_kind_at version s.now k }
{
    let mut at = KINDS_AT;
    for _ in 0..k {
        at += kind_length(version, &s[at..]);
    }
    at
}
