// What both readers use: a byte or 0, the check of a field, the opening of a file, a kind's shape, the number of a state.
// Each check refuses for the first thing that is wrong: document 01's 'left to right'.
// Beside them stands a copy of bytes, for what is decided in memory of its own and then written.
#![tactic(auto)]

pub mod layout;
pub mod shapes;

ghost use Rattle.std.specs.Prelude.{◌≡◌, ◌+◌, ◌≤◌, ◌++◌, length, get_or, take, drop};
ghost use Rattle.convention.specs.Numbers.{unless};
ghost use Rattle.convention.specs.Results.{refusal_number, number_of};
ghost use Rattle.convention.specs.Layout.{state_length};
ghost use Rattle.convention.specs.Fields.{field_no, length_no, version_of, head_of, head_no, opening_no, is_width, is_modulus, state_field, left_over_no};

use crate::layout::{
    KINDS_COUNT_AT, LENGTH_AT, LENGTH_BYTES, MODULUS_AT, REGISTERS_AT, VERSION_AT, WIDTH_AT,
};
use convention::{Head, Refusal};

// The byte at k, 0 and no `Option` where there is none, as the definitions read a byte (`get_or`).
pub fn byte_at(s: &[u8], k: usize) -> u8
    ensures { result ≡ get_or s.now k 0 }
{
    s.get(k).copied().unwrap_or(0)
}

// Refuses what is not right.
pub fn check(right: bool, wrong: Refusal) -> Result<(), Refusal>
    ensures { number_of result ≡ unless right (refusal_number wrong) }
{
    if right { Ok(()) } else { Err(wrong) }
}

// The field at k: whether it is there, and then whether its value is right.
pub fn check_field(s: &[u8], k: usize, right: bool, wrong: Refusal) -> Result<(), Refusal>
    ensures { number_of result ≡ field_no s.now k right (refusal_number wrong) }
{
    check(k < s.len(), Refusal::Missing)?;
    check(right, wrong)
}

fn is_width(x: u8) -> bool
    ensures { result ≡ is_width x }
{
    matches!(x, 1 | 2 | 4 | 8)
}

pub(crate) fn is_modulus(x: u8) -> bool
    ensures { result ≡ is_modulus x }
{
    matches!(x, 1 | 2 | 4 | 8 | 16)
}

// Number 1. A length that two bytes cannot say is never the field's.
fn check_length(s: &[u8]) -> Result<(), Refusal>
    ensures { number_of result ≡ length_no s.now }
{
    check(LENGTH_BYTES <= s.len(), Refusal::Length)?;
    let follow = u16::from_be_bytes([s[LENGTH_AT], s[LENGTH_AT + 1]]);
    check(follow as usize == s.len() - LENGTH_BYTES, Refusal::Length)
}

// The version byte, whether it is right or not.
pub fn version_of(s: &[u8]) -> u8
    ensures { result ≡ version_of s.now }
{
    byte_at(s, VERSION_AT)
}

// The head's four bytes, whether they are right or not, so it is no `TryFrom`.
pub fn head_of(s: &[u8]) -> Head
    ensures { result ≡ head_of s.now }
{
    Head {
        registers: byte_at(s, REGISTERS_AT),
        width: byte_at(s, WIDTH_AT),
        modulus: byte_at(s, MODULUS_AT),
        kinds: byte_at(s, KINDS_COUNT_AT),
    }
}

// Number 4, or 3, for n, w, A and m in turn.
#[tactic(auto, using(convention::proofs::Results::tests), unfolding(convention::specs::Fields::head_no, convention::specs::Fields::head_of))]
fn check_head(s: &[u8]) -> Result<(), Refusal>
    ensures { number_of result ≡ head_no s.now }
{
    let head = head_of(s);
    check_field(s, REGISTERS_AT, head.registers <= 16, Refusal::Head)?;
    check_field(s, WIDTH_AT, is_width(head.width), Refusal::Head)?;
    check_field(s, MODULUS_AT, is_modulus(head.modulus), Refusal::Head)?;
    check_field(
        s,
        KINDS_COUNT_AT,
        (1 <= head.kinds) & (head.kinds <= 8),
        Refusal::Head,
    )
}

// What a sheet and a table have before their kinds: numbers 1, 2 and 4, or 3.
#[tactic(auto, using(convention::proofs::Results::tests), unfolding(convention::specs::Fields::opening_no))]
pub fn check_opening(s: &[u8]) -> Result<(), Refusal>
    ensures { number_of result ≡ opening_no s.now }
{
    check_length(s)?;
    check_field(s, VERSION_AT, version_of(s) == 1, Refusal::Version)?;
    check_head(s)
}

// The number of states, or of a state, that stands at byte `at`; its bytes are there.
pub fn state_field(version: u8, s: &[u8], at: usize) -> u16
    requires { at + state_length version ≤ length s.now }
    ensures { result ≡ state_field version s.now at }
{
    s[at] as u16
}

// Number 6: bytes left over after the first n.
pub fn check_left_over(s: &[u8], n: usize) -> Result<(), Refusal>
    ensures { number_of result ≡ left_over_no s.now n }
{
    check(s.len() <= n, Refusal::LeftOver)
}

// Copies `from` to the first bytes of `to`; those after them stay. A loop, which becomes a `memcpy`: `copy_from_slice` would ask the
// host for `memmove` too.
pub fn copy(from: &[u8], to: &mut [u8])
    requires { length from.now ≤ length to.old }
    ensures { to.new ≡ take (length from.now) from.now ++ drop (length from.now) to.old }
{
    for i in 0..from.len() {
        to[i] = from[i];
    }
}
