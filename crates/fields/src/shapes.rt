// A kind's shape, which is its size and alignment: reading one, and what it asks of a place, by the rules and by a table alike.
ghost use Rattle.std.specs.Prelude.{◌≡◌, true, ◌+◌, ◌≤◌, length, drop};
ghost use Rattle.convention.specs.Layout.{shape_length};
ghost use Rattle.convention.specs.Results.{number_of};
ghost use Rattle.convention.specs.Fields.{is_width, is_alignment, shape_no, shape_of};
ghost use Rattle.convention.specs.Sheets.{blank_shape};
ghost use Rattle.convention.specs.Shapes.{registers_needed, right_count, stack_bytes};

use crate::layout::{ALIGNMENT_AT, Layout, SIZE_AT};
use convention::{Head, Refusal, Shape};

fn is_alignment(head: Head, x: u8) -> bool
    ensures { result ≡ is_alignment head x }
{
    crate::is_modulus(x) & (x <= head.modulus)
}

// Number 5, or 3, for a kind's size and alignment; s begins at the kind's first byte.
#[tactic(auto, using(convention::proofs::Results::tests), unfolding(convention::specs::Fields::shape_no))]
pub fn check_shape(layout: Layout, s: &[u8]) -> Result<(), Refusal>
    ensures { number_of result ≡ shape_no layout.version layout.head s.now }
{
    let size = crate::byte_at(s, SIZE_AT);
    crate::check_field(s, SIZE_AT, (1 <= size) & (size <= 64), Refusal::Kind)?;
    let aligned = is_alignment(layout.head, crate::byte_at(s, ALIGNMENT_AT));
    crate::check_field(s, ALIGNMENT_AT, aligned, Refusal::Kind)
}

// Both, whether they are right or not.
pub fn shape_of(version: u8, s: &[u8]) -> Shape
    ensures { result ≡ shape_of version s.now }
{
    Shape {
        size: crate::byte_at(s, SIZE_AT),
        alignment: crate::byte_at(s, ALIGNMENT_AT),
    }
}

// The shape whose bytes, which are there, begin at byte `at`: `shape_of` for where no byte can be missing, with no test of that.
pub fn read_shape(version: u8, s: &[u8], at: usize) -> Shape
    requires { at + shape_length version ≤ length s.now }
    ensures { result ≡ shape_of version (drop at s.now) }
{
    Shape {
        size: s[at + SIZE_AT],
        alignment: s[at + ALIGNMENT_AT],
    }
}

// What stands in the place of a shape that a file does not have.
pub fn blank_shape() -> Shape
    ensures { result ≡ blank_shape }
{
    Shape {
        size: 0,
        alignment: 0,
    }
}

// 'A kind needs k registers, size / w rounded up.' A width is a power of two, so the division is a shift: by 0, 1, 2 and 3 for
// the widths 1, 2, 4 and 8, which is w / 2 - w / 8. That a width is one of 01's is asked here and is no type: a head holds it as the
// byte that was read, right or wrong.
pub fn registers_needed(width: u8, shape: Shape) -> u8
    requires { is_width width ≡ true }
    ensures { result ≡ registers_needed width shape }
{
    let shift = width / 2 - width / 8;
    let bytes = shape.size as u32 + width as u32;
    ((bytes - 1) >> shift as u32) as u8
}

// Whether a count of registers is right: they are exactly those that the size needs.
pub fn right_count(width: u8, count: u8, shape: Shape) -> bool
    requires { is_width width ≡ true }
    ensures { result ≡ right_count width count shape }
{
    let needed = registers_needed(width, shape);
    count == needed
}

// How many bytes a kind takes on the stack.
pub fn stack_bytes(shape: Shape) -> u8
    ensures { result ≡ stack_bytes shape }
{
    shape.size
}
