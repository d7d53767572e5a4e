// One step by a table: its fault, its place, and what it gives. Document 01, 'Placing by a table'. No fault depends on p.
ghost use Rattle.std.specs.Prelude.{◌≡◌, ◌+◌, ◌≤◌};
ghost use Rattle.stepping.specs.Sets.{set_of};
ghost use Rattle.walking.specs.TableSteps.{FaultAsks, given_after};

use convention::{Fault, Head, Offset, Placement, Reg, Shape, Transition};
use fields::shapes;
use table::ReadTable;

// The step of a kind of this shape by a transition, of a table with this head: what its fault and its place are decided by. Its
// width and its alignment are such as 01 allows, and a run that it gives ends within the sixteen registers.
#[derive(Clone, Copy)]
pub struct Step {
    pub head: Head,
    pub shape: Shape,
    pub x: Transition,
    pub ghost asks: { FaultAsks head shape x },
}

impl Step {
    ghost use Rattle.convention.specs.Results.{fault_of};
    ghost use Rattle.convention.specs.Walked.{registers_fault, stack_fault, table_place, table_fault};
    ghost use Rattle.table.specs.Within.{InTable};
    ghost use Rattle.walking.specs.TableSteps.{PlaceAsks};
    ghost use Rattle.walking.specs.Steps.{StepOf};

    // The step of a kind at a state, which the table has.
    pub fn of(table: &ReadTable<'_>, state: u16, kind: u8) -> Step
        requires { InTable table.now.table state kind }
        ensures { StepOf table.now.table table.now.bytes.now state kind result }
    {
        Step {
            head: table.table.head,
            shape: table.kind(kind),
            x: table.transition(state, kind),
        }
    }

    // Faults 2 and 3 of a step that gives registers.
    fn check_registers(self, given: u32) -> Result<(), Fault>
        requires { self.x.form ≡ 1 }
        ensures { fault_of result ≡ registers_fault self.head self.shape self.x (set_of 16 given) }
    {
        if !stepping::free_run(given, Reg(self.x.a), self.x.b) {
            return Err(Fault::GivenTwice);
        }
        if !shapes::right_count(self.head.width, self.x.b, self.shape) {
            return Err(Fault::WrongCount);
        }
        Ok(())
    }

    // Faults 3 and 4 of a step on the stack.
    fn check_stack(self) -> Result<(), Fault>
        ensures { fault_of result ≡ stack_fault self.shape self.x }
    {
        if self.x.b != shapes::stack_bytes(self.shape) {
            return Err(Fault::WrongCount);
        }
        if stepping::remainder(self.x.a as u32, self.shape.alignment as u32) != 0 {
            return Err(Fault::Misaligned);
        }
        Ok(())
    }

    // Checks the step where the registers of `given` were given: its fault is the first that applies. By the form's number, as
    // `table_fault` is of every form that a byte may say; and so `place` and `give`.
    #[tactic(auto, unfolding(convention::specs::Walked::table_fault))]
    pub fn check(self, given: u32) -> Result<(), Fault>
        ensures { fault_of result ≡ table_fault self.head self.shape self.x (set_of 16 given) }
    {
        match self.x.form {
            1 => self.check_registers(given),
            2 => self.check_stack(),
            _ => Err(Fault::NoPlace),
        }
    }

    // The place that the step gives from p on.
    pub(crate) fn place(self, p: Offset) -> Placement
        requires { PlaceAsks self.head self.x p.0 }
        ensures { result ≡ table_place self.head self.x p.0 }
    {
        match self.x.form {
            1 => Placement::Registers(Reg(self.x.a), self.x.b),
            2 => Placement::Stack(
                stepping::least_offset(self.head.modulus, self.x.a, p),
                self.x.b,
            ),
            _ => Placement::Nowhere,
        }
    }

    // The registers that are given once the step was taken: `give`.
    pub fn give(self, given: u32) -> u32
        ensures { set_of 16 result ≡ given_after self.x (set_of 16 given) }
    {
        give(self.x, given)
    }
}

// The registers that are given once a step by this transition was taken: those of its run too, where its form is 1. It asks for
// less than a `Step` knows, so it stands beside it.
pub fn give(x: Transition, given: u32) -> u32
    requires { x.form ≡ 1 → x.a + x.b ≤ 16 }
    ensures { set_of 16 result ≡ given_after x (set_of 16 given) }
{
    if x.form == 1 {
        return stepping::mark_run(given, Reg(x.a), x.b);
    }
    given
}
