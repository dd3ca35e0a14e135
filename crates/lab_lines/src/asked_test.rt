//! Tests over the signals of an interface.

ghost use Rattle.std.specs.Prelude.{◌≡◌, IsTrue};
ghost use Rattle.std.specs.Option.{MatchOption};
ghost use Rattle.est_kernel.specs.declared.statement.Test.{Test as TestValue};
ghost use Rattle.lab_lines.specs.AskedTests.{Asks, has_test, test_in};

use est_kernel::kernel::Kernel;
use est_kernel::statement::{Statement, Test};

/// A test, as the kernel that asks it and does nothing else.
#[derive(Drop)]
pub struct AskedTest {
    asking: Kernel,
    ghost asks: { IsTrue (has_test asking.root) },
}

/// Whether it asks a test and does nothing else.
fn only_asks(statement: &Statement) -> bool
    ensures asks { IsTrue result → Asks statement.now (test_in statement.now) }
    ensures has { IsTrue result → IsTrue (has_test statement.now) }
    ensures every { (test : TestValue) → Asks statement.now test → IsTrue result }
{
    match statement {
        Statement::Present(_, then, other) => {
            matches!(**then, Statement::Nothing) && matches!(**other, Statement::Nothing)
        }
        _ => false,
    }
}

impl AskedTest {
    /// The test that a kernel asks, if it asks one and does nothing else.
    pub fn of(asking: Kernel) -> Option<AskedTest>
        ensures { MatchOption result ((test : TestValue) → Asks asking.root test → ⊥)
            (λ a. (a.asking ≡ asking) × Asks a.asking.root (test_in a.asking.root)) }
    {
        if only_asks(asking.root()) {
            Some(AskedTest { asking })
        } else {
            None
        }
    }

    /// The test.
    pub fn test(&self) -> &Test
        ensures { result.now ≡ test_in self.now.asking.root }
    {
        match self.asking.root() {
            Statement::Present(test, _, _) => test,
            _ => unreachable!(),
        }
    }
}
