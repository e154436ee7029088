//! Whether the equations of a module have no more instances than a limit.
ghost use Rattle.std.specs.Prelude.{◌≡◌, ◌≤◌, map, nat_le};
ghost use Rattle.pb_bytecode.specs.Limits.{instance_count};
ghost use Rattle.pb_bytecode.specs.Views.{equation_contents};

use crate::equation::Equation;
use pb_sorts::{MAX_NUMBERS, count_tuples};

/// Whether there are no more instances than the limit (B05).
pub(crate) fn has_few_instances(equations: &[Equation], limit: u64) -> bool
    requires { limit ≤ MAX_NUMBERS }
    ensures { result ≡ nat_le (instance_count (map equation_contents equations.now)) limit }
{
    let mut total: u64 = 0;
    for equation in equations {
        let Some(count) = count_tuples(&equation.parameters) else {
            return false;
        };
        total += count;
        if total > limit {
            return false;
        }
    }
    true
}
