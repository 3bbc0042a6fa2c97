//! How many workers judge the candidates of a search.

ghost use Rattle.std.specs.Prelude.{◌≡◌, ◌-◌, max, min};
ghost use Rattle.requests.specs.Defaults.{workers_in};
ghost use Rattle.deals_cli.specs.internal.Ends.{IsWorked};

use boards::Plan;
use requests::Workers;
use std::thread::{self, Threads};

/// Returns how many workers suit a process that may use this many cores: one fewer, so that the
/// writer has one, but 1 to 16.
pub fn workers_for(cores: usize) -> u32
    ensures { result ≡ max 1 (min 16 (cores - 1)) }
{
    cores.saturating_sub(1).clamp(1, 16) as u32
}

/// Returns the plan with as many workers as are asked for, on this machine.
pub(crate) fn worked<R: Threads>(rt: &R, plan: &Plan, asked: Workers) -> Plan
    requires { plan.now.workers ≡ workers_in asked }
    ensures { IsWorked plan.now asked result }
{
    match asked {
        Workers::Number(_) => *plan,
        Workers::Auto => {
            let cores = thread::available_parallelism(rt).map_or(1, |cores| cores.get());
            plan.with_workers(workers_for(cores))
        }
    }
}
