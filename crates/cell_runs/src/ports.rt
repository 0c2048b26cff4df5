//! The ports of the simulated cell.
ghost use Rattle.std.specs.Prelude.{◌≡◌};
ghost use Rattle.cell_types.specs.declared.words.Machine.TheVariants as machine;

use cell_sim::{FaultScript, SimPort, World};
use cell_turns::Six;
use cell_types::Machine;
use std::sync::{Mutex, Wait};

/// The ports of a simulated cell's six machines.
pub fn sim_ports<'a, R: Wait>(
    rt: &'a R,
    world: &'a Mutex<World>,
    faults: &'a FaultScript,
) -> Six<SimPort<'a, R>>
    ensures { result ≡ record {
      feed = machine.Feed;
      table = machine.Table;
      robot = machine.Robot;
      press1 =
          machine.Press1;
      press2 = machine.Press2;
      deposit = machine.Deposit;
    } }
{
    Six {
        feed: SimPort::new(rt, world, Machine::Feed, faults),
        table: SimPort::new(rt, world, Machine::Table, faults),
        robot: SimPort::new(rt, world, Machine::Robot, faults),
        press1: SimPort::new(rt, world, Machine::Press1, faults),
        press2: SimPort::new(rt, world, Machine::Press2, faults),
        deposit: SimPort::new(rt, world, Machine::Deposit, faults),
    }
}
