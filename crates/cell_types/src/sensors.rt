//! The words of what the sensors of a machine show.
ghost use Rattle.std.specs.Prelude.{◌≡◌, ◌≤◌, length, map};
ghost use Rattle.cell_types.specs.Sensors.{presence_words, switch_words};

use crate::{Axis, Machine};

/// The words of an axis's switches, in the order of their bits, which is that of its poses. A belt has none.
pub fn switch_words(axis: Axis) -> &'static [&'static str]
    ensures words { map (λ w. w.now) result.now ≡ switch_words axis }
    ensures few { length result.now ≤ 6 }
{
    match axis {
        Axis::FeedBelt | Axis::DepositBelt => &[],
        Axis::TableLift => &["low", "high"],
        Axis::TableTurn => &["belt", "robot"],
        Axis::RobotTurn => &[
            "table1",
            "p1_load",
            "p1_unload",
            "p2_load",
            "p2_unload",
            "deposit2",
        ],
        Axis::ArmOne | Axis::ArmTwo => &["in", "out"],
        Axis::PressOne | Axis::PressTwo => &["middle", "top", "bottom"],
    }
}

/// The words of the stations whose sensors a machine's reading has, in the order of their bits.
pub fn presence_words(machine: Machine) -> &'static [&'static str]
    ensures words { map (λ w. w.now) result.now ≡ presence_words machine }
    ensures few { length result.now ≤ 6 }
{
    match machine {
        Machine::Feed => &["feed_in", "feed_end", "table"],
        Machine::Table => &["table"],
        Machine::Robot => &["arm1", "arm2"],
        Machine::Press1 => &["press1"],
        Machine::Press2 => &["press2"],
        Machine::Deposit => &["dep_in", "dep_end"],
    }
}
