//! The words that may stand in a field.
ghost use Rattle.std.specs.Prelude.{◌≡◌};
ghost use Rattle.cell_explain.specs.Sayings.{words_text};

/// The words of which one may stand in a field.
#[derive(Clone, Copy)]
pub(crate) enum Words {
    KindsOfOne,
    Kinds,
    Machine,
    Station,
    Axis,
    Pose,
    Zone,
    Arm,
    Belt,
    Colour,
    Cause,
    Fault,
    Trigger,
    Task,
}

impl Words {
    /// The words, which are parted by a comma and a blank.
    pub(crate) fn text(self) -> &'static str
        ensures { result.now ≡ words_text self }
    {
        match self {
            Words::KindsOfOne => {
                "lamp, admitted, claimed, yielded, started, arrived, conveyed, forged, gripped, dropped, delivered, \
                    declared, stop_asked, quarantined, repaired"
            }
            Words::Kinds => {
                "lamp, admitted, claimed, yielded, started, arrived, conveyed, forged, gripped, dropped, delivered, \
                    declared, stop_asked, quarantined, repaired, expected, reinstated"
            }
            Words::Machine => "feed, table, robot, press1, press2, deposit",
            Words::Station =>
                "feed_in, feed_end, table, arm1, arm2, press1, press2, dep_in, dep_end",
            Words::Axis => {
                "feed_belt, table_lift, table_turn, robot_turn, arm_one, arm_two, press_one, press_two, deposit_belt"
            }
            Words::Pose => {
                "rest, to_end, to_table, low, high, belt, robot, table1, p1_load, p1_unload, p2_load, p2_unload, \
                    deposit2, in, out, middle, top, bottom"
            }
            Words::Zone => "z1, z2, z3, z4, z5",
            Words::Arm => "arm1, arm2",
            Words::Belt => "feed, deposit",
            Words::Colour => "red, green",
            Words::Cause => {
                "stuck_switch, contradictory, stray_position, no_departure, missing_motion, lost_position, \
                    plate_lost, strange_plate, silent, command_fault, operator_stop"
            }
            Words::Fault => "no_motion, keeps_old, both, slow, lose_plate, silent, refuse_command",
            Words::Trigger => "always, admitted, delivered, quarantined, failed",
            Words::Task => "stop, clear, repair, expect",
        }
    }
}

/// Whether the bytes are one of these words, which are parted by a comma and a blank.
pub(crate) fn is_one_of(bytes: &[u8], words: &str) -> bool {
    words.split(", ").any(|word| word.as_bytes() == bytes)
}
