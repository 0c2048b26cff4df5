//! The vocabulary of the cell: its machines, stations, axes, poses, zones and lights, the entries of its journal, and
//! the record in which each entry is written and from which it is read.
#![tactic(auto)]

pub mod cell;
pub mod entries;
pub mod fields;
pub mod laws;
pub mod limits;
pub mod number;
pub mod parts;
pub mod plate_id;
pub mod read;
pub mod same;
pub mod sensors;
pub mod texts;
pub mod words;

pub use cell::{
    ARMS, AXES, BELTS, BeltMotion, Facing, MACHINES, POSES, PRESS1, PRESS2, Press, STATIONS, ZONES,
    axes_of, axis_number, axis_of_arm, belt_number, drops_at, faced, grips_at, home,
    is_before_press, is_pose_of, machine_number, machine_of_axis, machine_of_belt,
    machine_of_station, motion_named, motion_to, owner, place_in_machine, poses_of, press_axis,
    press_of, station_number, station_of_arm, stations_of, visitor, zone_number,
};
pub use entries::{actor_of, command_of};
pub use fields::{Field, spell};
pub use limits::{MAX_ENTRIES, MAX_PLATES};
pub use parts::{
    Object, ObjectSort, Parts, Sorts, Subject, SubjectSort, entry_of, parts_of, sorts_of,
};
pub use plate_id::PlateId;
pub use read::read_fields;
pub use words::{
    Actor, Arm, Axis, AxisState, Belt, Cause, Colour, Command, Entry, Kind, Machine, Place, Pose,
    Station, Totals, Zone,
};
