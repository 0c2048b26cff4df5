//! The ports of a locked world.
use crate::sim::steps::{faults_of, is_met};
use cell_sim::{SimOperator, SimPort, World};
use cell_types::Machine;
use std::process::Abort;
use std::sync::Mutex;

// A plate is laid, and no other while the light is red. The belt moves where its command isn't refused, and is cleared.
const STEPS: [&str; 9] = [
    "lamp,feed,green",
    "feed 0 0 0 1",
    "lamp,feed,red",
    "refused started,feed_belt,to_end",
    "feed 0 0 0 1",
    "remove feed_in",
    "home feed",
    "feed 0 0 0 0",
    "collisions 0",
];

#[test]
fn ports_act_in_one_world(rt: HostRuntime) {
    let faults = faults_of(&rt, "feed_belt,1,refuse_command,\n");
    let world = Mutex::new(World::new(1));
    let mut feed = SimPort::new(&rt, &world, Machine::Feed, &faults);
    let mut hands = SimOperator::new(&rt, &world);
    for &step in &STEPS {
        assert!(rt; is_met(&rt, &world, &mut feed, &mut hands, step), "{step}");
    }
}
