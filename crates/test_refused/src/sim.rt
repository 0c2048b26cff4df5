//! Scripts of faults.
use cell_sim::{FaultError, FaultScript, SimPort, World};
use cell_turns::Port;
use cell_types::{Axis, Command, Machine, Pose};
use std::sync::Mutex;
use test_samples::{call_begins, call_ends};

// The first line is plain and the second is quoted. The feed belt's first motion is refused.
const REFUSED: &[u8] = b"feed_belt,1,refuse_command,\n\"press_two\",1,both,\n";

#[test]
fn fault_script_read(rt: HostRuntime) {
    let alloc = rt.alloc();
    call_begins(alloc);
    let answer = FaultScript::read(alloc, REFUSED);
    call_ends(alloc, answer.is_err());
    match answer {
        Ok(faults) => {
            let world = Mutex::new(World::new(1));
            let mut feed = SimPort::new(&rt, &world, Machine::Feed, &faults);
            let on = Command::On(Axis::FeedBelt, Pose::ToEnd);
            assert!(rt; feed.command(on).is_err());
            assert!(rt; feed.command(on).is_ok());
        }
        Err(why) => assert!(rt; why == FaultError::OutOfMemory),
    }
}
