//! Belts, and the plates that are laid on them, carried, taken out by hand and delivered.
use crate::sim::steps::{Way, run_all};

/// A plate is laid.
const LAID: &str = "feed 0 0 0 0; lamp,feed,green; feed 0 0 0 1; lamp,feed,red";

const CARRIED: &str = "\
    started,feed_belt,to_end; feed 0 0 0 1; feed 0 0 0 0; feed 0 0 0 2; feed 0 0 0 2; off feed_belt; \
    feed 0 0 0 2; started,feed_belt,to_table; feed 0 0 0 2; feed 0 0 0 0; table 1 1 0 0; feed 0 0 0 4; \
    table 1 1 0 1; feed 0 0 0 4; off feed_belt; feed 0 0 0 4";

// No more than two plates are laid, one at a time, where the light is green.
const LAYING: &str = "\
    lamp,feed,green; table 1 1 0 0; feed 0 0 0 1; feed 0 0 0 1; started,feed_belt,to_end; feed any 2; \
    feed 0 0 0 2; off feed_belt; feed 0 0 0 2; started,feed_belt,to_table; feed any 2; feed 0 0 0 4; \
    off feed_belt; feed 0 0 0 5; lamp,feed,red; remove feed_in; feed 0 0 0 4; remove table; feed 0 0 0 0";

// A belt that nothing lies on carries nothing, and one that is turned off or stopped on the way has moved nothing.
const ENDS: &str = "\
    started,feed_belt,to_table; feed 0 0 0 1; feed 0 0 0 1; feed 0 0 0 1; started,feed_belt,to_end; \
    feed 0 0 0 1; feed 0 0 0 0; off feed_belt; feed 0 0 0 1; feed 0 0 0 1; started,feed_belt,rest; feed any 2; \
    feed 0 0 0 1";

// The plate is taken on its way, stopped or not, also where it has arrived.
const ON_THE_WAY: &str = "\
    started,feed_belt,to_end; feed any 2; remove feed_end; remove feed_in; feed 0 0 0 0; feed 0 0 0 0";

const STOPPED: &str = "\
    started,feed_belt,to_end; feed any 2; stop feed; feed 0 0 0 0; remove feed_in; home feed; feed 0 0 0 0; \
    feed 0 0 0 0";

const STOPPED_AT_THE_END: &str = "\
    started,feed_belt,to_end; feed any 2; feed 0 0 0 2; stop feed; feed 0 0 0 2; remove feed_in; feed 0 0 0 0";

// After its end, or at home, a motion's plate is where it is.
const ENDED: &str = "\
    started,feed_belt,to_end; feed any 2; feed 0 0 0 2; off feed_belt; remove feed_in; feed 0 0 0 2; \
    remove feed_end; feed 0 0 0 0";

const AT_HOME: &str = "\
    started,feed_belt,to_end; feed any 3; stop feed; home feed; remove feed_in; feed 0 0 0 2; lamp,feed,green; \
    stop feed; remove feed_end";

const NO_MORE: &str = "feed 0 0 0 0; deposit 0 0 0 0";

const CARRYING: [Way; 3] = [
    (2, "", &[LAID, CARRIED]),
    (2, "", &[LAYING]),
    (1, "", &[LAID, ENDS]),
];

const TAKING_OUT: [Way; 5] = [
    (2, "", &[LAID, ON_THE_WAY, NO_MORE]),
    (2, "", &[LAID, STOPPED, NO_MORE]),
    (2, "", &[LAID, STOPPED_AT_THE_END, NO_MORE]),
    (2, "", &[LAID, ENDED, NO_MORE]),
    (2, "", &[LAID, AT_HOME, NO_MORE]),
];

#[test]
fn a_belt_shows_what_it_carries_until_that_is_taken_out(rt: HostRuntime) {
    run_all(&rt, &CARRYING);
    run_all(&rt, &TAKING_OUT);
}
