//! Scripts of the operator.
use cell_types::Machine;
use operator_desk::{Action, Script, ScriptError};
use test_samples::{begun, call_begins, call_ends};

// The first line is plain and the second is quoted.
const STOPS: &[u8] = b"admitted,1,stop,feed\n\"failed\",press2,repair,press2\n";

#[test]
fn script_read(rt: HostRuntime) {
    let alloc = rt.alloc();
    let book = begun(alloc, 100, 10, 2).expect(&rt, "a book");
    call_begins(alloc);
    let answer = Script::read(alloc, STOPS);
    call_ends(alloc, answer.is_err());
    match answer {
        Ok(script) => {
            let stop = Some(Action::Stop(Machine::Feed));
            assert!(rt; script.next(&book) == stop);
        }
        Err(why) => assert!(rt; why == ScriptError::OutOfMemory),
    }
}
