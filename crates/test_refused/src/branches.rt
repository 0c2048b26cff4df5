//! Runs that go on from where the run without faults was paused.
use cell_branches::{Branch, Trunk};
use cell_runs::{Inputs, Texts, read_inputs};
use cell_workers::End;
use std::alloc::AllocError;
use std::process::Abort;
use test_samples::{call_begins, call_ends};

// The only plate's first motion fails.
fn inputs_of<R: AllocGlobal + Abort>(rt: &R) -> Inputs {
    let texts = Texts::new(b"plates = 1\n", b"feed_belt,1,no_motion,\n", b"");
    read_inputs(rt.alloc(), texts).ok().expect(rt, "inputs")
}

// How many entries the run with the fault has, if memory sufficed.
fn entries_of(answer: Result<Option<Branch>, AllocError>) -> Option<u32> {
    match answer {
        Ok(Some(Branch { outcome, .. })) if outcome.end != End::Memory => {
            Some(outcome.book.journal().len())
        }
        _ => None,
    }
}

#[test]
fn trunk_run(rt: HostRuntime) {
    let alloc = rt.alloc();
    let inputs = inputs_of(&rt);
    call_begins(alloc);
    let answer = Trunk::run(alloc, inputs.script, &inputs.plan);
    call_ends(alloc, answer.is_err());
    if let Ok(trunk) = answer {
        assert!(rt; entries_of(trunk.branch(alloc, &inputs.faults)) == Some(4));
    }
}

#[test]
fn trunk_branch(rt: HostRuntime) {
    let alloc = rt.alloc();
    let inputs = inputs_of(&rt);
    let Ok(trunk) = Trunk::run(alloc, inputs.script, &inputs.plan) else {
        panic!(rt; "there is memory");
    };
    call_begins(alloc);
    let entries = entries_of(trunk.branch(alloc, &inputs.faults));
    call_ends(alloc, entries.is_none());
    assert!(rt; matches!(entries, None | Some(4)));
}
