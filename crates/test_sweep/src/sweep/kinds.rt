//! Lists of kinds.
use cell_sim::Fault;
use cell_sweep::{KINDS, KindsError, read_kinds};
use std::alloc::Global;
use std::process::Abort;
use std::test::Fail;

// The kinds of a list, or why it can't be read.
fn read(alloc: Global, list: &str, due: &[Fault]) -> bool {
    match read_kinds(alloc, list) {
        Ok(kinds) => kinds.as_slice() == due,
        Err(_) => false,
    }
}

#[test]
fn lists_of_kinds_are_read(rt: HostRuntime) -> Result<(), Fail> {
    let alloc = rt.alloc();
    assert!(rt; read(alloc, "both", &[Fault::Both]));
    assert!(rt;
        read(
            alloc,
            "slow:5,slow,silent:1000",
            &[Fault::Slow(5), Fault::Slow(30), Fault::Silent(1000)]
        )
    );
    let all = "no_motion,keeps_old,both,slow,lose_plate,silent,refuse_command";
    assert!(rt; read(alloc, all, KINDS.as_slice()));
    Ok(())
}

#[test]
fn other_words_are_refused_by_their_number(rt: HostRuntime) -> Result<(), Fail> {
    let lists = [
        "",
        "both,",
        "both,slow:0",
        "both,slow:1001",
        "both,both:3",
        "both,Both",
        "both,slow:",
    ];
    for list in lists {
        let number = if list.is_empty() { 1 } else { 2 };
        let answer = read_kinds(rt.alloc(), list);
        assert!(rt; answer.err() == Some(KindsError::Unknown(number)), "{list}");
    }
    Ok(())
}
