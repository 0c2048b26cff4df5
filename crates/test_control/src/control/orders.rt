//! What the texts of a controlled run say.
use cell_control::read_orders;
use cell_output::{WatchedWriter, WriteFault};
use cell_runs::refuse_input;
use std::process::Abort;
use std::test::Fail;
use test_samples::FailingWriter;

#[test]
fn settings_and_a_script_are_read(rt: HostRuntime) -> Result<(), Fail> {
    let orders = read_orders(rt.alloc(), b"plates = 3\n", b"always,,stop,table\n");
    let orders = orders.ok().expect(&rt, "orders");
    assert!(rt; orders.plan.plates == 3);
    Ok(())
}

#[test]
fn the_first_text_that_is_refused_is_told(rt: HostRuntime) -> Result<(), Fail> {
    let orders = read_orders(rt.alloc(), b"plates = 3\n", b"always,,stop,tables\n");
    let error = orders.err().expect(&rt, "an error");
    let mut told: Vec<u8> = Vec::new(rt.alloc());
    assert!(rt; refuse_input(&mut WatchedWriter::new(&mut told), error) == Ok(1));
    assert!(rt; told.as_slice() == b"operator unreadable 1\n".as_slice());
    Ok(())
}

// Orders that are refused, over a writer that fails after so many bytes, have to answer this.
fn check_cut<R: AllocGlobal + Abort>(rt: &R, left: usize, wanted: Result<u8, WriteFault>) {
    let orders = read_orders(rt.alloc(), b"plates = 3\n", b"brew");
    let error = orders.err().expect(rt, "an error");
    let mut told = FailingWriter::new(Vec::new(rt.alloc()), left);
    assert!(rt;
        refuse_input(&mut WatchedWriter::new(&mut told), error) == wanted,
        "after {left} bytes"
    );
}

#[test]
fn a_failed_write_of_the_refusal_is_told(rt: HostRuntime) {
    let line = b"operator unreadable 1\n".len();
    for left in 0..line {
        check_cut(&rt, left, Err(WriteFault));
    }
    check_cut(&rt, line, Ok(1));
}
