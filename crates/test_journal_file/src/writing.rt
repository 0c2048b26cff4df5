//! What is written of a journal's file, and what after a fault.
use crate::disk::{Disk, TestFile};
use cell_journal_file::JournalFile;
use cell_plant::Keeper;
use std::alloc::{AllocError, Global};
use std::cell::RefCell;
use std::io;
use std::io::ErrorKind;
use std::process::Abort;
use test_samples::{ONE_PLATE, entry_of, text_of};

// An empty disk with this room, each write of which takes so many bytes at most.
fn disk_of(alloc: Global, room: usize, step: usize) -> RefCell<Disk> {
    RefCell::new(Disk {
        bytes: Vec::new(alloc),
        room,
        step,
        writes: 0,
        synced: 0,
    })
}

// Keeps the entries of records up to the first that isn't kept.
fn keep_all(journal: &mut JournalFile<TestFile<'_>>, records: &[&str]) -> bool {
    for record in records {
        let Some(entry) = entry_of(record) else {
            return false;
        };
        if journal.keep(entry).is_err() {
            return false;
        }
    }
    true
}

// What the disk holds, and how often it was written and handed to the device.
fn held(alloc: Global, disk: &RefCell<Disk>) -> Result<(Vec<u8>, u32, u32), AllocError> {
    match disk.try_borrow() {
        Ok(disk) => Ok((
            disk.bytes.as_slice().to_vec(alloc)?,
            disk.writes,
            disk.synced,
        )),
        Err(_) => Err(AllocError),
    }
}

#[test]
fn each_record_is_one_write(rt: HostRuntime) {
    let alloc = rt.alloc();
    let records = &ONE_PLATE[..3];
    let wanted = text_of(alloc, 2, records).expect(&rt, "memory");
    for (step, sync, calls) in [
        (100, false, (4, 0)),
        (100, true, (4, 4)),
        (1, false, (68, 0)),
    ] {
        let disk = disk_of(alloc, 1000, step);
        let file = TestFile { disk: &disk };
        let mut journal = JournalFile::begin(alloc, file, sync).expect(&rt, "the first record");
        assert!(rt; keep_all(&mut journal, records), "in steps of {step}");
        assert!(rt; journal.fault().is_none(), "no fault in steps of {step}");
        let (bytes, writes, synced) = held(alloc, &disk).expect(&rt, "memory");
        assert!(rt; bytes == wanted, "the text in steps of {step}");
        assert_eq!(rt; (writes, synced), calls, "in steps of {step}");
    }
}

// A journal's file that takes so many bytes: what it holds after the fault, and after one more call.
fn broken_after<W: AllocGlobal + Abort>(rt: &W, room: usize, text: &[u8]) {
    let alloc = rt.alloc();
    let disk = disk_of(alloc, room, 1000);
    let begun = JournalFile::begin(alloc, TestFile { disk: &disk }, false);
    if let Ok(mut journal) = begun {
        assert!(rt;
            !keep_all(&mut journal, &ONE_PLATE[..3]),
            "a fault after {room} bytes"
        );
        assert!(rt; journal.fault().is_some(), "the fault after {room} bytes");
        if let Ok(mut disk) = disk.try_borrow_mut() {
            disk.room = 1000;
        }
        assert!(rt;
            !keep_all(&mut journal, &ONE_PLATE[..1]),
            "another call after {room} bytes"
        );
    }
    let (bytes, _, _) = held(alloc, &disk).expect(rt, "memory");
    let first = &text[..room.min(text.len())];
    assert!(rt;
        bytes.as_slice() == first,
        "what is there after {room} bytes"
    );
}

#[test]
fn nothing_is_written_after_a_fault(rt: HostRuntime) {
    let text = text_of(rt.alloc(), 2, &ONE_PLATE[..3]).expect(&rt, "memory");
    for room in 0..text.len() {
        broken_after(&rt, room, text.as_slice());
    }
}

#[test]
fn a_file_that_has_grown_is_left_alone(rt: HostRuntime) {
    let alloc = rt.alloc();
    for (length, is_kept) in [(0, true), (1, false)] {
        let disk = disk_of(alloc, 1000, 1000);
        let mut journal = JournalFile::resume(alloc, TestFile { disk: &disk }, false, length);
        assert_eq!(rt;
            keep_all(&mut journal, &ONE_PLATE[..1]),
            is_kept,
            "at {length}"
        );
        let busy = journal.fault().map(|error: io::Error| error.kind());
        assert_eq!(rt;
            busy == Some(ErrorKind::ResourceBusy),
            !is_kept,
            "the fault at {length}"
        );
        let (bytes, _, _) = held(alloc, &disk).expect(&rt, "memory");
        assert_eq!(rt; bytes.is_empty(), !is_kept, "what is there at {length}");
    }
}
