//! Marks around a call whose memory may be refused. A mark is an allocation of a size that nothing else asks for. A
//! library below the program sees it and refuses memory between two marks (docs/HOSTILE.md); elsewhere a mark does
//! nothing.
use std::alloc::{AllocError, Global};

const BEGIN: usize = 770_001;

const END: usize = 770_002;

const END_WANTED: usize = 770_003;

fn mark(alloc: Global, size: usize) {
    let _mark: Result<Vec<u8>, AllocError> = Vec::with_capacity(alloc, size);
}

/// The call begins.
pub fn call_begins(alloc: Global) {
    mark(alloc, BEGIN);
}

/// The call has ended, and this is whether it answered want of memory.
pub fn call_ends(alloc: Global, is_wanted: bool) {
    mark(alloc, if is_wanted { END_WANTED } else { END });
}
