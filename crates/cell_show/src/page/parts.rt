//! The parts of the page that are the same for every journal.
mod beside;
mod control_script;
mod drawing;
mod drawing_script;
mod follow_script;
mod head;
mod lists;
mod middle;
mod spans_script;

pub(crate) use beside::{BESIDE_END, BESIDE_FRAME, BESIDE_HEAD, BESIDE_MIDDLE, BESIDE_OTHER};
pub(crate) use control_script::CONTROL_SCRIPT;
pub(crate) use drawing::DRAWING;
pub(crate) use drawing_script::DRAWING_SCRIPT;
pub(crate) use follow_script::FOLLOW_SCRIPT;
pub(crate) use head::HEAD;
pub(crate) use lists::LISTS;
pub(crate) use middle::MIDDLE;
pub(crate) use spans_script::SPANS_SCRIPT;
