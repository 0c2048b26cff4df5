//! The tests of `cell_orders`: what is read of a text, that this decides as the whole text does, and what is told of a
//! journal's entries with times and of its measures.
mod events;
mod journals;
mod measures;
mod scripts;
mod settings;
mod texts;
