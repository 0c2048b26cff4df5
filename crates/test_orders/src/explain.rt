//! The tests of `cell_explain`: what is said of texts, and of a run's end.
mod endings;
mod journals;
mod said;
mod scripts;
mod settings;
