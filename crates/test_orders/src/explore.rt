//! How many states there are, and the journals that are told.
mod counts;
mod journals;
