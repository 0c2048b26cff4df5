//! The tests of `cell_show`: what is shown for journals' texts, the page, the charts, and journals that play.
mod charts;
mod journals;
mod pages;
mod plays;
