//! The tests of `cell_sentences`, `cell_picture`, `cell_drawing`, `cell_measures`, `cell_events`, `cell_waits` and
//! `cell_show`, each in the module of its crate: sentences, the pictures of some states, whole, measures computed by
//! hand, the events of short journals in each form, who waits for what, the charts and the page of a short journal,
//! journals that play, what is shown for journals' texts, and what readers and writers that fail leave of it.
#![tactic(auto)]

#[cfg(test)]
mod drawing;
#[cfg(test)]
mod events;
#[cfg(test)]
mod measures;
#[cfg(test)]
mod picture;
#[cfg(test)]
mod sentences;
#[cfg(test)]
mod show;
#[cfg(test)]
mod states;
#[cfg(test)]
mod waits;
