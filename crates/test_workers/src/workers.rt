//! Seven workers on threads over a simulated cell, and one worker alone on the thread of its test.
mod alone;
mod cell;
mod failures;
mod meeting;
mod operators;
mod refusals;
mod reports;
mod rooms;
mod rows;
mod telling;
