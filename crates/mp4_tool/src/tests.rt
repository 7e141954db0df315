//! Whole runs of the program: what it prints, and its statuses.

mod fragments;
mod readers;
mod runs;
mod texts;
