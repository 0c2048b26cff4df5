//! A script: the lines that aren't done yet.
ghost use Rattle.std.specs.Prelude.{◌≡◌, IfOk};
ghost use Rattle.cell_rows.specs.Rows.{rows_of};
ghost use Rattle.cell_rows.specs.Scripts.{Gives, Means, lines_of};
ghost use Rattle.operator_desk.specs.Lines.{line_of};
ghost use Rattle.operator_desk.specs.Next.{left_after, next_of};

use crate::action::{Action, action_now};
use crate::line::Line;
use cell_rows::{LineError, read_script};
use plate_book::Book;
use std::alloc::{AllocError, Global};
use std::marker::Model;

/// A script's lines, which are done in their order: those that aren't done yet.
#[derive(Debug, Drop)]
pub struct Script {
    lines: Vec<Line>,
    position: usize,
}

impl Model for Script {
    ghost use Rattle.std.specs.Prelude.{List, drop};
    ghost use Rattle.operator_desk.specs.declared.line.Line.{Line};

    ghost Value = { List Line };

    ghost view = { λ s. drop s.position s.lines.items };
}

impl Script {
    /// Reads a script: at most 1,000 records of four fields, a trigger's word and what it names, and a task's word and
    /// what it names, as `failed,press2,clear,press2`. The words and their meaning are this project's profile.
    ///
    /// The first record that is no line is `Unreadable`, counted from 1; a record 1,001 is `TooManyLines`, whatever it
    /// holds; `OutOfMemory` comes only where memory was refused.
    pub fn read(alloc: Global, text: &[u8]) -> Result<Script, LineError>
        ensures exact { Gives result (lines_of line_of (rows_of text.now)) }
        ensures means { Means line_of (rows_of text.now) result }
    {
        let lines = read_script(alloc, text)?;
        Ok(Script { lines, position: 0 })
    }

    /// The same script once more.
    pub fn copy(&self, alloc: Global) -> Result<Script, AllocError>
        ensures { IfOk result (λ script. script ≡ self.now) }
    {
        let lines = Vec::from_slice(alloc, self.lines.as_slice())?;
        Ok(Script {
            lines,
            position: self.position,
        })
    }

    /// What is to be done next: the action of the first line that isn't done yet, where its trigger holds and the book
    /// allows the action's entry; else nothing. A station is cleared of the plate that it has in the book.
    pub fn next(&self, book: &Book) -> Option<Action>
        ensures { result ≡ next_of self.now book.now }
    {
        match self.lines.get(self.position) {
            Some(line) => action_now(book, *line),
            None => None,
        }
    }

    /// Marks the first line that isn't done yet as done, and no other; nothing where no line is left.
    pub fn done(&mut self)
        ensures { self.new ≡ left_after self.old }
    {
        if self.position < self.lines.len() {
            self.position += 1;
        }
    }
}
