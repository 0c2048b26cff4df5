//! A cell at the other end of two pipes.
ghost use Rattle.std.specs.Prelude.{◌≡◌, IfOk, IsErr, OnOk, false, is_some, true};
ghost use Rattle.cell_lines.specs.Known.{hearing, picture, seeing, without_readings};
ghost use Rattle.cell_lines.specs.Stands.{Asks, Begins, Breaks, Demands, Syncs, TakesOne, TakesTo, Writes, WritesSome};
ghost use Rattle.cell_lines.specs.Stands.{Stays, closing_text, first_stand, stand_of, stay_text};
ghost use Rattle.cell_lines.specs.Said.{answers, ends, opens, syncs};
ghost use Rattle.cell_lines.specs.Written.{line_of};

use crate::known::Known;
use crate::put::put;
use crate::said::{Answer, Said, said_of};
use crate::unread::{tell_line, tell_plates, tell_refused};
use crate::written::Written;
use cell_diagnosis::Reading;
use cell_plant::{Gone, Plant, Reply, Wish};
use cell_rows::TellsFault;
use cell_types::{Command, Machine, Station};
use line_reader::RecordReader;
use operator_desk::Task;
use plate_book::Refusal;
use std::io::Write;

/// The most lines of the cell from one `round` to the next.
pub const MAX_LINES: u32 = 10_000;

// How many lines that can't be read are told of a run.
const MOST_TOLD: u32 = 10;

/// Why the cell can't be reached any more.
#[derive(Clone, Copy, Debug, PartialEq, Eq)]
pub enum Loss {
    /// Its lines have ended.
    Silence,
    /// It said that the run is over.
    End,
    /// It wrote too many lines in one round.
    TooManyLines,
    /// Its first line doesn't begin the protocol.
    NoCell,
    /// Its first line begins another version of the protocol.
    OtherVersion,
    /// The reader failed.
    ReadFault,
    /// The writer failed.
    WriteFault,
}

/// A cell at the other end of two pipes: its lines, what is written to it, and what is known of it.
#[derive(Drop)]
pub struct FarEnd<R, W, E> {
    lines: RecordReader<R>,
    writer: W,
    pub errors: E,
    known: Known,
    /// Whether it is still to be said that the run is ended from here.
    stay_is_due: bool,
    /// How many lines came since the last round was opened.
    count: u32,
    /// How many more lines that can't be read are told.
    to_tell: u32,
    pub loss: Option<Loss>,
}

impl<R: TellsFault, W: Write, E: Write> FarEnd<R, W, E> {
    /// A cell of which no line was read.
    pub fn new(source: R, writer: W, errors: E) -> FarEnd<R, W, E>
        ensures stand { stand_of R.remaining W.contents result ≡ first_stand (R.remaining source) (W.contents writer) }
    {
        FarEnd {
            lines: RecordReader::new(source),
            writer,
            errors,
            known: Known::new(),
            stay_is_due: false,
            count: 0,
            to_tell: MOST_TOLD,
            loss: None,
        }
    }

    // The cell can't be reached any more. The first reason stands.
    fn lose(&mut self, loss: Loss) -> Gone
        ensures writer { self.new.writer ≡ self.old.writer }
        ensures lost { is_some self.new.loss ≡ true }
    {
        if self.loss.is_none() {
            self.loss = Some(loss);
        }
        Gone
    }

    // What the next line says.
    fn next_said(&mut self) -> Result<Said, Gone>
        ensures takes { IfOk result (TakesOne (stand_of R.remaining W.contents self.old)
            (stand_of R.remaining W.contents self.new)) }
        ensures silent { W.contents self.new.writer ≡ W.contents self.old.writer }
        ensures lost { IsErr result → is_some self.new.loss ≡ true }
    {
        if self.count >= MAX_LINES {
            return Err(self.lose(Loss::TooManyLines));
        }
        self.count += 1;
        match self.lines.advance() {
            Ok(true) => {}
            Ok(false) => return Err(self.lose(Loss::Silence)),
            Err(_) => return Err(self.lose(Loss::ReadFault)),
        }
        match self.lines.four() {
            Some(four) => Ok(said_of(four)),
            None => Ok(Said::Nothing),
        }
    }

    // Tells that the line that was read last can't be read, if it is one of the first.
    fn tell_unread(&mut self)
        ensures { stand_of R.remaining W.contents self.new ≡ stand_of R.remaining W.contents self.old }
    {
        if self.to_tell == 0 {
            return;
        }
        self.to_tell -= 1;
        tell_line(&mut self.errors, self.lines.number(), self.lines.bytes());
    }

    // Keeps what someone did at the cell, where there is room.
    fn keep_act(&mut self, task: Task)
        ensures { stand_of R.remaining W.contents self.new ≡ record (stand_of R.remaining W.contents self.old)
            { known = hearing (Said.Did task) (picture self.old.known) } }
    {
        if !self.known.keep_act(task) {
            self.tell_unread();
        }
    }

    // Notes a line that is none of those that are waited for.
    fn note(&mut self, said: Said) -> Result<(), Gone>
        ensures known { OnOk result (stand_of R.remaining W.contents self.new
            ≡ record (stand_of R.remaining W.contents self.old) { known = hearing said (picture self.old.known) }) }
        ensures going { OnOk result (ends said ≡ false) }
        ensures silent { W.contents self.new.writer ≡ W.contents self.old.writer }
        ensures lost { IsErr result → is_some self.new.loss ≡ true }
    {
        match said {
            Said::Wishes(task) => self.known.keep_wish(Some(task)),
            Said::WishesUnread => {
                self.tell_unread();
                self.known.keep_wish(None);
            }
            Said::Did(task) => self.keep_act(task),
            Said::Ends => return Err(self.lose(Loss::End)),
            Said::First(_, _)
            | Said::Shows(_, _)
            | Said::Missing(_)
            | Said::Round
            | Said::Answers(_)
            | Said::Synced(_)
            | Said::Garbled(_)
            | Said::Nothing => self.tell_unread(),
        }
        Ok(())
    }

    // Notes a line between two rounds.
    fn note_shown(&mut self, said: Said) -> Result<(), Gone>
        ensures known { OnOk result (stand_of R.remaining W.contents self.new
            ≡ record (stand_of R.remaining W.contents self.old) { known = seeing said (picture self.old.known) }) }
        ensures going { OnOk result (ends said ≡ false) }
        ensures silent { W.contents self.new.writer ≡ W.contents self.old.writer }
        ensures lost { IsErr result → is_some self.new.loss ≡ true }
    {
        match said {
            Said::Shows(machine, reading) => self.known.show(machine, Some(reading)),
            Said::Missing(machine) => self.known.show(machine, None),
            Said::Garbled(machine) => {
                self.tell_unread();
                self.known.show(machine, None);
            }
            other => return self.note(other),
        }
        Ok(())
    }

    // Reads on to the line that opens a round.
    fn open(&mut self) -> Result<(), Gone>
        ensures takes { OnOk result (TakesTo opens seeing (record (stand_of R.remaining W.contents self.old)
            { known = without_readings (picture self.old.known) }) (stand_of R.remaining W.contents self.new)
            Said.Round) }
        ensures silent { W.contents self.new.writer ≡ W.contents self.old.writer }
        ensures lost { IsErr result → is_some self.new.loss ≡ true }
    {
        self.known.forget_readings();
        self.count = 0;
        for _count in 0..=MAX_LINES {
            match self.next_said()? {
                Said::Round => return Ok(()),
                other => self.note_shown(other)?,
            }
        }
        Err(self.lose(Loss::TooManyLines))
    }

    // The answer to what was written last.
    fn answer(&mut self) -> Result<Answer, Gone>
        ensures takes { IfOk result (λ a. TakesTo answers hearing (stand_of R.remaining W.contents self.old)
            (stand_of R.remaining W.contents self.new) (Said.Answers a)) }
        ensures silent { W.contents self.new.writer ≡ W.contents self.old.writer }
        ensures lost { IsErr result → is_some self.new.loss ≡ true }
    {
        for _count in 0..=MAX_LINES {
            match self.next_said()? {
                Said::Answers(answer) => return Ok(answer),
                other => self.note(other)?,
            }
        }
        Err(self.lose(Loss::TooManyLines))
    }

    // Writes a line, which isn't written out yet.
    fn write(&mut self, line: Written) -> Result<(), Gone>
        ensures whole { OnOk result (Writes (line_of line) (stand_of R.remaining W.contents self.old)
            (stand_of R.remaining W.contents self.new)) }
        ensures gone { IsErr result → Breaks (line_of line) (stand_of R.remaining W.contents self.old)
            (stand_of R.remaining W.contents self.new) }
    {
        match put(&mut self.writer, line) {
            Ok(()) => Ok(()),
            Err(_) => Err(self.lose(Loss::WriteFault)),
        }
    }

    // Writes a line, and writes out what was written.
    fn send(&mut self, line: Written) -> Result<(), Gone>
        ensures whole { OnOk result (Writes (line_of line) (stand_of R.remaining W.contents self.old)
            (stand_of R.remaining W.contents self.new)) }
        ensures gone { IsErr result → Breaks (line_of line) (stand_of R.remaining W.contents self.old)
            (stand_of R.remaining W.contents self.new) }
    {
        self.write(line)?;
        match self.writer.flush() {
            Ok(()) => Ok(()),
            Err(_) => Err(self.lose(Loss::WriteFault)),
        }
    }

    // Writes a line, and gives its answer.
    fn ask(&mut self, line: Written) -> Result<Answer, Gone>
        ensures asks { IfOk result (Asks (line_of line) (stand_of R.remaining W.contents self.old)
            (stand_of R.remaining W.contents self.new)) }
        ensures gone { IsErr result → Breaks (line_of line) (stand_of R.remaining W.contents self.old)
            (stand_of R.remaining W.contents self.new) }
    {
        self.send(line)?;
        self.answer()
    }

    // Writes a line that wants something done, and says whether it was.
    fn demand(&mut self, line: Written) -> Result<bool, Gone>
        ensures { Demands (line_of line) (stand_of R.remaining W.contents self.old)
            (stand_of R.remaining W.contents self.new) result }
    {
        match self.ask(line)? {
            Answer::Done => Ok(true),
            Answer::Failed | Answer::Unread => Ok(false),
        }
    }

    /// Reads how the protocol begins, and tells if the cell plans another number of plates than this. When the next
    /// round is open it is said that the run is ended from here, and by no plate.
    pub fn begin(&mut self, plates: u32) -> Result<(), Gone>
        ensures begins { OnOk result (Begins (stand_of R.remaining W.contents self.old)
            (stand_of R.remaining W.contents self.new)) }
        ensures silent { (stand_of R.remaining W.contents self.new).text
            ≡ (stand_of R.remaining W.contents self.old).text }
        ensures lost { IsErr result → is_some self.new.loss ≡ true }
    {
        match self.next_said()? {
            Said::First(1, planned) => {
                if let Some(planned) = planned {
                    if planned != plates {
                        tell_plates(&mut self.errors, planned, plates);
                    }
                }
                self.stay_is_due = true;
                Ok(())
            }
            Said::First(_, _) => Err(self.lose(Loss::OtherVersion)),
            _ => {
                self.tell_unread();
                Err(self.lose(Loss::NoCell))
            }
        }
    }

    // Reads on to the line by which the run is found again whose journal has so many entries.
    fn find(&mut self, length: u32) -> Result<(), Gone>
        ensures takes { OnOk result (TakesTo (syncs length) (λ _ p. p) (stand_of R.remaining W.contents self.old)
            (stand_of R.remaining W.contents self.new) (Said.Synced length)) }
        ensures silent { W.contents self.new.writer ≡ W.contents self.old.writer }
        ensures lost { IsErr result → is_some self.new.loss ≡ true }
    {
        for _count in 0..=MAX_LINES {
            let said = self.next_said()?;
            if said.is_synced(length) {
                return Ok(());
            }
        }
        Err(self.lose(Loss::TooManyLines))
    }

    /// Has the cell find a run again whose journal has so many entries. All that it wrote before is passed over.
    pub fn sync(&mut self, length: u32) -> Result<(), Gone>
        ensures syncs { OnOk result (Syncs length (stand_of R.remaining W.contents self.old)
            (stand_of R.remaining W.contents self.new)) }
        ensures gone { IsErr result → Breaks (line_of (Written.Sync length)) (stand_of R.remaining W.contents self.old)
            (stand_of R.remaining W.contents self.new) }
    {
        self.stay_is_due = false;
        self.send(Written::Sync(length))?;
        self.find(length)
    }

    // Reads on to the end of the run, or of the lines.
    fn read_end(&mut self)
        ensures { W.contents self.new.writer ≡ W.contents self.old.writer }
    {
        self.count = 0;
        for _count in 0..=MAX_LINES {
            match self.next_said() {
                Ok(Said::Ends) | Err(Gone) => return,
                Ok(_) => {}
            }
        }
    }

    // Stops all machines, ends the run and reads on to its end.
    fn quit(&mut self)
        ensures { WritesSome (line_of (Written.Stop true)) (W.contents self.old.writer) (W.contents self.new.writer) }
    {
        if self.send(Written::Stop(true)).is_err() {
            let _ = writeln!(self.errors, "the cell can't be told to stop");
            return;
        }
        self.read_end();
    }

    // Stops all machines and ends the run, as far as the cell can be reached.
    fn close(&mut self)
        ensures written { WritesSome (closing_text self.old.loss) (W.contents self.old.writer)
            (W.contents self.new.writer) }
    {
        match self.loss {
            Some(Loss::End | Loss::WriteFault) => {}
            Some(_) => {
                let _ = self.send(Written::Stop(false));
            }
            None => {
                self.quit();
                self.loss = None;
            }
        }
    }

    /// Stops all machines and ends the run, as far as the cell can be reached, and gives both writers back, and why the
    /// cell couldn't be reached any more.
    pub fn finish(self) -> (W, E, Option<Loss>)
    where
        R: Drop,
        ensures written { WritesSome (closing_text self.loss) (stand_of R.remaining W.contents self).text
            (W.contents result.0) }
    {
        let mut far = self;
        far.close();
        let FarEnd {
            writer,
            errors,
            loss,
            ..
        } = far;
        (writer, errors, loss)
    }

    // Says that the run is ended from here, and by no plate, if that is due. Any answer will do.
    fn stay(&mut self) -> Result<(), Gone>
        ensures stays { OnOk result (Stays self.old.stay_is_due (stand_of R.remaining W.contents self.old)
            (stand_of R.remaining W.contents self.new)) }
        ensures gone { IsErr result → Breaks (stay_text self.old.stay_is_due) (stand_of R.remaining W.contents self.old)
            (stand_of R.remaining W.contents self.new) }
    {
        if !self.stay_is_due {
            return Ok(());
        }
        self.stay_is_due = false;
        self.ask(Written::Stay)?;
        Ok(())
    }
}

impl<R: TellsFault, W: Write, E: Write> Plant for FarEnd<R, W, E> {
    ghost use Rattle.cell_lines.specs.Stands.{Told, stand_of};

    ghost told = { λ old new asked. Told (stand_of R.remaining W.contents old) (stand_of R.remaining W.contents new)
        asked };

    fn begin_round(&mut self) -> Result<(), Gone> {
        self.open()?;
        self.stay()
    }

    fn read(&mut self, machine: Machine) -> Option<Reading> {
        self.known.reading(machine)
    }

    fn command(&mut self, _machine: Machine, command: Command) -> Result<bool, Gone> {
        self.demand(Written::Send(command))
    }

    fn remove(&mut self, station: Station) -> Result<bool, Gone> {
        self.demand(Written::Remove(station))
    }

    fn home(&mut self, machine: Machine) -> Result<bool, Gone> {
        self.demand(Written::Home(machine))
    }

    fn act_done(&mut self) -> Option<Task> {
        self.known.next_act()
    }

    fn refuse_act(&mut self, task: Task, why: Refusal) {
        tell_refused(&mut self.errors, task, why);
    }

    fn wish(&mut self) -> Option<Wish> {
        self.known.next_wish()
    }

    fn reply(&mut self, reply: Reply) -> Result<(), Gone> {
        self.write(Written::Answer(reply))
    }

    fn end_round(&mut self) -> Result<(), Gone> {
        self.send(Written::Done)
    }
}
