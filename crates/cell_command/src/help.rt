//! The texts of the help, in lines of at most 79 columns. The manual page is made of them.

/// What is printed of a command.
pub(crate) struct CommandTexts {
    /// Its line in the list of commands.
    pub(crate) about: &'static str,
    pub(crate) help: &'static str,
    pub(crate) example: &'static str,
}

/// The program's version.
pub(crate) const VERSION: &str = "1.0.0";

pub(crate) const ABOUT: &str = "\
Runs a simulated fault-tolerant production cell, and judges, draws and explains
journals of it.";

pub(crate) const AFTER: &str = "\
Each command's --help says what it reads and prints, and its words.

Exit status, of each command:
  0  good: legal, shown, settings ok, finished
  1  refused, unreadable, or a run that ended otherwise
  2  wrong arguments
  3  a read or a write failed: 'read fault' on standard error
  4  memory was refused: 'out of memory' on standard error
Where it is known which file failed, a second line says which, and why.

Example: cellctl audit examples/whole.journal";

pub(crate) const AUDIT: CommandTexts = CommandTexts {
    about: "Say whether a journal is legal, and what it counts",
    help: "\
Judges a journal's text, which it reads from FILE, or on standard input where
no file is named.

Its first record is profile,2,, or profile,1,, and then each entry has a record
of four fields, by the rules of CSV, with no heading and no comments:
  lamp,LIGHT,COLOUR,            admitted,PLATE,,
  claimed,MACHINE,ZONE,         yielded,MACHINE,ZONE,
  started,AXIS,POSE,            arrived,AXIS,POSE,
  conveyed,AXIS,PLATE,STATION   forged,MACHINE,PLATE,
  gripped,ARM,PLATE,STATION     dropped,ARM,PLATE,STATION
  delivered,PLATE,,             declared,MACHINE,CAUSE,
  stop_asked,MACHINE,,          quarantined,PLATE,STATION,
  repaired,MACHINE,,
and in profile 2 alone, in which a plate can be laid back:
  expected,PLATE,,              reinstated,PLATE,,

  PLATE    1 to 100000
  MACHINE  feed table robot press1 press2 deposit
  STATION  feed_in feed_end table arm1 arm2 press1 press2 dep_in dep_end
  AXIS     feed_belt table_lift table_turn robot_turn arm_one arm_two
           press_one press_two deposit_belt
  POSE     rest to_end to_table low high belt robot table1 p1_load p1_unload
           p2_load p2_unload deposit2 in out middle top bottom
  ZONE     z1 z2 z3 z4 z5
  ARM      arm1 arm2
  LIGHT    feed deposit
  COLOUR   red green
  CAUSE    stuck_switch contradictory stray_position no_departure
           missing_motion lost_position plate_lost strange_plate silent
           command_fault operator_stop

Prints, for a legal journal, how many entries it has and how many plates were
admitted, forged, quarantined, delivered and, in profile 2, laid back:
  legal 4
  admitted 1
  forged 0
  quarantined 0
  delivered 0
  reinstated 0
or the first entry that isn't allowed after those before it, counted from 1,
with the refusal and the machine, axis, zone, station or light that it names:
  refused 3 LampRed feed
or the first record that can't be read, 0 for the profile's:
  unreadable 1
Records are counted and not lines: blank lines don't count. The command explain
names the line.

The refusals, in their order:
  JournalFull  PlateLimit  MachineFailed MACHINE  MachineHealthy MACHINE
  OwnerFailed MACHINE  WrongPose AXIS  ZoneTaken ZONE  NotHolder ZONE
  NotNeighbour  StationEmpty STATION  StationFull STATION  WrongPlate
  LampRed LIGHT  LampAlready LIGHT  NoPress  AlreadyAsked MACHINE
  PlateStillThere STATION  PlateExpected  NotReturnable

Exit status: 0 legal, 1 refused or unreadable, 2 wrong arguments, 3 a read or a
write failed, 4 out of memory.",
    example: "Example: cellctl audit examples/whole.journal",
};

pub(crate) const MIGRATE: CommandTexts = CommandTexts {
    about: "Write a journal of profile 1 in profile 2",
    help: "\
Reads a journal's text of profile 1 from FILE, or on standard input where no
file is named, and prints the same journal's text of profile 2: the record
profile,2,, and then the same entries' records.

The whole text is judged before anything is printed. Where it isn't a legal
journal's, nothing is, and standard error has the line of the command audit:
the first entry that isn't allowed, counted from 1
  refused 3 LampRed feed
or the first record that can't be read, 0 for the profile's, as of a text of
profile 2
  unreadable 0

Exit status: 0 migrated, 1 refused or unreadable, 2 wrong arguments, 3 a read
or a write failed, 4 out of memory.",
    example: "Example: cellctl migrate examples/whole.journal",
};

pub(crate) const CHECK: CommandTexts = CommandTexts {
    about: "Say whether a run's settings are good",
    help: "\
Reads a run's settings, in TOML, from a file:
  plates = 5               how many plates are laid in: required, 1 to 100000
  journal_limit = 100000   how many entries the journal has at most, but for
                           six failures more: 1 to 1000000
  turns = 100000           how many readings of its own each machine takes at
                           most: 1 to 10000000
  [watch.press_one]        of an axis's motions, in its machine's readings:
  leave = 3                one that shows nothing but the old pose up to this
                           reading is at fault: 2 to 999
  limit = 20               one that hasn't ended by this reading is at fault:
                           above leave, to 1000
What isn't given but for plates is as it stands here. The axes are feed_belt,
table_lift, table_turn, robot_turn, arm_one, arm_two, press_one, press_two and
deposit_belt.

Prints, for good settings,
  settings ok
or the first fault, and the key that has it:
  settings OutOfRange watch.press_one.limit
The faults, in this order:
  NotToml     the text is no TOML
  UnknownKey  no such key is known, or a key that has to be a table is none
  Missing     plates isn't there
  NotNumber   what stands there is no whole number
  OutOfRange  the number is outside its range

Exit status: 0 good, 1 a fault, 2 wrong arguments, 3 a read or a write failed,
4 out of memory.",
    example: "Example: cellctl check examples/cell.toml",
};

pub(crate) const SIM: CommandTexts = CommandTexts {
    about: "Run the simulated cell on one thread",
    help: "\
Runs the simulated cell on one thread, in rounds, until nothing more is to be
done in it. It reads three files. SETTINGS is TOML, as of the command check.
FAULTS and OPERATOR have records of four fields, by the rules of CSV, at most
1000 each, with no comments; an empty file, or /dev/null, has none.

A record of FAULTS is AXIS,N,KIND,ARGUMENT for the axis's N-th motion, 1 to
1000000, no two for one motion:
  press_two,1,no_motion,
The kinds, of which slow and silent take an argument, 1 to 1000:
  no_motion       the axis stays where it is
  keeps_old       it moves, and its old switch stays shown
  both            all its switches are shown from the second reading on
  slow            so many more readings show nothing
  lose_plate      the plates on its machine, or arm, are gone
  silent          so many readings are missing first
  refuse_command  the command to move fails

A record of OPERATOR is WHEN,ARGUMENT,ACTION,ARGUMENT:
  failed,press2,clear,press2
  failed,press2,repair,press2
WHEN is
  always          no argument
  admitted        so many plates at least, 0 to 100000; also delivered and
                  quarantined
  failed          the machine is booked failed
and ACTION
  stop, repair    a machine
  clear           a station, whose plate is taken out by hand
  expect          a plate's number, 1 to 100000, that is to be laid back
The records are done in their order; one that isn't allowed yet waits.

Prints how the run ended, and what it counted:
  finished
  admitted 6
  forged 5
  quarantined 1
  delivered 5
The ends:
  finished    nothing is left to do, all plates were laid in, and none is left
  stalled     nothing is left to do, and that isn't so
  turn limit  each machine has taken as many readings as the settings allow
  full        the journal has as many entries as the settings allow
  memory      memory was refused
Or prints, with --journal, the run's journal alone, which the command audit
reads. Or says what is wrong with the first text that is refused, of a script
with the record's number:
  settings OutOfRange plates
  faults unreadable 1
  operator too long

With --explain there stand besides, on standard error, the failed machines with
their causes, the plates in the cell and what each waits for, the operator's
first record that isn't done, and the faults whose motions were never reached.

With --follow it takes the run of a journal again, as one that the command run
printed with --journal, by the same three files: for each entry of JOURNAL in
order its machine alone takes readings until it books an entry, at most as many
as the settings allow, or the operator does his next record. Where each entry
came again the first line is
  followed
and else that of the first in whose place another came, or none:
  entry 43: declared,press1,no_departure, in place of forged,press1,1,
  entry 43: nothing in place of forged,press1,1,
or memory. The lines below it count what was booked, of which --journal prints
the text alone. A journal that is refused or can't be read is told by the line
of the command audit, and nothing runs.

With --from the run goes on from where JOURNAL left the cell: each axis has the
pose, each plate the place and each light the colour that it tells, and a
motion that was under way begins anew, but that of a failed machine. FAULTS
counts the motions that begin from there on, and OPERATOR is what is still to
be done. What is counted, and with --journal the text, is the whole journal's.
One that is refused, can't be read or has an entry that SETTINGS don't allow is
told by the line of the command audit, and nothing runs. It goes with neither
--follow nor --measures.

Exit status: 0 finished or followed, 1 another end, another or no entry, or a
text refused, 2 wrong arguments, 3 a read or a write failed, 4 out of memory.",
    example: "\
Example: cellctl sim examples/press_fails.toml \\
           examples/press_fails.faults examples/press_fails.operator",
};

pub(crate) const DRIVE: CommandTexts = CommandTexts {
    about: "Let a control method drive the simulated cell",
    help: "\
Lets a control method, a process of its own, drive the simulated cell in
rounds: it reads the method's lines on standard input and writes to standard
output. SETTINGS, FAULTS and OPERATOR are the files of the command sim, and are
told in the same lines where one is refused. The machines' own workers don't
run; the operator does his script. docs/DRIVING.md has the whole protocol.

Each line is a record of four fields, at most 20 bytes each, with no quotes.
First drive,1,PLATES, is written, and then in each round
  reading,MACHINE,SWITCHES,PRESENCE
                 for each machine, or missing,MACHINE,,
  round,R,,      now the method writes lines, each of which is answered
A line is the record of a machine's entry, as of the command audit:
  ok,N,,                 it is booked as entry N, and its command was sent
  failed,N,,             it is booked as entry N, and its command failed
  refused,NAME,WORD,     it isn't allowed, and nothing is done
  unreadable,,,          it is no such record
or with --raw, where nothing is booked, a command to the bare machines:
  on,AXIS,POSE,          off,AXIS,,         all_off,MACHINE,,
  magnet_on,ARM,,        magnet_off,ARM,,   lamp,LIGHT,COLOUR,
answered by ok,,, or failed,,, or unreadable,,,. Then the method ends the round
by done,,, or the run by quit,,, or by the end of its lines.

At the end it writes end,WHY,, with why the run ended, the lines of the command
sim below it, and what was measured. The ends:
  finished         all plates were laid in, and none is left in the cell
  turn limit       as many rounds as the settings allow
  full             the journal has as many entries as the settings allow
  quit             the method ended it
  too many lines   10000 lines in one round
  memory           memory was refused

With --journal the journal's text stands on standard error, and with --explain
the first entry of each kind that isn't so in the cell, and where each safety
rule was broken first. With --from the run goes on from a journal, as of the
command sim.

Exit status: 0 finished with nothing untrue and no rule broken, 1 else, or a
text refused, 2 wrong arguments, 3 a read or a write failed, 4 out of memory.",
    example: "\
Example: cellctl drive examples/cell.toml /dev/null /dev/null",
};

pub(crate) const RAW_HELP: &str = "Take commands to the bare machines, and no entries";

pub(crate) const CONTROL: CommandTexts = CommandTexts {
    about: "Control a cell over the standard streams",
    help: "\
Controls a cell, one's own or that of drive --raw, in rounds: it reads the
cell's lines on standard input and writes its commands to standard output.
SETTINGS and OPERATOR are the files of the command sim. docs/DRIVING.md has the
whole protocol, of which this is the other end:
  mkfifo lines
  cellctl drive --raw SETTINGS FAULTS /dev/null < lines |
      cellctl control SETTINGS OPERATOR > lines

The cell writes drive,1,PLATES, and then in each round what its machines show,
and round,R,,. Each machine takes a turn, and its command is answered by ok,,,
or failed,,, or unreadable,,,. Then the operator does his next record by
  remove,STATION,,       home,MACHINE,,
and done,,, ends the round. Between rounds someone at the cell may write
  operator,ACTION,ARGUMENT,
with an action of the operator's script: it is done where it is allowed, and
answered by booked,N,, or refused,NAME,WORD,. A reading that can't be read
counts as missing. At the end all_off,MACHINE,, is written for each machine,
and quit,,,.

With --journal FILE each entry's record is written to FILE, which has to be
new, before its command goes out; with --sync it is on the device by then. With
--resume the run of the journal in FILE goes on, with the same cell, which was
not ended: give the same words again. A last record without its end is cut off.
--resume and --sync go with --journal.

Standard error has at the end the lines of the command sim, with --explain why
the run ended so, and in place of its end maybe
  cell gone              the cell's lines have ended
  cell ended             the cell said end,WHY,,
  too many lines         the cell wrote 10000 lines and no round
  no cell                the first line isn't drive,1,PLATES,
  another version        it is that of another version
  journal can't be written
  read of the cell failed
  write to the cell failed
A stalled run ends, unless --wait lets it wait for what the cell's desk wants.

Exit status: 0 finished, 1 another end, or a text or a journal refused, 2 wrong
arguments, 3 a read or a write failed, 4 out of memory.",
    example: "\
Example: cellctl control --journal run.journal examples/press_fails.toml \\
           examples/press_fails.operator < from_cell > to_cell",
};

pub(crate) const CONTROL_USAGE: &str = "\
cellctl control [--journal FILE [--resume] [--sync]]
           [--wait] [--explain] <SETTINGS> <OPERATOR>";

pub(crate) const AHEAD_HELP: &str = "The file to which the journal is written ahead";

pub(crate) const RESUME_HELP: &str = "Go on from the journal in the file of --journal";

pub(crate) const SYNC_HELP: &str = "Have each record on the device before its command";

pub(crate) const WAIT_HELP: &str = "Let a stalled run wait for the cell's desk";

pub(crate) const RUN: CommandTexts = CommandTexts {
    about: "Run the simulated cell on threads",
    help: "\
Runs the simulated cell with a worker for each machine and one for the
operator, each on a thread of its own, until nothing more is to be done in it.
It reads the three files of the command sim, whose --help has their words, and
prints the same lines, or the same of a text that is refused. Here the line
  turn limit
says that one machine has taken as many readings as the settings allow.

Which worker acts first isn't determined, so two runs by the same files may
print different journals. Where a fault is planned, the operator stops a
machine, or the end is turn limit or full, the end and what is counted may
differ too. The line
  journal disagrees
says that some worker's list of what it booked isn't what the journal has of
it. With --measures the lines that begin with time tell the measures of the
run's journal, as the command measure does.

Exit status: 0 finished, 1 another end, a text refused or a journal that
disagrees, 2 wrong arguments, 3 a read or a write failed, 4 out of memory, or
no thread could be started, of which a second line on standard error tells.",
    example: "\
Example: cellctl run examples/press_fails.toml \\
           examples/press_fails.faults examples/press_fails.operator",
};

pub(crate) const SHOW: CommandTexts = CommandTexts {
    about: "Draw the cell as a journal's first entries left it",
    help: "\
Reads a journal's text from FILE, or on standard input where no file is named,
as the command audit does, and draws the cell as its first ENTRY entries left
it, or all of them where no ENTRY is given: each station with its plate, a
forged one with a star, each axis with its pose and where it is going, who
holds each zone, which machines are failed or asked to stop, the lights, what
was counted, the expected plate, how many plates are in quarantine, and the
last entry in words. ENTRY is a whole number in decimal digits; a file is named
by --file alone.

Prints at most 24 lines of 78 characters, plain ASCII or with --unicode also
other signs; with --svg one picture file; with --html one page for a browser,
which has the states after all entries, or as many as it shows: that after the
first N entries, or at the opening without --from, and those after each of the
next M, or as many as there are. M is 0 to 20000, and 20000 without --count. A
line on the page tells which states it shows, where they aren't all. With --svg
--times FILE the picture has at most 20000 entries on an axis of time, where
motions take what FILE says (see the command measure), and with --html --times
FILE the page can show its entries on such an axis. With --html --beside OTHER
two such pages stand side by side in one, that of the journal and that of the
journal in the file OTHER, and are stepped together. With --svg --animate
JOURNAL the picture moves: the first ENTRY entries of the journal in the file
JOURNAL, which has at most 20000, play in a loop.

A journal that is refused or can't be read is shown up to its last good entry,
and below stands the line of the command audit. The page has the entry that is
refused as a last step.

Exit status: 0 legal, 1 refused or unreadable, 2 wrong arguments, no such entry
or too many for a picture, 3 a read or a write failed, 4 out of memory.
The status is that of the journal, and not of OTHER.",
    example: "Example: cellctl show --file examples/whole.journal 20",
};

pub(crate) const SHOW_USAGE: &str = "\
cellctl show [--svg | --unicode] [--file FILE] [ENTRY]
       cellctl show --svg --times FILE [--file FILE] [ENTRY]
       cellctl show --svg --animate JOURNAL [ENTRY]
       cellctl show --html [--from N] [--count M] [--times FILE]
           [--beside OTHER] [--file FILE] [ENTRY]";

pub(crate) const EXPLAIN: CommandTexts = CommandTexts {
    about: "Say why a journal, settings or a script is refused",
    help: "\
Reads a journal's text from FILE, or on standard input where no file is named,
or with an option a file with settings, with the script of faults or with the
operator's script.

Prints, for a legal journal, the lines of the command audit; for another one
the line and the entry at which it stops, its record, the refusal, what is so
there, and the entry since which that is so:
  line 3, entry 2: lamp,feed,green,: LampAlready feed: (and so on)
or which field of the record can't be read, and what may stand there.

Prints, for settings, the line of the command check, and what may stand at the
key; for a script how many lines it has, or the line and the field that can't
be read and what may stand there.

Exit status: 0 good, 1 refused or unreadable, 2 wrong arguments, 3 a read or a
write failed, 4 out of memory.",
    example: "Example: cellctl explain examples/refused.journal",
};

pub(crate) const EXPLAIN_USAGE: &str = "\
cellctl explain [FILE]
       cellctl explain --settings FILE | --faults FILE | --operator FILE";

pub(crate) const JOURNAL_HELP: &str = "Print the run's journal alone";

pub(crate) const FOLLOW_HELP: &str = "Take the run of this journal again";

pub(crate) const FROM_HELP: &str = "Go on from where this journal left the cell";

pub(crate) const MEASURES_HELP: &str = "Tell the measures of a run in rounds";

pub(crate) const LEAST_HELP: &str = "Tell how long the run's events need at least";

pub(crate) const WHY_HELP: &str = "Say on standard error why the run ended so";

pub(crate) const SVG_HELP: &str = "Print one picture file in SVG";

pub(crate) const HTML_HELP: &str = "Print one page in HTML with all states";

pub(crate) const STATES_HELP: &str = "After how many entries the page begins";

pub(crate) const COUNT_HELP: &str = "How many entries the page shows from there on";

pub(crate) const BESIDE_HELP: &str = "The file with a journal to be shown beside it";

pub(crate) const ANIMATE_HELP: &str = "Let the entries of this journal play in the picture";

pub(crate) const UNICODE_HELP: &str = "Draw with signs beyond ASCII";

pub(crate) const MEASURE: CommandTexts = CommandTexts {
    about: "Tell how long a journal's events need at least",
    help: "\
Tells how long the events of legal journals need at least, and how that time
goes. An entry begins when all have ended for which it waits: those of its
machine and of its plate, and those that set a zone free which it wants. A
motion takes its duration, and all else no time.

Prints the time; the time of delivered plates from laying in to taking out, and
how many come for each 1,000 units after the first; of each machine how long it
moved, held a zone, waited for a zone, was failed and was idle; of each zone
how long each machine held it; and how long it was from a failure to the next
delivery and to the repair. Up to five journals stand side by side.

The durations are whole numbers from 0 to 1000, by axis or by pose, and 1 where
none is given:
  [time]
  robot_turn = 3
  press_one.top = 6

With --csv or --svg, one alone, it prints a line for each journal or a picture.

A journal that isn't legal is told as audit tells it: alone on standard output,
and where several are named on standard error, after its name.

Exit status: 0 all legal, 1 a journal or the durations are refused, 2 wrong
arguments, 3 a read or a write failed, 4 out of memory.",
    example: "Example: cellctl measure examples/whole.journal",
};

pub(crate) const EVENTS: CommandTexts = CommandTexts {
    about: "Tell a journal's entries with times, for other programs",
    help: "\
Tells the entries of a legal journal, each with the times at which it begins
and ends at the earliest and with its plate, in a form that other programs
read. Times and durations are those of the command measure.

Prints CSV, the names of the columns and a row for each entry:
  entry        the entry's number, from 1
  begin        when the motion started that it ends; else its end
  end          when it ends at the earliest
  actor        the machine that books it, or operator
  kind         the first word of its record
  axis, pose   of its motion; of an arm that grips or drops, the axis alone; of
               a light its belt, and the colour
  zone         the zone that is claimed or yielded
  plate        the plate of which it tells
  station      where that is, or the machine that is stopped or repaired
  cause        why a machine is declared failed
A field is blank where there is nothing to tell. With --trace it prints a trace
in JSON, in Chrome's trace event format, and with --vcd a value change dump. Of
the three flags one alone can be given.

A journal that isn't legal is told as audit tells it, and durations that are
refused as measure tells them.

Exit status: 0 legal, 1 the journal or the durations are refused, 2 wrong
arguments, 3 a read or a write failed, 4 out of memory.",
    example: "Example: cellctl events --trace examples/whole.journal",
};

pub(crate) const EVENTS_USAGE: &str = "\
cellctl events [--csv | --trace | --vcd] [--times FILE] <JOURNAL>";

pub(crate) const ROWS_HELP: &str = "Print CSV, as without a flag";

pub(crate) const TRACE_HELP: &str = "Print a trace in JSON, in Chrome's trace event format";

pub(crate) const VCD_HELP: &str = "Print a value change dump, VCD";

pub(crate) const LISTED_HELP: &str = "The file with the journal";

pub(crate) const SWEEP: CommandTexts = CommandTexts {
    about: "Run the simulated cell once for each choice of faults",
    help: "\
Runs the simulated cell in rounds once for each fault: each kind, in each
motion of each axis, alone. With --pairs it runs once for each two of these
faults in different motions, and with --random N times, each time with K of
them, 1 to 100, that are drawn by the number S, 0 to 4294967295. Prints a line
for each run: the axis, the motion and the kind of each fault, the run's end as
sim tells it, how many plates were admitted, forged, quarantined and delivered,
how long its events need at least, and the first line of what sim --explain
says of its end; and then how many runs had each end.

LIST has kinds of faults with commas between them; slow and silent may have a
colon and a number of readings, and have 30 else. All kinds are taken where none
is given, and as many motions of each axis as it has without faults.

With --service the operator does what OPERATOR says, and besides clears what is
in a failed machine, repairs it and lays back each plate that can come back.

With --part it makes the runs of the K-th of N equal parts alone, N being at
most 1000000: the lines of all parts are those of all runs. With --threads so
many threads make runs, and the same is printed.

--seed and --faults go with --random, and --random not with --pairs; --svg goes
with none of --csv, --pairs, --random and --part.

On a terminal standard error tells how many runs are done.

Exit status: 0 all runs are told, however they ended, 1 a text is refused,
2 wrong arguments, 3 a read or a write failed, 4 out of memory.",
    example: "Example: cellctl sweep --kinds lose_plate,slow:50 examples/press_fails.toml /dev/null",
};

pub(crate) const EXPLORE: CommandTexts = CommandTexts {
    about: "Look at every order of events of the cell",
    help: "\
Looks at every state that the cell can reach from its opening with PLATES
plates, 0 to 15, whatever the order in which machines book what is useful,
motions end, and plates are laid in and taken out. With --fail a machine, feed,
table, robot, press1, press2 or deposit, may be declared failed once, at any
moment; with --repair the operator clears and repairs what failed, whenever
that is allowed.

Prints how many states there are, how many steps lead from one to another, how
far the farthest is from the opening, how many states are finished and how many
are stuck: nothing can happen there but a failure, and a plate stands in a
healthy machine or not all were laid in.
  states 1631
  steps 4544
  deepest 72
  finished 1
  stuck 0
Or says that there are more than STATES states, 1 to 4294967295, by default
2000000:
  more than 2000000 states
With --journal prints in their place the shortest journal to a stuck state,
or, if there is none, to the end. With --threads so many threads look at
states, and the same is printed.

On a terminal standard error tells how many states were looked at.

Exit status: 0 nothing is stuck, 1 something is, or there are more states,
2 wrong arguments, 3 a write failed, 4 out of memory.",
    example: "Example: cellctl explore --fail press2 1",
};

pub(crate) const FAIL_HELP: &str = "A machine that may fail; may be given several times";

pub(crate) const REPAIR_HELP: &str = "Let the operator clear and repair what failed";

pub(crate) const LIMIT_HELP: &str = "How many states to look at, at the most";

pub(crate) const WAY_HELP: &str = "Print the shortest journal to a stuck state, or to the end";

pub(crate) const PLATES_HELP: &str = "How many plates are laid in";

pub(crate) const KINDS_HELP: &str = "The kinds of faults, with commas between them";

pub(crate) const MOTIONS_HELP: &str = "How many motions of each axis to go through";

pub(crate) const PAIRS_HELP: &str = "Make a run for each pair of faults";

pub(crate) const RANDOM_HELP: &str = "Make so many runs, with faults that are drawn";

pub(crate) const SEED_HELP: &str = "The number by which faults are drawn: by default 1";

pub(crate) const DRAWN_HELP: &str = "How many faults are drawn for each run: by default 2";

pub(crate) const PART_HELP: &str = "Make the runs of part K of N alone";

pub(crate) const THREADS_HELP: &str = "How many threads to use, 1 to 64: by default 1";

pub(crate) const SERVICE_HELP: &str = "Let the operator serve failed machines besides";

pub(crate) const RUNS_HELP: &str = "Print a line of CSV for each run";

pub(crate) const TIMES_HELP: &str = "A file with the durations of motions";

pub(crate) const CSV_HELP: &str = "Print a line of CSV for each journal";

pub(crate) const JOURNALS_HELP: &str = "The files with the journals";

pub(crate) const FILE_HELP: &str = "The file with the journal; with none it is on standard input";

pub(crate) const ENTRY_HELP: &str = "How many of the first entries to take";

pub(crate) const SETTINGS_HELP: &str = "The file with the settings";

pub(crate) const FAULTS_HELP: &str = "The file with the script of faults";

pub(crate) const OPERATOR_HELP: &str = "The file with the operator's script";
