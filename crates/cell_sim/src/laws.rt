//! What holds of scripts of faults. Each function's contract is the law, and its body is empty.
ghost use Rattle.std.specs.Prelude.{◌≡◌, ◌∷◌, [], ℕ, List, Ok, true};
ghost use Rattle.cell_rows.specs.Rows.{rows_of};
ghost use Rattle.cell_rows.specs.Scripts.{lines_of};
ghost use Rattle.cell_types.specs.declared.words.Command.{Command};
ghost use Rattle.cell_sim.specs.Commands.{IsWithin, after_command, fails};
ghost use Rattle.cell_sim.specs.Script.{are_later, next_fault};
ghost use Rattle.cell_sim.specs.Simulated.{Simulated};
ghost use Rattle.cell_sim.specs.Spelled.{IsSaid, script_of};
ghost use Rattle.cell_sim.specs.declared.fault.PlannedFault.{PlannedFault};

/// The script of one fault that a record can say is read as that fault alone.
pub fn a_fault_is_read_back()
    ensures { (f : PlannedFault) → IsSaid f → lines_of next_fault (rows_of (script_of f)) ≡ Ok (f ∷ []) }
{}

/// A command does the same with faults in later motions as with none.
pub fn later_faults_do_nothing_yet()
    ensures world { (latest : List ℕ) (faults : List PlannedFault) (w : Simulated) (c : Command)
        → are_later latest faults ≡ true → IsWithin latest w c → after_command faults w c ≡ after_command [] w c }
    ensures fails { (latest : List ℕ) (faults : List PlannedFault) (w : Simulated) (c : Command)
        → are_later latest faults ≡ true → IsWithin latest w c → fails faults w c ≡ fails [] w c }
{}
