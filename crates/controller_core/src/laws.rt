//! What holds of all histories.
ghost use Rattle.std.specs.Prelude.{◌≡◌, true, [], ◌∷◌, ◌++◌, List};
ghost use Rattle.controller_core.specs.declared.entry.Entry.{Entry as AnyEntry};
ghost use Rattle.controller_core.specs.Controller.{ControllerIs, has_ended, state_of};
ghost use Rattle.controller_core.specs.Controller.{due_step, grown, step_end, stepped, AreOf};
ghost use Rattle.controller_core.specs.Feeding.{RowsKeepHistories};
ghost use Rattle.controller_core.specs.Panel.{line_of_end, panel_lines};
ghost use Rattle.controller_core.specs.Run.{ends_with, run_of};
ghost use Rattle.controller_core.specs.Laws.{CallsFollow, ConditionsStay, KeptPowerIsOn};
ghost use Rattle.controller_core.specs.Laws.{EntriesAddTheirLines, FrontsAreLegal};
ghost use Rattle.controller_core.specs.Notes.{EntriesAddTheirNotes, NotesAskNoScans};
ghost use Rattle.controller_core.specs.NotedLines.{NotesTellTheLines};

use crate::entry::Maker;
use ladder_solver::segments_keep_calls;
use mstr_block::{calls_are_taken_in_order, finishes_end_one_call, power_failures_keep_calls};
use scan_order::{kept_power_stays, scans_end_once};

/// A controller that makes nothing but steps ends with the run of its fixed part: this holds at
/// its start, each step keeps it, and its history is that run once it has ended.
pub fn steps_make_the_run()
    ensures starts { (v : ControllerIs) → v.history ≡ [] → ends_with v ≡ run_of v.fixed }
    ensures keeps { (v : ControllerIs) → ends_with (stepped v) ≡ ends_with v }
    ensures ended { (v : ControllerIs) → has_ended v ≡ true → ends_with v ≡ v.history }
{}

/// A step adds the line of its scan, if it is the last of it, to the panel lines of the history.
pub fn steps_add_their_lines()
    ensures { (v : ControllerIs) → panel_lines v.fixed (stepped v).history
        ≡ panel_lines v.fixed v.history
        ++ line_of_end v.fixed.plan (step_end v) (state_of (stepped v)) }
{}

/// Answers to other nodes end no condition of the scan: after any number of them the same step is
/// due, with the same entry but for its words, and as much is over.
pub fn answers_leave_the_scan()
    ensures due { (v : ControllerIs) (added : List AnyEntry) → AreOf Maker.Communication added
        → due_step (grown v added v.reserved) ≡ due_step v }
    ensures ended { (v : ControllerIs) (added : List AnyEntry) → AreOf Maker.Communication added
        → has_ended (grown v added v.reserved) ≡ has_ended v }
    ensures stop { (v : ControllerIs) (added : List AnyEntry) → AreOf Maker.Communication added
        → (state_of (grown v added v.reserved)).stop ≡ (state_of v).stop }
{}

/// A step leaves a controller as it is where all scans are gone or it has stopped.
pub fn ended_controllers_stay()
    ensures { (v : ControllerIs) → has_ended v ≡ true → stepped v ≡ v }
{}

/// Steps and answers to other nodes keep that a call is there to collect, that a call is out, and
/// that the controller has ended.
pub fn conditions_stay()
    ensures { ConditionsStay }
{
    segments_keep_calls();
    power_failures_keep_calls();
}

/// A Collect takes all calls that were started; a Finish ends its call alone.
pub fn calls_follow()
    ensures { CallsFollow }
{
    calls_are_taken_in_order();
    finishes_end_one_call();
}

/// In a legal history of a plan that keeps its power, power is always on.
pub fn kept_power_is_on()
    ensures { KeptPowerIsOn }
{
    kept_power_stays();
}

/// A prefix of a legal history is legal.
pub fn fronts_are_legal()
    ensures { FrontsAreLegal }
{}

/// An entry adds its panel line.
pub fn entries_add_their_lines()
    ensures { EntriesAddTheirLines }
{}

/// An entry adds what it notes of the panel.
pub fn entries_add_their_notes()
    ensures { EntriesAddTheirNotes }
{}

/// What is noted of the panel is the same however many scans a controller makes.
pub fn notes_ask_no_scans()
    ensures { NotesAskNoScans }
{}

/// What a legal history has noted tells its panel lines.
pub fn notes_tell_the_lines()
    ensures { NotesTellTheLines }
{
    scans_end_once();
}

/// A row that is added to the script of a drop keeps each history in which the drop has made at
/// most as many input exchanges as it has rows: its state, what it notes, and that it is legal.
pub fn rows_keep_histories()
    ensures { RowsKeepHistories }
{}
