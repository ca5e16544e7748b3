ghost use Rattle.project_sources.specs.Faults.{read_rows, rows};
ghost use Rattle.project_sources.specs.Laws.{CentresComeLast, NoFilesNoProject, OneAnswer, OneFault, OneOutcome, OneTable, ProjectsAreSound, ProjectsHaveTables, all_readers};

/// Sources have at most one first fault.
pub fn one_fault()
    ensures { OneFault all_readers }
{}

/// Sources are one project, or have one first fault, and not both.
pub fn one_answer()
    ensures { OneAnswer all_readers }
{}

/// Sources have one table of glosses, and those that are a project have one.
pub fn one_table()
    ensures one { OneTable all_readers }
    ensures some { ProjectsHaveTables all_readers }
{}

/// In the project of sources without a fault each name is defined, none reaches itself, and no definition weighs too much.
pub fn projects_are_sound()
    ensures whole { ProjectsAreSound all_readers rows }
    ensures read { ProjectsAreSound all_readers read_rows }
{}

/// Without files the manifest is missing.
pub fn no_files_no_project()
    ensures { NoFilesNoProject rows }
{}

/// An empty centre is the fault where none is read before.
pub fn centres_come_last()
    ensures { CentresComeLast all_readers read_rows }
{}

/// Edits make one thing of what is held, or have one fault.
pub fn one_outcome()
    ensures { OneOutcome }
{}
