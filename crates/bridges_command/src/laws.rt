//! A law of reports.

ghost use Rattle.std.specs.Prelude.{◌≡◌, ℕ, List, Some};
ghost use Rattle.probe_io.specs.Files.{File};
ghost use Rattle.command_base.specs.declared.endings.Ending.{Ending};
ghost use Rattle.bridges_command.specs.Reports.{AreOneReport};

/// Words and files have one report at most, and one ending, so every byte of it is determined.
pub fn one_report()
    ensures { (words : List (List ℕ)) (files : List File) (ending ending' : Ending) (text other : List ℕ) → AreOneReport words files ending ending' text other }
{}
