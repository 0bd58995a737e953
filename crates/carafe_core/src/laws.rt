//! A law of answers.

ghost use Rattle.std.specs.Prelude.{ℕ, List};
ghost use Rattle.probe_io.specs.Files.{File};
ghost use Rattle.command_base.specs.Exact.{IsExact};
ghost use Rattle.carafe_core.specs.Commands.{job_of};

/// Words and files have one refusal at most, and none beside a report or one that is begun.
pub fn one_answer()
    ensures { (words : List (List ℕ)) (files : List File) → IsExact (job_of words) files }
{}
