//! Laws of commands, as contracts of calls that do nothing.
ghost use Rattle.std.specs.Prelude.{ℕ, List};
ghost use Rattle.sagbi_cli.specs.declared.command.Command.{Command};
ghost use Rattle.sagbi_cli.specs.Command.{IsCommand};
ghost use Rattle.sagbi_cli.specs.SameCommand.{IsSameCommand};

/// Words are those of one command at most.
pub fn one_command()
    ensures { (words : List (List ℕ)) (a b : Command) →
        IsCommand words a → IsCommand words b → IsSameCommand a b }
{}
