//! A law about command lines.
ghost use Rattle.kd_curator_command.specs.CommandLine.{CommandLinesMeanOneCommand};

/// A command line means at most one command.
pub fn command_lines_mean_one_command()
    ensures { CommandLinesMeanOneCommand }
{}
