//! The limits on which the definitions rest.

ghost use Rattle.std.specs.Prelude.{◌≡◌};
ghost use Rattle.adb_shell_service.specs.declared.commands.TheConstants.{STATUS_DIGITS};
ghost use Rattle.adb_shell_service.specs.declared.output.TheConstants.{STDIN, STDOUT, STDERR};
ghost use Rattle.adb_shell_service.specs.declared.output.TheConstants.{EXIT, CLOSE_STDIN, MAX_OUTPUT};

/// States the numbers that the definitions take from the code.
pub fn limits_are()
    ensures input { STDIN ≡ 0 }
    ensures output { STDOUT ≡ 1 }
    ensures error_output { STDERR ≡ 2 }
    ensures exit { EXIT ≡ 3 }
    ensures end_of_input { CLOSE_STDIN ≡ 4 }
    ensures output_in_a_packet { MAX_OUTPUT ≡ 65536 }
    ensures digits_of_a_status { STATUS_DIGITS ≡ 3 }
{}
