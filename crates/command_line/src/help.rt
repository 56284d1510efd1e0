//! The version, and the parts of the help that do not describe options.

/// A description of the program.
pub const ABOUT: &str = "\
Converts run-time addresses to functions, files and lines while modules are loaded and unloaded.";

/// The version of the program.
pub const VERSION: &str = "0.9.0";

/// The commands on standard input, with an example.
pub const COMMANDS: &str = "\
Without ADDR, commands are read from standard input, one a line. Each is answered at once:
  load NAME BASE PATH   load the object file PATH, with its link address 0 at BASE
  unload NAME           unload a module
  move NAME BASE        move a module to another base
  list                  list the modules by address, then print end
  ADDR                  print FILE:LINE for a run-time address
BASE and ADDR are hexadecimal, with or without 0x. NAME has letters, digits, '_', '-' and '.'.
A command that fails gets a reply that begins with refused, and changes nothing.

Example:
  $ printf 'load app 0x550000000000 ./app\\n550000001136\\n' | addr2line_live -f -i
  loaded app 0x0000550000000000-0x0000550000004030
  square
  /home/me/app.c:3
  main
  /home/me/app.c:7
";
