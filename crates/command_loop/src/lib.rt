//! The command loop. It parses the lines of the input and the addresses of the command line as
//! requests, applies each request to the loaded modules and writes the reply. All types that `run`
//! and `program` take and return are exported here.
#![tactic(auto)]

mod commands;
mod file_source;
mod input;
mod line_buffer;
mod load_exe;
mod prefetch;
mod programs;
mod replies;
mod request;
mod run_loop;
mod words;

pub use answer_text::print;
pub use command_line::{CliFault, options};
pub use commands::{BadLine, Command, parse_line};
pub use file_source::FileSource;
pub use io_streams::{
    Device, DeviceFault, ExeFault, Feed, FetchFault, Objects, Options, RunFault, Sink,
};
pub use module_map::{
    Answer, Asked, Extent, Frame, Frames, Listing, LoadFault, MapFault, Modules, Path, Site, Steps,
};
pub use programs::program;
pub use run_loop::run;
