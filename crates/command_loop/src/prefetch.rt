//! Reads the data for the answers to several lines at once.

use bstr::ByteSlice;
use command_line::parse_number;
use io_streams::Options;
use module_map::{Modules, PREFETCHED};

/// Reads the data for the answers to the next lines before the first of them is served. The
/// processor waits for memory once, not for each answer in turn. This performs no request, and no
/// reply depends on it.
#[derive(Drop)]
pub struct Prefetch {
    /// The number of lines to serve before data is read again.
    lines: usize,
    /// Depends on all data that was read, so that the compiler does not omit the reads.
    touched: bool,
}

/// Returns the address of the first line, if the line is complete and an address, and the lines
/// after it.
fn first_address(lines: &[u8]) -> Option<(u64, &[u8])> {
    let end = lines.find_byte(b'\n')?;
    let address = parse_number(&lines[..end])?;
    Some((address, &lines[end + 1..]))
}

impl Prefetch {
    pub fn new() -> Prefetch {
        Prefetch {
            lines: 0,
            touched: false,
        }
    }

    /// Is called before a line is served. `lines` starts with this line. Unless data for this line
    /// was read, reads the data for it and the lines after it, up to one that is not an address.
    pub fn before_line(&mut self, options: &Options, modules: &Modules, lines: &[u8]) {
        if self.lines > 0 {
            self.lines -= 1;
            return;
        }
        if let Some((first, rest)) = first_address(lines) {
            self.read(options, modules, first, rest);
        }
    }

    /// Reads the data for an address and for those of the next lines, if there are any.
    fn read(&mut self, options: &Options, modules: &Modules, first: u64, rest: &[u8]) {
        let mut addresses = [first; PREFETCHED];
        let mut count = 1;
        let mut rest = rest;
        while count < PREFETCHED {
            let Some((address, after)) = first_address(rest) else {
                break;
            };
            addresses[count] = address;
            count += 1;
            rest = after;
        }
        self.lines = count - 1;
        if count == 1 {
            return;
        }
        let frames = options.functions || options.inlines;
        self.touched ^= modules.prefetch(&addresses[..count], frames);
    }
}
