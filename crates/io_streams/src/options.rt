//! The options of answers and of a run.

ghost use Rattle.std.specs.Prelude.{◌≡◌, [], false, None};

use std::alloc::Global;

/// The options of the command line.
#[derive(Debug, Drop)]
pub struct Options {
    /// Print the address before each answer.
    pub addresses: bool,
    /// Print the names of functions.
    pub functions: bool,
    /// Print all frames, not only the innermost one.
    pub inlines: bool,
    /// Print each frame on one line.
    pub pretty: bool,
    /// Print only the base name of a path: the part after its last slash.
    pub basenames: bool,
    /// Print linkage names instead of names, if they are present.
    pub linkage: bool,
    /// The path of the object to load first, at base 0.
    pub exe: Option<String>,
    /// The maximum number of cached answers.
    pub cache: usize,
    /// The addresses to answer. If there are none, commands are read.
    pub words: Vec<u64>,
}

impl Options {
    /// Returns options without flags, addresses or a cache. Allocates no memory.
    pub fn plain(alloc: Global) -> Options
        ensures flags { (result.addresses ≡ false) × (result.functions ≡ false)
            × (result.inlines ≡ false)
            × (result.pretty ≡ false) × (result.basenames ≡ false) × (result.linkage ≡ false) }
        ensures exe { result.exe ≡ None }
        ensures cache { result.cache ≡ 0 }
        ensures words { result.words.items ≡ [] }
    {
        Options {
            addresses: false,
            functions: false,
            inlines: false,
            pretty: false,
            basenames: false,
            linkage: false,
            exe: None,
            cache: 0,
            words: Vec::new(alloc),
        }
    }
}
