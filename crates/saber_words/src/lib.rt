//! The words of the command line: which are a command of `saber`, and what it asks for.
//! The top call reads its words by it; the kit's `clap` does the work.
//!
//! - Parts: `commands` (what may be asked for), `flags` and `numbers` (options), `table`
//!   (subcommands, for `clap`), `chain`, `demo` and `many` (their words), `reading` (the call, and
//!   the words of `run` and `check`), `laws`.
//! - Call: `read_words` takes the words, the program's name first, and gives a `Command`, or a
//!   `WordsFault`: no command, or want of memory. A wish for help is no command. `read_many` does
//!   the same for `many`, which `read_words` takes for no command; `out_name` is the name of the
//!   file that one of its queries writes to.
//! - Proved: the command is exactly the one that the words ask for (`specs/Commands.antt` and
//!   `specs/Many.antt`), and they are refused as no command only where they are none. Its numbers
//!   lie within their ranges, whatever the words (clauses `sizes`). Laws: what words of file names
//!   alone come to.
//! - Not claimed: what `clap` would print. Its contract is the kit's, and trusted.
//! - Limits: README.md has the ranges of options; `many` takes one to eight queries. A word of two
//!   bytes or more that begins with `-` is no file name.
#![tactic(auto)]

mod chain;
mod commands;
mod demo;
mod flags;
mod laws;
mod many;
mod numbers;
mod reading;
mod table;

pub use commands::{Chain, Check, Command, Demo, Many, RowNames, Run, WordsFault};
pub use laws::{words_of_file_names, words_of_many};
pub use many::{out_name, read_many};
pub use reading::read_words;
