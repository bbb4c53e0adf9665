//! What the words of the command line may ask for.
use saber_plan::Sizes;
use std::alloc::AllocError;

/// The names of the row files of a query.
#[derive(Clone, Copy)]
pub struct RowNames<'a> {
    /// The rows of the first stream of FROM.
    pub left: &'a str,
    /// The rows of the second stream, where one was named.
    pub right: Option<&'a str>,
}

/// To answer a query over its files. Each text is the name of a file.
#[derive(Clone, Copy)]
pub struct Run<'a> {
    /// The text of the query.
    pub query: &'a str,
    /// The rows of the streams of FROM.
    pub rows: RowNames<'a>,
    /// Where the words don't say: tasks of 1,024 rows, a ring of 64 cells, 2 threads, `2^40` lines a
    /// file, timestamps that don't fall, and an end of the input that closes no window.
    pub sizes: Sizes,
}

/// To check a query, without its files. The text is the name of a file.
#[derive(Clone, Copy)]
pub struct Check<'a> {
    /// The text of the query.
    pub query: &'a str,
}

/// To run the demo's query over generated rows.
#[derive(Clone, Copy)]
pub struct Demo {
    /// What the generator begins with, 0 to 2,147,483,647.
    pub seed: u32,
    /// How many rows there are, 0 to 1,048,576.
    pub rows: u32,
    /// Tasks, ring and threads as of a run. The file may have `2^40` lines, whose timestamps don't
    /// fall, and its end closes no window.
    pub sizes: Sizes,
}

/// To answer a query over its files, and a second one whose rows are the lines of the first one's
/// answer: the number of a window is the time of such a row. Each text is the name of a file.
#[derive(Clone, Copy)]
pub struct Chain<'a> {
    /// The text of the first query.
    pub first: &'a str,
    /// The text of the second one.
    pub second: &'a str,
    /// The rows of the streams of the first query's FROM.
    pub rows: RowNames<'a>,
    /// Of each of both queries, as of a run; the end of the input closes no window.
    pub sizes: Sizes,
}

/// To answer several queries of one stream over the rows of one file, each into a file of its own.
/// Each text is the name of a file.
#[derive(Drop)]
pub struct Many<'a> {
    /// The rows of the stream of each query's FROM.
    pub left: &'a str,
    /// The texts of the queries, of which there are 1 to 8.
    pub queries: Vec<&'a str>,
    /// As of a run, but each query has 0 to 8 threads beside the caller's.
    pub sizes: Sizes,
}

/// A command of the program.
#[derive(Clone, Copy)]
pub enum Command<'a> {
    /// `run QUERY LEFT [RIGHT] [--task N] [--ring B] [--threads T] [--max-lines M] [--slack S]
    /// [--final]`
    Run(Run<'a>),
    /// `check QUERY`
    Check(Check<'a>),
    /// `demo SEED ROWS [--task N] [--ring B] [--threads T]`
    Demo(Demo),
    /// `chain QUERY1 QUERY2 LEFT [RIGHT] [--task N] [--ring B] [--threads T] [--max-lines M]
    /// [--slack S]`
    Chain(Chain<'a>),
}

/// Why no command was read.
#[derive(Clone, Copy)]
pub enum WordsFault {
    /// Memory ran out, whatever the words say.
    NoMemory,
    /// The words are no command. A wish for help or for the version is one of these.
    Usage,
}

impl From<AllocError> for WordsFault {
    ghost use Rattle.std.specs.Prelude.{◌≡◌};
    ghost use Rattle.saber_words.specs.declared.commands.WordsFault.{WordsFault};

    ghost from_gives = { λ _ fault. fault ≡ WordsFault.NoMemory };

    fn from(_error: AllocError) -> WordsFault {
        WordsFault::NoMemory
    }
}
