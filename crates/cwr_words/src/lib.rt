//! The words of the command line of `cwr`, and what they ask for.
#![tactic(auto)]

mod words;

pub use words::{
    AcksWords, AdviseWords, AnsweredWords, Colouring, CsvWords, JoinWords, JsonWords, Judging,
    Kinds, LintWords, RenumberWords, Rows, SelectWords, SentAs, ShowWords, SplitWords,
    SummaryWords, Task, Work, WriteWords, task_of,
};
