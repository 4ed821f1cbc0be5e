//! The words that the program takes: its subcommands, their options and their names of files.

ghost use Rattle.std.specs.Prelude.{◌≡◌, IfOk, Some, false, pos, true};
ghost use Rattle.clap.specs.Words.{app_of, rule_of};
ghost use Rattle.clap.specs.declared.builder.Command.TheViews.{out-Command as fields_of};
ghost use Rattle.cwr_grammar.specs.Format.CommandLine.{ends, flag, grammar, letter, limits, needed, option, option_or, options, places, readings, shows, subcommands, writings};
ghost use Rattle.cwr_grammar.specs.Steps.Tables.{app_of_subcommand, bare, between, common_rules, rule_of_form, rule_of_word, with_rules, with_shapes, with_subcommands, with_words};

use clap::builder::ValueParser;
use clap::{Arg, ArgAction, Command, value_parser};
use std::alloc::{AllocError, Global};

/// The name of the subcommand that checks.
pub const CHECK: &str = "check";

/// The name of the subcommand that shows.
pub const SHOW: &str = "show";

/// The name of the subcommand that explains.
pub const EXPLAIN: &str = "explain";

/// The name of the subcommand that tells every fault.
pub const LINT: &str = "lint";

/// The name of the subcommand that advises.
pub const ADVISE: &str = "advise";

/// The name of the subcommand that writes JSON.
pub const JSON: &str = "json";

/// The name of the subcommand that writes tables.
pub const CSV: &str = "csv";

/// The name of the subcommand that tells what acknowledgements say.
pub const ACKS: &str = "acks";

/// The id of the files of the transmissions that acknowledgements answer.
pub const SENT: &str = "sent";

/// The id of the files of the acknowledgements by which transactions are selected.
pub const ANSWERS: &str = "answers";

/// The id of the flag by which an acknowledgement may answer any of them.
pub const BY_PLACE: &str = "by-place";

/// The id of the flag that asks for a table of what became of each transaction, or of the states that select one.
pub const STATE: &str = "state";

/// The id of the statuses of the acknowledgements that are told.
pub const STATUS: &str = "status";

/// The id of the flag that asks for lines of JSON.
pub const AS_JSON: &str = "json";

/// The name of the subcommand that sums up.
pub const SUMMARY: &str = "summary";

/// The id of the flag that asks for a table.
pub const AS_CSV: &str = "csv";

/// The id of the flag that leaves out digests.
pub const NO_DIGEST: &str = "no-digest";

/// The name of the subcommand that reads JSON.
pub const WRITE: &str = "write";

/// The name of the subcommand that splits.
pub const SPLIT: &str = "split";

/// The name of the subcommand that joins.
pub const JOIN: &str = "join";

/// The name of the subcommand that puts numbers right.
pub const RENUMBER: &str = "renumber";

/// The name of the subcommand that selects transactions.
pub const SELECT: &str = "select";

/// The id of the list of numbers.
pub const LISTED: &str = "works";

/// The id of the list of places.
pub const PLACES: &str = "places";

/// The id of the kinds of transactions.
pub const KINDS: &str = "kind";

/// The id of the party's number.
pub const PARTY: &str = "party";

/// The id of the flag that selects all others.
pub const OTHERS: &str = "not";

/// The id of what works are sent as.
pub const SENT_AS: &str = "as";

/// What they may be sent as: new or revised ones, by the letters of their headers.
const WORK_KINDS: [&str; 2] = ["NWR", "REV"];

/// The id of the flag by which what is selected keeps its moment.
pub const SAME_CREATED: &str = "same-created";

/// The name of the subcommand that prints the manual.
pub const MANUAL: &str = "manual";

/// The id of the one file of a subcommand, or of its files.
pub const FILE: &str = "FILE";

/// The id of the number of transactions of a part.
pub const NUMBER: &str = "N";

/// The id of the flag that adds numbers.
pub const NUMBERS: &str = "numbers";

/// The id of the flag that shows cells in UTF-8 as their texts.
pub const UTF8: &str = "utf8";

/// The id of the flag that asks for explanations.
pub const EXPLAINED: &str = "explain";

/// The id of the flag that asks for advice.
pub const ADVICE: &str = "advice";

/// The id of the flag that asks for all advice.
pub const ALL: &str = "all";

/// The id of how many works' numbers are kept.
pub const REPEATED: &str = "repeated";

/// The id of the flag that leaves out what is good.
pub const QUIET: &str = "quiet";

/// The id of the level of findings, or of the states, that end a run as a refusal does.
pub const FAIL_ON: &str = "fail-on";

/// The id of the flag that wants nothing after a transmission.
pub const WHOLE: &str = "whole";

/// The id of the flag that shows how far a long run is.
pub const PROGRESS: &str = "progress";

/// The id of the flag that doesn't.
pub const NO_PROGRESS: &str = "no-progress";

/// The id of the flag that wants no file replaced.
pub const NEW: &str = "new";

/// The id of the flag that puts numbers right whatever they show.
pub const ANYWAY: &str = "anyway";

/// The levels by their letters.
const LEVELS: [&str; 5] = ["F", "R", "T", "G", "E"];

/// The statuses of transactions by their codes.
const STATUSES: [&str; 10] = ["CO", "DU", "RA", "AS", "AC", "SR", "CR", "RJ", "NP", "RC"];

/// The id of the option that says when words of lines have colours.
pub const COLOR: &str = "color";

/// When they have: where standard output is a terminal, always, or never.
const COLORINGS: [&str; 3] = ["auto", "always", "never"];

/// The id of what a table has rows of.
pub const KIND: &str = "KIND";

/// The word for the table of works.
pub const WORKS: &str = "works";

/// What tables have rows of: the works, or the records of a kind, by its letters.
#[rattlefmt::skip]
const TABLES: [&str; 41] = [
    "works", "HDR", "GRH", "GRT", "TRL", "AGR", "TER", "IPA", "NWR", "REV", "SPU", "OPU", "SPT", "SWR", "OWR", "SWT", "PWR", "ALT", "EWT",
    "VER", "PER", "REC", "ORN", "COM", "ACK", "MSG", "OPT", "OWT", "NPN", "NPR", "NWN", "NPA", "NET", "NOW", "NCT", "NVT", "NAT",
    "INS", "IND", "ARI", "XRF",
];

/// The id of the most bytes of a line.
pub const LINE: &str = "line";

/// The id of what the names of the parts' files begin with.
pub const PREFIX: &str = "PREFIX";

/// The id of the file that is written.
pub const OUT: &str = "OUT";

/// The id of the option that names what is written.
pub const INTO: &str = "o";

/// The id of the moment at which what is written was created.
pub const CREATED: &str = "created";

/// The id of the flag that wants one sender.
pub const SAME_SENDER: &str = "same-sender";

/// The id of the most records of a transmission.
pub const RECORDS: &str = "records";

/// The id of the most groups of a transmission.
pub const GROUPS: &str = "groups";

/// The id of the most records of one transaction.
pub const TRANSACTION: &str = "transaction";

/// What stands on the command line for a word.
#[derive(Clone, Copy, Debug)]
enum Form {
    /// `--ID`.
    Flag,
    /// `--ID NUMBER`, a whole number from the least to the most, which is that one where it isn't given.
    Limit {
        least: i64,
        most: i64,
        default: &'static str,
    },
    /// `--ID LEVEL`, one of the levels.
    Level,
    /// `--ID KIND`, one of the kinds of works.
    WorkKind,
    /// `--ID NAME`, where NAME is this, any number of times.
    Names(&'static str),
    /// The same, only beside the option of that id.
    NamesBeside {
        name: &'static str,
        other: &'static str,
    },
    /// `--ID STATUS`, statuses with commas between them, any number of times, but not beside the option of that id.
    StatusesWithout(&'static str),
    /// `--ID`, only beside the option of that id.
    FlagBeside(&'static str),
    /// `--ID`, but not beside the option of that id.
    FlagWithout(&'static str),
    /// `--ID NAME`, where NAME is this, only beside the option of that id.
    NameBeside {
        name: &'static str,
        other: &'static str,
    },
    /// `-LETTER ID`.
    Letter(char),
    /// `-ID NAME`, where ID is a letter and NAME this.
    Short {
        letter: char,
        name: &'static str,
    },
    /// `-ID NAME`, where ID is a letter and NAME the id of the word in whose place it stands.
    InPlace {
        letter: char,
        other: &'static str,
    },
    /// `--ID NAME`, where NAME is this.
    Named(&'static str),
    /// `-LETTER ID`, a whole number from 1 to the most, which may not be left out.
    Count {
        letter: char,
        most: i64,
    },
    /// One of these, which may not be left out.
    OneOf(&'static [&'static str]),
    /// `--ID WHEN`, one of the words for colours, which is the first one where it isn't given.
    Coloring,
    /// The name of a file.
    File,
    /// Names of files.
    Files,
    /// A name that may not be left out.
    Needed,
}

impl Form {
    /// The id of the option that has to stand beside it.
    fn beside(self) -> Option<&'static str> {
        match self {
            Form::FlagBeside(other)
            | Form::NameBeside { other, .. }
            | Form::NamesBeside { other, .. } => Some(other),
            _ => None,
        }
    }

    /// The id of the word that may not stand beside it.
    fn in_place_of(self) -> Option<&'static str> {
        match self {
            Form::InPlace { other, .. } | Form::StatusesWithout(other) | Form::FlagWithout(other) =>
                Some(other),
            _ => None,
        }
    }
}

/// A word of a subcommand.
#[derive(Clone, Copy, Debug)]
struct Word {
    id: &'static str,
    form: Form,
    help: &'static str,
}

/// The three limits, each with its largest number where it isn't given.
const LIMITS: [Word; 3] = [
    Word {
        id: RECORDS,
        form: Form::Limit {
            least: 5,
            most: 99_999_999,
            default: "99999999",
        },
        help: "The most records of a transmission, 5 to 99999999",
    },
    Word {
        id: GROUPS,
        form: Form::Limit {
            least: 1,
            most: 99_999,
            default: "99999",
        },
        help: "The most groups of a transmission, 1 to 99999",
    },
    Word {
        id: TRANSACTION,
        form: Form::Limit {
            least: 1,
            most: 999_999,
            default: "999999",
        },
        help: "The most records of one transaction, 1 to 999999",
    },
];

/// The flag that wants nothing after a transmission.
const ENDS: [Word; 1] = [Word {
    id: WHOLE,
    form: Form::Flag,
    help: "Status 1 where bytes follow the transmission",
}];

/// The words on how a run is shown: how far it is, and in which colours.
const SHOWS: [Word; 3] = [
    Word {
        id: PROGRESS,
        form: Form::Flag,
        help: "Shows on standard error how far a long run is, as it does on a terminal",
    },
    Word {
        id: NO_PROGRESS,
        form: Form::Flag,
        help: "Doesn't show it",
    },
    Word {
        id: COLOR,
        form: Form::Coloring,
        help: "Whether verdicts, faults, findings and advice begin with a word in its colour; auto is on a terminal",
    },
];

/// A transmission that may be standard input.
const ONE: Word = Word {
    id: FILE,
    form: Form::File,
    help: "The transmission; without it standard input is read, as it is for -",
};

/// Transmissions, of which one may be standard input.
const MANY: Word = Word {
    id: FILE,
    form: Form::Files,
    help: "The transmissions; without one standard input is read, as it is for -",
};

/// The flag that leaves out what is good.
const SILENT: Word = Word {
    id: QUIET,
    form: Form::Flag,
    help: "Prints only what isn't good",
};

/// The flag that shows cells in UTF-8 as their texts.
const TEXTS: Word = Word {
    id: UTF8,
    form: Form::Flag,
    help: "A cell stands as the Unicode text that it is, or else by escapes",
};

/// The file that is written in the place of standard output.
const WRITTEN: Word = Word {
    id: OUT,
    form: Form::Letter('o'),
    help: "The file that is written; without it standard output is, as it is for -",
};

/// The flag that wants no file replaced.
const KEEPS: Word = Word {
    id: NEW,
    form: Form::Flag,
    help: "Refuses to replace a file that is there",
};

/// How many works' numbers are kept.
const REPEATS: Word = Word {
    id: REPEATED,
    form: Form::Limit {
        least: 0,
        most: 99_999_999,
        default: "0",
    },
    help: "Tells work numbers that stand twice: those of so many works are kept, 0 to 99999999",
};

/// Which words stand before a subcommand's own.
#[derive(Clone, Copy, Debug, PartialEq, Eq)]
enum Common {
    /// None.
    Nothing,
    /// The limits, and the words on how a run is shown.
    Limits,
    /// Those, and the flag that wants nothing after a transmission.
    Reading,
}

/// A subcommand.
#[derive(Clone, Copy, Debug)]
struct Subcommand {
    name: &'static str,
    about: &'static str,
    common: Common,
    own: &'static [Word],
}

/// The level of findings that ends a run as a refusal does.
const FAILS: Word = Word {
    id: FAIL_ON,
    form: Form::Level,
    help: "Status 1 where a finding has that level or a worse one; F is the least, E the worst",
};

/// The words of subcommands that judge transmissions.
const JUDGED: [Word; 3] = [FAILS, SILENT, MANY];

/// What all advice is.
const ALL_HELP: &str =
    "Tells all advice, where else of each rule the first three places are told, and then how many there are";

/// The words of the lint.
const LINTED: [Word; 5] = [
    Word {
        id: EXPLAINED,
        form: Form::Flag,
        help: "Explains each fault and each finding",
    },
    Word {
        id: ADVICE,
        form: Form::Flag,
        help: "Tells what a society may send back, too, as cwr advise does",
    },
    Word {
        id: ALL,
        form: Form::FlagBeside(ADVICE),
        help: ALL_HELP,
    },
    SILENT,
    MANY,
];

/// The words of advice.
const ADVISED: [Word; 5] = [
    Word {
        id: FAIL_ON,
        form: Form::Level,
        help: "Status 1 where a finding or advice has that level or a worse one; F is the least, E the worst",
    },
    Word {
        id: QUIET,
        form: Form::Flag,
        help: "Prints findings and advice, and no verdict on what is good",
    },
    Word {
        id: ALL,
        form: Form::Flag,
        help: ALL_HELP,
    },
    REPEATS,
    MANY,
];

/// The words of the export.
const EXPORTED: [Word; 4] = [
    ONE,
    WRITTEN,
    Word {
        id: NUMBERS,
        form: Form::Flag,
        help: "Adds the notes _group, _transaction and _line to each line",
    },
    TEXTS,
];

/// The words of tables.
const TABULATED: [Word; 4] = [
    Word {
        id: KIND,
        form: Form::OneOf(&TABLES),
        help: "What the table has rows of: the works, or the records of this type",
    },
    ONE,
    WRITTEN,
    TEXTS,
];

/// The words of what acknowledgements say.
const ANSWERED: [Word; 8] = [
    Word {
        id: SENT,
        form: Form::Names("SENT"),
        help: "A transmission that they answer, once or more: tells what of it isn't answered, and what wasn't sent",
    },
    Word {
        id: AS_JSON,
        form: Form::Flag,
        help: "Writes lines of JSON, an object for each acknowledgement",
    },
    Word {
        id: BY_PLACE,
        form: Form::FlagBeside(SENT),
        help: "An acknowledgement may answer each SENT, whatever creation date and time it has",
    },
    Word {
        id: STATE,
        form: Form::FlagBeside(SENT),
        help: "Writes a table of states in the place of the lines: what became of each transaction of SENT",
    },
    Word {
        id: FAIL_ON,
        form: Form::NameBeside {
            name: "STATES",
            other: SENT,
        },
        help: "Status 1 where a row of the table of states has one of these, with commas between them \
            [possible values: accepted, pending, rejected, conflict, duplicate, claim-rejected, no-participation, unanswered]",
    },
    Word {
        id: STATUS,
        form: Form::StatusesWithout(STATE),
        help: "Tells acknowledgements of these statuses alone, with commas between them",
    },
    TEXTS,
    MANY,
];

/// The words of a summary.
const SUMMED: [Word; 6] = [
    Word {
        id: AS_CSV,
        form: Form::FlagWithout(AS_JSON),
        help: "Writes a table (CSV), a row for each transmission",
    },
    Word {
        id: AS_JSON,
        form: Form::Flag,
        help: "Writes lines of JSON, an object for each transmission",
    },
    Word {
        id: NO_DIGEST,
        form: Form::Flag,
        help: "Leaves out the SHA-256 digests, which take longer than all else",
    },
    Word {
        id: ADVICE,
        form: Form::Flag,
        help: "Counts the advice, too, that cwr advise tells",
    },
    Word {
        id: QUIET,
        form: Form::Flag,
        help: "Tells the sums alone",
    },
    MANY,
];

/// The words of the import.
const IMPORTED: [Word; 4] = [
    Word {
        id: LINE,
        form: Form::Limit {
            least: 1,
            most: 1_000_000_000,
            default: "64000000",
        },
        help: "The most bytes of a line, 1 to 1000000000",
    },
    TEXTS,
    WRITTEN,
    Word {
        id: FILE,
        form: Form::File,
        help: "The lines; without it standard input is read, as it is for -",
    },
];

/// The words of a split.
const PARTED: [Word; 7] = [
    FAILS,
    KEEPS,
    Word {
        id: CREATED,
        form: Form::Named("MOMENT"),
        help: "The first part was created at that moment, YYYYMMDDTHHMMSS, and each other one a second later",
    },
    Word {
        id: NUMBER,
        form: Form::Count {
            letter: 'n',
            most: 99_999_999,
        },
        help: "The transactions of a part, 1 to 99999999; the last part may have fewer",
    },
    Word {
        id: FILE,
        form: Form::Needed,
        help: "The transmission; - is standard input",
    },
    Word {
        id: PREFIX,
        form: Form::File,
        help: "The parts are written to PREFIX00000001, PREFIX00000002 and so on",
    },
    Word {
        id: INTO,
        form: Form::InPlace {
            letter: 'o',
            other: PREFIX,
        },
        help: "PREFIX, in the place of the second word",
    },
];

/// The words of a join.
const JOINED: [Word; 7] = [
    Word {
        id: FAIL_ON,
        form: Form::Level,
        help: "Nothing is written, and status 1, where a finding has that level or a worse one; F is the least, E the worst",
    },
    KEEPS,
    Word {
        id: SAME_SENDER,
        form: Form::Flag,
        help: "Refuses transmissions whose sender is another than that of the first",
    },
    REPEATS,
    Word {
        id: INTO,
        form: Form::Short {
            letter: 'o',
            name: OUT,
        },
        help: "The file that the result is written to; each other word is then a transmission",
    },
    Word {
        id: OUT,
        form: Form::Needed,
        help: "The file that the result is written to, which is none of the inputs; with -o the first transmission",
    },
    Word {
        id: FILE,
        form: Form::Files,
        help: "The transmissions, in their order; - is standard input",
    },
];

/// The words of a renumbering.
const RENUMBERED: [Word; 6] = [
    FAILS,
    KEEPS,
    Word {
        id: ANYWAY,
        form: Form::Flag,
        help: "Goes on where records may have come into the transaction or group before theirs",
    },
    Word {
        id: FILE,
        form: Form::File,
        help: "The transmission; - is standard input, and so it is without a file",
    },
    Word {
        id: OUT,
        form: Form::File,
        help: "The file that the result is written to; without it that is standard output, as for -",
    },
    Word {
        id: INTO,
        form: Form::InPlace {
            letter: 'o',
            other: OUT,
        },
        help: "OUT, in the place of the second word",
    },
];

/// The words of a selection.
const SELECTED: [Word; 15] = [
    Word {
        id: LISTED,
        form: Form::Named("LIST"),
        help: "Selects the transactions whose numbers stand in that file, one a line",
    },
    Word {
        id: PLACES,
        form: Form::Named("LIST"),
        help: "Selects the transactions whose places stand in that file, a line GROUP TRANSACTION each",
    },
    Word {
        id: KINDS,
        form: Form::Named("KINDS"),
        help: "Selects the transactions of these types, with commas between them: AGR, NWR, REV, ACK",
    },
    Word {
        id: PARTY,
        form: Form::Named("NUMBER"),
        help: "Selects the transactions that have that IPI name number, without or with leading zeros",
    },
    Word {
        id: STATE,
        form: Form::NameBeside {
            name: "STATES",
            other: ANSWERS,
        },
        help: "Selects the transactions that became so by the acknowledgements of ANSWERS, with commas between states \
            [possible values: accepted, pending, rejected, conflict, duplicate, claim-rejected, no-participation, unanswered]",
    },
    Word {
        id: ANSWERS,
        form: Form::NamesBeside {
            name: "ANSWERS",
            other: STATE,
        },
        help: "A transmission of acknowledgements of FILE, once or more",
    },
    Word {
        id: BY_PLACE,
        form: Form::FlagBeside(ANSWERS),
        help: "They may answer FILE whatever creation date and time they name",
    },
    Word {
        id: OTHERS,
        form: Form::Flag,
        help: "Selects all others",
    },
    Word {
        id: CREATED,
        form: Form::Named("MOMENT"),
        help: "When the result is created, YYYYMMDDTHHMMSS",
    },
    Word {
        id: SAME_CREATED,
        form: Form::Flag,
        help: "The result keeps the transmission's creation date and time",
    },
    Word {
        id: SENT_AS,
        form: Form::WorkKind,
        help: "What works are sent as: their headers, and the types of their groups",
    },
    KEEPS,
    FAILS,
    ONE,
    WRITTEN,
];

/// The subcommands that read transmissions and tell of them, in the order of the help.
const READINGS: &[Subcommand] = &[
    Subcommand {
        name: CHECK,
        about: "Judges transmissions",
        common: Common::Reading,
        own: &JUDGED,
    },
    Subcommand {
        name: SHOW,
        about: "Shows the records of a transmission, and judges it",
        common: Common::Reading,
        own: &[FAILS, ONE],
    },
    Subcommand {
        name: EXPLAIN,
        about: "Judges transmissions, and explains what is wrong with them",
        common: Common::Reading,
        own: &JUDGED,
    },
    Subcommand {
        name: LINT,
        about: "Tells every fault of transmissions in one pass",
        common: Common::Reading,
        own: &LINTED,
    },
    Subcommand {
        name: ADVISE,
        about: "Judges transmissions, and tells what a society may send back all the same",
        common: Common::Reading,
        own: &ADVISED,
    },
    Subcommand {
        name: JSON,
        about: "Writes the data of a transmission as lines of JSON, and its verdict to standard error",
        common: Common::Reading,
        own: &EXPORTED,
    },
    Subcommand {
        name: CSV,
        about: "Writes a table (CSV) of a transmission, and its verdict to standard error",
        common: Common::Reading,
        own: &TABULATED,
    },
    Subcommand {
        name: ACKS,
        about: "Tells what the acknowledgements of transmissions say, and the verdicts to standard error",
        common: Common::Reading,
        own: &ANSWERED,
    },
    Subcommand {
        name: SUMMARY,
        about: "Tells what stands in transmissions, in numbers and with digests",
        common: Common::Reading,
        own: &SUMMED,
    },
];

/// Those that write transmissions, and the last one.
const WRITINGS: &[Subcommand] = &[
    Subcommand {
        name: WRITE,
        about: "Writes the transmission that lines of JSON are, and to standard error how that ended",
        common: Common::Limits,
        own: &IMPORTED,
    },
    Subcommand {
        name: SPLIT,
        about: "Cuts a transmission into parts",
        common: Common::Reading,
        own: &PARTED,
    },
    Subcommand {
        name: JOIN,
        about: "Joins transmissions to one",
        common: Common::Reading,
        own: &JOINED,
    },
    Subcommand {
        name: RENUMBER,
        about: "Makes the numbers of a transmission fit its records; look first why they don't (cwr explain)",
        common: Common::Reading,
        own: &RENUMBERED,
    },
    Subcommand {
        name: SELECT,
        about: "Writes some transactions of a transmission as one of their own",
        common: Common::Reading,
        own: &SELECTED,
    },
    Subcommand {
        name: MANUAL,
        about: "Prints the manual",
        common: Common::Nothing,
        own: &[],
    },
];

/// What a command is made for.
#[derive(Clone, Copy, Debug, PartialEq, Eq)]
enum Purpose {
    /// Words are read: their names, their places and their numbers.
    Reading,
    /// Help is shown, or why words were refused. It also has which names an option may have, what may stand beside what, and commas.
    Telling,
}

/// Numbers from the least to the most.
fn between<'a>(least: i64, most: i64) -> ValueParser<'a>
    ensures { result ≡ between least most }
{
    value_parser!(u32).range(least..=most)
}

/// `--ID`.
fn flag<'a>(alloc: Global, id: &'static str) -> Arg<'a>
    ensures rule { rule_of result ≡ flag id.entry.now }
    ensures local { result.global ≡ false }
{
    Arg::new(alloc, id).long(id).action(ArgAction::SetTrue)
}

/// `--ID NAME`, where NAME is this.
fn option<'a>(alloc: Global, id: &'static str, name: &'static str) -> Arg<'a>
    ensures rule { rule_of result ≡ option id.entry.now }
    ensures local { result.global ≡ false }
{
    Arg::new(alloc, id).long(id).value_name(name)
}

/// `--ID NAME`, where NAME is this, any number of times.
fn options<'a>(alloc: Global, id: &'static str, name: &'static str) -> Arg<'a>
    ensures rule { rule_of result ≡ options id.entry.now }
    ensures local { result.global ≡ false }
{
    option(alloc, id, name).action(ArgAction::Append)
}

/// `--ID NAME`, where NAME is this, which is that text where it isn't given.
fn option_or<'a>(
    alloc: Global,
    id: &'static str,
    name: &'static str,
    without: &'static str,
) -> Arg<'a>
    ensures rule { rule_of result ≡ option_or id.entry.now without.entry.now }
    ensures local { result.global ≡ false }
{
    option(alloc, id, name).default_value(without)
}

/// `--ID NUMBER`, a number from the least to the most, which is that one where it isn't given.
fn limit<'a>(
    alloc: Global,
    id: &'static str,
    least: i64,
    most: i64,
    without: &'static str,
) -> Arg<'a>
    ensures rule { rule_of result
        ≡ record (option_or id.entry.now without.entry.now) { parser = Some (between least most) } }
    ensures local { result.global ≡ false }
{
    option_or(alloc, id, "NUMBER", without).value_parser(between(least, most))
}

/// `-LETTER NAME`, where NAME is this.
fn letter<'a>(alloc: Global, id: &'static str, short: char, name: &'static str) -> Arg<'a>
    ensures rule { rule_of result ≡ letter id.entry.now short }
    ensures local { result.global ≡ false }
{
    Arg::new(alloc, id).short(short).value_name(name)
}

/// `-LETTER ID`, a number from 1 to the most, which may not be left out.
fn count<'a>(alloc: Global, id: &'static str, short: char, most: i64) -> Arg<'a>
    ensures rule { rule_of result ≡ record (letter id.entry.now short) {
      required = true;
      parser = Some (between (pos 1) most);
    } }
    ensures local { result.global ≡ false }
{
    letter(alloc, id, short, id)
        .required(true)
        .value_parser(between(1, most))
}

/// A text by its place, which may not be left out.
fn needed<'a>(alloc: Global, id: &'static str) -> Arg<'a>
    ensures rule { rule_of result ≡ needed id.entry.now }
    ensures local { result.global ≡ false }
{
    Arg::new(alloc, id).required(true)
}

/// The texts from a place on.
fn places<'a>(alloc: Global, id: &'static str) -> Arg<'a>
    ensures rule { rule_of result ≡ places id.entry.now }
    ensures local { result.global ≡ false }
{
    Arg::new(alloc, id).num_args(1..)
}

/// A word of that form, as it is read.
fn formed<'a>(alloc: Global, id: &'static str, form: Form) -> Arg<'a>
    ensures rule { rule_of result ≡ rule_of_form id.entry.now form }
    ensures local { result.global ≡ false }
{
    match form {
        Form::Flag | Form::FlagBeside(_) | Form::FlagWithout(_) => flag(alloc, id),
        Form::Limit {
            least,
            most,
            default,
        } => limit(alloc, id, least, most, default),
        Form::Level => option(alloc, id, "LEVEL"),
        Form::WorkKind => option(alloc, id, "KIND"),
        Form::StatusesWithout(_) => options(alloc, id, "STATUS"),
        Form::Names(name) | Form::NamesBeside { name, .. } => options(alloc, id, name),
        Form::NameBeside { name, .. } | Form::Named(name) => option(alloc, id, name),
        Form::Letter(short) => letter(alloc, id, short, id),
        Form::Short {
            letter: short,
            name,
        } => letter(alloc, id, short, name),
        Form::InPlace {
            letter: short,
            other,
        } => letter(alloc, id, short, other),
        Form::Count {
            letter: short,
            most,
        } => count(alloc, id, short, most),
        Form::OneOf(_) | Form::Needed => needed(alloc, id),
        Form::Coloring => option_or(alloc, id, "WHEN", COLORINGS[0]),
        Form::File => Arg::new(alloc, id),
        Form::Files => places(alloc, id),
    }
}

/// A word with the names that it may be, as help tells them.
fn named<'a>(arg: Arg<'a>, form: Form) -> Arg<'a>
    ensures { result.global ≡ arg.entry.global }
{
    match form {
        Form::Level => arg.value_parser(&LEVELS[..]),
        Form::WorkKind => arg.value_parser(&WORK_KINDS[..]),
        Form::StatusesWithout(_) => arg.value_delimiter(',').value_parser(&STATUSES[..]),
        Form::OneOf(words) => arg.value_parser(words),
        Form::Coloring => arg.value_parser(&COLORINGS[..]),
        _ => arg,
    }
}

/// A word with all its rules, as help tells them.
fn ruled<'a>(arg: Arg<'a>, form: Form) -> Result<Arg<'a>, AllocError>
    ensures { IfOk result (λ it. it.global ≡ arg.entry.global) }
{
    let arg = named(arg, form);
    match (form.beside(), form.in_place_of()) {
        (Some(other), _) => arg.requires_arg(other),
        (None, Some(other)) => arg.conflicts_with(other),
        (None, None) => Ok(arg),
    }
}

/// A word, as `clap` has it.
fn argument<'a>(alloc: Global, word: Word, purpose: Purpose) -> Result<Arg<'a>, AllocError>
    ensures rule { purpose ≡ Purpose.Reading → IfOk result (λ arg. rule_of arg ≡ rule_of_word word) }
    ensures local { IfOk result (λ arg. arg.global ≡ false) }
{
    let arg = formed(alloc, word.id, word.form).help(word.help);
    match purpose {
        Purpose::Reading => Ok(arg),
        Purpose::Telling => ruled(arg, word.form),
    }
}

/// Adds words, in their order.
fn with<'a>(
    alloc: Global,
    mut command: Command<'a>,
    words: &[Word],
    purpose: Purpose,
) -> Result<Command<'a>, AllocError>
    requires { (fields_of command).has_globals ≡ false }
    ensures app { purpose ≡ Purpose.Reading
        → IfOk result (λ made. app_of made ≡ with_words (app_of command.entry) words.now) }
    ensures local { IfOk result (λ made. (fields_of made).has_globals ≡ false) }
{
    for word in words {
        let next = argument(alloc, *word, purpose)?;
        command = command.arg(next)?;
    }
    Ok(command)
}

/// Adds the limits.
fn with_limits<'a>(
    alloc: Global,
    command: Command<'a>,
    purpose: Purpose,
) -> Result<Command<'a>, AllocError>
    requires { (fields_of command).has_globals ≡ false }
    ensures app { purpose ≡ Purpose.Reading
        → IfOk result (λ made. app_of made ≡ with_rules (app_of command.entry) limits) }
    ensures local { IfOk result (λ made. (fields_of made).has_globals ≡ false) }
{
    with(alloc, command, &LIMITS, purpose)
}

/// Adds the flag that wants nothing after a transmission.
fn with_ends<'a>(
    alloc: Global,
    command: Command<'a>,
    purpose: Purpose,
) -> Result<Command<'a>, AllocError>
    requires { (fields_of command).has_globals ≡ false }
    ensures app { purpose ≡ Purpose.Reading
        → IfOk result (λ made. app_of made ≡ with_rules (app_of command.entry) ends) }
    ensures local { IfOk result (λ made. (fields_of made).has_globals ≡ false) }
{
    with(alloc, command, &ENDS, purpose)
}

/// Adds the words on how a run is shown.
fn with_shows<'a>(
    alloc: Global,
    command: Command<'a>,
    purpose: Purpose,
) -> Result<Command<'a>, AllocError>
    requires { (fields_of command).has_globals ≡ false }
    ensures app { purpose ≡ Purpose.Reading
        → IfOk result (λ made. app_of made ≡ with_rules (app_of command.entry) shows) }
    ensures local { IfOk result (λ made. (fields_of made).has_globals ≡ false) }
{
    with(alloc, command, &SHOWS, purpose)
}

/// Adds the words that stand before a subcommand's own.
fn with_common<'a>(
    alloc: Global,
    command: Command<'a>,
    common: Common,
    purpose: Purpose,
) -> Result<Command<'a>, AllocError>
    requires { (fields_of command).has_globals ≡ false }
    ensures app { purpose ≡ Purpose.Reading
        → IfOk result (λ made. app_of made ≡ with_rules (app_of command.entry) (common_rules common)) }
    ensures local { IfOk result (λ made. (fields_of made).has_globals ≡ false) }
{
    match common {
        Common::Nothing => Ok(command),
        Common::Limits => {
            let command = with_limits(alloc, command, purpose)?;
            with_shows(alloc, command, purpose)
        }
        Common::Reading => {
            let command = with_limits(alloc, command, purpose)?;
            let command = with_ends(alloc, command, purpose)?;
            with_shows(alloc, command, purpose)
        }
    }
}

/// A subcommand, as `clap` has it.
fn made_of<'a>(alloc: Global, it: Subcommand, purpose: Purpose) -> Result<Command<'a>, AllocError>
    ensures app { purpose ≡ Purpose.Reading → IfOk result (λ made. app_of made ≡ app_of_subcommand it) }
    ensures local { IfOk result (λ made. (fields_of made).has_globals ≡ false) }
{
    let command = Command::new(alloc, it.name).about(it.about);
    let command = with_common(alloc, command, it.common, purpose)?;
    with(alloc, command, it.own, purpose)
}

/// The version of the program.
const VERSION: &str = "0.1.0";

/// What stands at the end of the program's help.
const OUTCOMES: &str = "\
The last line on standard output:
  GOOD groups G transactions T records R     the input begins with a transmission
  REFUSED record R field F level L REASON    no transmission continues from that field of line R
  TRUNCATED records R                        the input ended too early, after R records
  SPLIT outputs O transactions T             the parts are written
  JOINED inputs I groups G transactions T records R
                                             the result is written
  FILES N good G refused R truncated T failed X
                                             several files were judged
  input I: LIMIT records, groups or transaction
                                             the result would pass that limit with input I

In the place of REFUSED `cwr lint` writes a line for each fault, and then:
  FAULTS F findings N records R              so many faults and findings were told, in R lines

`cwr json` and `cwr csv` write it to standard error, and the lines of JSON or the table alone to standard output. So does
`cwr renumber` without OUT; GOOD then has the numbers of what is written. So does `cwr acks`, whose last line has counts:
  ACKS N CO C DU D ...                       so many acknowledgements, and so many of each status

With --sent it writes which of them name no date and time, which answer no transaction of SENT, or one with another title or once
more, and before ACKS what isn't answered:
  UNKEYED group G transaction T TYPE ...
  UNSENT group G transaction T TYPE ...
  UNCLEAR group G transaction T TYPE ...
  RETYPED group G transaction T TYPE ... sent VALUE
  RENUMBERED group G transaction T TYPE ... sent VALUE
  RETITLED group G transaction T TYPE ...
  AGAIN group G transaction T TYPE ...
  UNANSWERED group G transaction T TYPE submitter N

With --json it writes all this as lines of JSON, an object for each acknowledgement. With --state it writes a table in its place, and
last to standard error:
  STATE sent N accepted A pending P ...      so many transactions of SENT, rows of each state, and acknowledgements that answer none

`cwr select` writes these, to standard error where OUT isn't given:
  SELECTED K of N                            of N transactions K are selected
  MISSING NUMBER                             no transaction has that number of the list
  TWICE NUMBER group G transaction T         several have that number, and this is one of them
  MISSING group G transaction T              there is no transaction

`cwr write` writes to standard error:
  WRITTEN lines L bytes B                    the transmission is written
  REFUSED line L ...                         that line isn't taken, and why
  REFUSED the input ends before the trailer  no line is TRL's

Before it `cwr check` writes a line for each finding in a transaction, and `cwr show` each record with its cells:
  FINDING group G transaction T record S field F level L rule V

`cwr advise` and `cwr lint --advice` write such lines too, and after those of a transaction the advice on it:
  ADVICE group G transaction T record S field F level L rule A
  ADVICE rule A at N places, M of them not shown (--all tells each)
  LIMIT repeated N group G transaction T     the numbers of N works are kept, and not that of this one

Indented, `cwr explain` and `cwr advise` write under each what it says in words, and the cells that it speaks of. After the
last line `cwr explain` writes what a refusal speaks of, what stands there and what may.

Before REFUSED and TRUNCATED `cwr join` writes the number of the input.

Exit status: 0 good, 1 refused, truncated or a limit, 2 a wrong command line (or help), 3 a file, a device or memory failed

Examples: cwr check works.cwr
          cwr explain works.cwr
          cwr lint --explain works.cwr
          cwr advise works.cwr
          cwr csv works works.cwr
          cwr acks acknowledgement.cwr
          cwr acks --sent works.cwr --state acknowledgement.cwr
          cwr summary works.cwr acknowledgement.cwr
          cwr split --new -n 1000 works.cwr -o part-
          cwr join --new -o whole.cwr part-00000001 part-00000002";

/// The program, without its subcommands.
fn program<'a>(alloc: Global) -> Command<'a>
    ensures app { app_of result ≡ bare }
    ensures local { (fields_of result).has_globals ≡ false }
{
    Command::new(alloc, "cwr")
        .version(VERSION)
        .about("Reads CWR 2.1 transmissions; without words it is `cwr check`")
        .after_help(OUTCOMES)
}

/// Adds subcommands, in their order.
fn with_subcommands<'a>(
    alloc: Global,
    mut command: Command<'a>,
    subcommands: &[Subcommand],
    purpose: Purpose,
) -> Result<Command<'a>, AllocError>
    ensures { purpose ≡ Purpose.Reading
        → IfOk result (λ made. app_of made ≡ with_subcommands (app_of command.entry) subcommands.now) }
{
    for it in subcommands {
        let next = made_of(alloc, *it, purpose)?;
        command = command.subcommand(next)?;
    }
    Ok(command)
}

/// Adds the program's subcommands that read transmissions and tell of them.
fn with_readings<'a>(
    alloc: Global,
    command: Command<'a>,
    purpose: Purpose,
) -> Result<Command<'a>, AllocError>
    ensures { purpose ≡ Purpose.Reading
        → IfOk result (λ made. app_of made ≡ with_shapes (app_of command.entry) readings) }
{
    with_subcommands(alloc, command, READINGS, purpose)
}

/// Adds those that write transmissions, and the last one.
fn with_writings<'a>(
    alloc: Global,
    command: Command<'a>,
    purpose: Purpose,
) -> Result<Command<'a>, AllocError>
    ensures { purpose ≡ Purpose.Reading
        → IfOk result (λ made. app_of made ≡ with_shapes (app_of command.entry) writings) }
{
    with_subcommands(alloc, command, WRITINGS, purpose)
}

/// Adds the program's subcommands.
fn with_tables<'a>(
    alloc: Global,
    command: Command<'a>,
    purpose: Purpose,
) -> Result<Command<'a>, AllocError>
    ensures { purpose ≡ Purpose.Reading
        → IfOk result (λ made. app_of made ≡ with_shapes (app_of command.entry) subcommands) }
{
    let command = with_readings(alloc, command, purpose)?;
    with_writings(alloc, command, purpose)
}

/// The program's words.
fn made_for<'a>(alloc: Global, purpose: Purpose) -> Result<Command<'a>, AllocError>
    ensures { purpose ≡ Purpose.Reading → IfOk result (λ made. app_of made ≡ grammar) }
{
    with_tables(alloc, program(alloc), purpose)
}

/// The program's words, as they are read: their names, their places and their numbers.
pub fn command<'a>(alloc: Global) -> Result<Command<'a>, AllocError>
    // It is that grammar.
    ensures { IfOk result (λ made. app_of made ≡ grammar) }
{
    made_for(alloc, Purpose::Reading)
}

/// The program's words with all their rules, for help, and for what is told of words that are refused.
pub fn command_with_help<'a>(alloc: Global) -> Result<Command<'a>, AllocError> {
    made_for(alloc, Purpose::Telling)
}
