//! The words of the command line.

ghost use Rattle.std.specs.Prelude.{◌≡◌, ◌↔◌, ◌==◌, ◌++◌, map, None, Some, IfErr, IfOk, [], codes, length, not, option_map, false, true, if◌then◌else◌};
ghost use Rattle.std.specs.List.{list_all, list_any, slice_split};
ghost use Rattle.std.specs.Char.{is_ascii_digit};
ghost use Rattle.std.specs.Str.{bytes_eq};
ghost use Rattle.clap.specs.Words.{fault_of, first_value, found_of, kind_of, rows_of, subcommand_of, subcommand_rows_of};
ghost use Rattle.cwr_fields.specs.Format.MessageCodes.{status_code};
ghost use Rattle.cwr_shape.specs.Format.Ranges.{limit_values};
ghost use Rattle.cwr_moments.specs.Format.Moments.{moment_text};
ghost use Rattle.cwr_grammar.specs.Format.CommandLine.{grammar};
ghost use Rattle.cwr_words.specs.Format.Words.{AskFor, Asks, IsAnswer, IsLevelOf, IsPlainCheck, IsProgressOf, IsRenumberingOf, IsShowOf, IsSplitOf, IsTableOf, IsTaskOf};
ghost use Rattle.cwr_words.specs.Format.Words.{AreBeside, AreLimitsOf, AreNamesOf, AreNamesOfJoin, AreStatusesOf, AreValuesOf, IsAcksOf, IsAdviceOf, IsCreatedBy, IsExportOf, IsImportOf, IsLintOf, IsJoinOf, IsJoinOfNames, IsJudgingOf, IsNumber, IsAnsweredBy, IsSelectionOf, IsSummaryOf, IsWorkOf, are_answers_whole, asks_for_some, colouring_given, colouring_named, is_dated, is_file_named, is_given, is_party, kinds_given, kinds_in, level_given, level_named, named_out, party_given, rows_named, states_given, with_kind, works_given, works_named, written_in, written_once};
ghost use Rattle.cwr_words.specs.Steps.Matches.{given_by};

use clap::error::ErrorKind;
use clap::{ArgMatches, Error};
use cwr_fields::{Cell, CivilDate, Kind, TimeOfDay, TransactionStatus};
use cwr_grammar::grammar;
use cwr_moments::Moment;
use cwr_shape::{Level, Limits};
use cwr_states::States;
use std::alloc::{AllocError, Global};
use std::convert::AsStr;
use std::num::NonZeroU32;

/// Which transmissions are judged, and how that is told.
#[derive(Debug, PartialEq, Eq, Drop)]
pub struct Judging<'a> {
    /// The names of their files, in their order. Without a name it is that on standard input.
    pub files: Vec<&'a str>,
    /// Of a transmission that is good nothing is printed.
    pub quiet: bool,
    /// A finding of this level, or of a worse one, ends the run as a refusal does.
    pub fail_on: Option<Level>,
}

/// What a table has rows of.
#[derive(Clone, Copy, Debug, PartialEq, Eq)]
pub enum Rows {
    /// The records of a kind.
    Records(Kind),
    /// The works.
    Works,
}

/// What the words of `cwr show` ask for.
#[derive(Debug, PartialEq, Eq, Drop)]
pub struct ShowWords<'a> {
    /// The name of the transmission's file, or none for that on standard input.
    pub file: Option<&'a str>,
    /// A finding of this level, or of a worse one, ends the run as a refusal does.
    pub fail_on: Option<Level>,
}

/// What the words of `cwr lint` ask for.
#[derive(Debug, PartialEq, Eq, Drop)]
pub struct LintWords<'a> {
    /// The names of the transmissions' files; without one standard input is read.
    pub files: Vec<&'a str>,
    /// Only what isn't good is printed.
    pub quiet: bool,
    /// With an explanation of each.
    pub explained: bool,
    /// With advice.
    pub advised: bool,
    /// With all advice, where else of each rule the first three pieces are told.
    pub all: bool,
}

/// What the words of `cwr advise` ask for.
#[derive(Debug, PartialEq, Eq, Drop)]
pub struct AdviseWords<'a> {
    /// Which transmissions. Advice ends the run as a finding of its level does, and quiet lines leave none out.
    pub judging: Judging<'a>,
    /// All advice is told, where else of each rule the first three pieces are.
    pub all: bool,
    /// The numbers of so many works are kept, and those that stand twice are told.
    pub repeated: u32,
}

/// What the words of `cwr json` ask for.
#[derive(Debug, PartialEq, Eq, Drop)]
pub struct JsonWords<'a> {
    /// The name of the transmission's file, or none for that on standard input.
    pub file: Option<&'a str>,
    /// The name of the file that is written, or none for standard output.
    pub out: Option<&'a str>,
    /// With the numbers of groups, transactions and lines.
    pub numbers: bool,
    /// Cells in UTF-8 are shown as their texts.
    pub utf8: bool,
}

/// What the words of `cwr csv` ask for.
#[derive(Debug, PartialEq, Eq, Drop)]
pub struct CsvWords<'a> {
    /// What the table has rows of.
    pub rows: Rows,
    /// The name of the transmission's file, or none for that on standard input.
    pub file: Option<&'a str>,
    /// The name of the file that is written, or none for standard output.
    pub out: Option<&'a str>,
    /// Cells in UTF-8 are shown as their texts.
    pub utf8: bool,
}

/// What the words of `cwr acks` ask for.
#[derive(Debug, PartialEq, Eq, Drop)]
pub struct AcksWords<'a> {
    /// The names of the transmissions' files, in their order; without one standard input is read.
    pub files: Vec<&'a str>,
    /// The names of the files of the transmissions that they answer, in their order; without one they are matched with none.
    pub sent: Vec<&'a str>,
    /// As lines of JSON.
    pub as_json: bool,
    /// Each may answer any of the transmissions that were sent, whatever creation date and time it has.
    pub by_place: bool,
    /// As a table of what became of each transaction that was sent.
    pub state: bool,
    /// A row of that table with one of these states ends the run as a refusal does.
    pub fail_on: States,
    /// Those with one of these statuses are told; without one all are.
    pub statuses: Vec<TransactionStatus>,
    /// Cells in UTF-8 are shown as their texts.
    pub utf8: bool,
}

/// What the words of `cwr summary` ask for.
#[derive(Debug, PartialEq, Eq, Drop)]
pub struct SummaryWords<'a> {
    /// The names of the transmissions' files, in their order; without one standard input is read.
    pub files: Vec<&'a str>,
    /// As a table.
    pub as_csv: bool,
    /// As lines of JSON.
    pub as_json: bool,
    /// Without digests.
    pub undigested: bool,
    /// Advice is counted.
    pub advised: bool,
    /// The sums alone are told.
    pub quiet: bool,
}

/// What the words of `cwr write` ask for.
#[derive(Debug, PartialEq, Eq, Drop)]
pub struct WriteWords<'a> {
    /// The name of the file of lines, or none for those on standard input.
    pub file: Option<&'a str>,
    /// The name of the file that is written, or none for standard output.
    pub out: Option<&'a str>,
    /// The most bytes of a line.
    pub line: u32,
    /// Cells are in UTF-8.
    pub utf8: bool,
}

/// What the words of `cwr split` ask for.
#[derive(Debug, PartialEq, Eq, Drop)]
pub struct SplitWords<'a> {
    /// The transactions of a part; the last may have fewer.
    pub transactions: NonZeroU32,
    /// The name of the transmission's file.
    pub file: &'a str,
    /// What the names of the parts' files begin with.
    pub prefix: &'a str,
    /// When the first part was created, and each other one a second later; without it when the transmission was.
    pub created: Option<Moment>,
    /// No part may replace a file.
    pub only_new: bool,
    /// A finding of this level, or of a worse one, ends the run as a refusal does.
    pub fail_on: Option<Level>,
}

/// What the words of `cwr join` ask for.
#[derive(Debug, PartialEq, Eq, Drop)]
pub struct JoinWords<'a> {
    /// The name of the file that is written.
    pub out: &'a str,
    /// The names of the transmissions' files, in their order.
    pub files: Vec<&'a str>,
    /// The file that is written may replace none.
    pub only_new: bool,
    /// A finding of this level, or of a worse one, ends the run as a refusal does.
    pub fail_on: Option<Level>,
    /// A sender that is another than that of the first transmission is refused.
    pub same_sender: bool,
    /// The numbers of so many works are kept, and those that stand twice are told.
    pub repeated: u32,
}

/// What the words of `cwr renumber` ask for.
#[derive(Debug, PartialEq, Eq, Drop)]
pub struct RenumberWords<'a> {
    /// The name of the transmission's file, or none for that on standard input.
    pub file: Option<&'a str>,
    /// The name of the file that is written, or none for standard output.
    pub out: Option<&'a str>,
    /// The file that is written may replace none.
    pub only_new: bool,
    /// A finding of this level, or of a worse one, ends the run as a refusal does.
    pub fail_on: Option<Level>,
    /// The numbers are put right also where records may have come into the transaction or the group before theirs.
    pub anyway: bool,
}

/// Kinds of transactions.
#[derive(Clone, Copy, Debug, PartialEq, Eq)]
pub struct Kinds {
    /// AGR.
    pub agreements: bool,
    /// NWR.
    pub new_works: bool,
    /// REV.
    pub revised_works: bool,
    /// ACK.
    pub acknowledgements: bool,
}

/// What works are sent as.
#[derive(Clone, Copy, Debug, PartialEq, Eq)]
pub enum SentAs {
    /// New works, NWR.
    NewWorks,
    /// Revised works, REV.
    RevisedWorks,
}

/// The acknowledgements by which transactions are selected.
#[derive(Debug, PartialEq, Eq, Drop)]
pub struct AnsweredWords<'a> {
    /// The states of which a transaction has one.
    pub states: States,
    /// The names of the files of the acknowledgements, one at least.
    pub files: Vec<&'a str>,
    /// They are matched by the place that they name alone.
    pub by_place: bool,
}

/// What the words of `cwr select` ask for.
#[derive(Debug, PartialEq, Eq, Drop)]
pub struct SelectWords<'a> {
    /// The name of the transmission's file, or none for that on standard input.
    pub file: Option<&'a str>,
    /// The name of the file that is written, or none for standard output.
    pub out: Option<&'a str>,
    /// The file that is written may replace none.
    pub only_new: bool,
    /// A finding of this level, or of a worse one, ends the run as a refusal does.
    pub fail_on: Option<Level>,
    /// The name of a file with the numbers of transactions.
    pub works: Option<&'a str>,
    /// The name of a file with the places of transactions.
    pub places: Option<&'a str>,
    /// The kinds of transactions.
    pub kinds: Option<Kinds>,
    /// The IPI name number of a party, as digits that aren't all zeros.
    pub party: Option<&'a str>,
    /// What became of transactions.
    pub answered: Option<AnsweredWords<'a>>,
    /// All others are selected.
    pub others: bool,
    /// When the result is created; without it when the transmission was.
    pub created: Option<Moment>,
    /// What works are sent as; without it what they are.
    pub sent_as: Option<SentAs>,
}

/// What is done. Each file that is read may be called `-`, which is standard input.
#[derive(Debug, PartialEq, Eq, Drop)]
pub enum Work<'a> {
    /// Transmissions are checked.
    Check(Judging<'a>),
    /// The records of one are shown.
    Show(ShowWords<'a>),
    /// They are checked, and what is found is explained.
    Explain(Judging<'a>),
    /// Every fault of them is told.
    Lint(LintWords<'a>),
    /// They are checked, and there is advice on them.
    Advise(AdviseWords<'a>),
    /// The data of one is written as JSON.
    Json(JsonWords<'a>),
    /// A table of one is written.
    Csv(CsvWords<'a>),
    /// What the acknowledgements of transmissions say is told.
    Acks(AcksWords<'a>),
    /// What stands in transmissions is told in numbers.
    Summary(SummaryWords<'a>),
    /// A transmission is written from lines of JSON.
    Write(WriteWords<'a>),
    /// A transmission is cut into parts.
    Split(SplitWords<'a>),
    /// Transmissions are joined to one.
    Join(JoinWords<'a>),
    /// The numbers of one are put right.
    Renumber(RenumberWords<'a>),
    /// Some transactions of one are selected.
    Select(SelectWords<'a>),
    /// The manual is printed.
    Manual,
}

/// When verdicts, faults, findings and advice begin with a word in its colour.
#[derive(Clone, Copy, Debug, PartialEq, Eq)]
pub enum Colouring {
    /// Where standard output is a terminal, and the environment doesn't say otherwise.
    Auto,
    /// Always.
    Always,
    /// Never.
    Never,
}

/// What the words ask for.
#[derive(Debug, PartialEq, Eq, Drop)]
pub struct Task<'a> {
    /// What is done.
    pub work: Work<'a>,
    /// The limits that transmissions are read and joined within.
    pub limits: Limits,
    /// Bytes after a transmission end the run as a refusal does.
    pub whole: bool,
    /// Whether standard error shows how far a long run is; `None` where that is so if it is a terminal.
    pub progress: Option<bool>,
    /// When words of lines have colours.
    pub colouring: Colouring,
}

/// The largest limits.
fn largest() -> Limits
    ensures { result ≡ limit_values 99999999 99999 999999 }
{
    Limits::new(99_999_999, 99_999, 999_999).unwrap()
}

/// Whether the flag of that id is given.
fn flag_in(given: &ArgMatches<'_>, id: &str) -> bool
    ensures { result ≡ is_given (given_by (found_of given.now)) id.now }
{
    given.get_one::<bool>(id).unwrap_or(false)
}

/// The number of that id. `None` where there is none, or its text isn't one.
fn number_in(given: &ArgMatches<'_>, id: &str) -> Option<u32>
    ensures { IsAnswer (IsNumber ((given_by (found_of given.now)).read id.now)) result }
{
    given.get_one::<u32>(id)
}

/// The limits that the options of a subcommand say. `None` where one is missing or out of its range.
fn limits_in(given: &ArgMatches<'_>) -> Option<Limits>
    ensures { IsAnswer (AreLimitsOf (given_by (found_of given.now))) result }
{
    let records = number_in(given, grammar::RECORDS)?;
    let groups = number_in(given, grammar::GROUPS)?;
    let transaction = number_in(given, grammar::TRANSACTION)?;
    Limits::new(records, groups, transaction).ok()
}

/// The limits that the words of a subcommand give. `None` where one is missing or out of its range. The manual takes none.
fn limits_of(name: &str, given: &ArgMatches<'_>) -> Option<Limits>
    ensures { IsAnswer (λ limits. bytes_eq name.now (codes "manual") ≡ false → AreLimitsOf (given_by (found_of given.now)) limits) result }
{
    if name == grammar::MANUAL {
        return Some(largest());
    }
    limits_in(given)
}

/// The values of the word of that id.
fn values_of<'a>(
    alloc: Global,
    given: &ArgMatches<'a>,
    id: &str,
) -> Result<Vec<&'a str>, AllocError>
    ensures { IfOk result
        (λ values. AreValuesOf (given_by (found_of given.now)) id.now (map (λ value. value.now) values.items)) }
{
    match given.get_strs(id) {
        Some(values) => values.to_vec(alloc),
        None => Ok(Vec::new(alloc)),
    }
}

/// The names that stand for the files.
fn names_in<'a>(alloc: Global, given: &ArgMatches<'a>) -> Result<Vec<&'a str>, AllocError>
    ensures { IfOk result
        (λ names. AreNamesOf (given_by (found_of given.now)) (map (λ name. name.now) names.items)) }
{
    values_of(alloc, given, grammar::FILE)
}

/// The level that a letter is.
fn level_of(letter: &str) -> Option<Level>
    ensures { result ≡ level_named letter.now }
{
    match letter {
        "F" => Some(Level::F),
        "R" => Some(Level::R),
        "T" => Some(Level::T),
        "G" => Some(Level::G),
        "E" => Some(Level::E),
        _ => None,
    }
}

/// The level of findings that ends a run as a refusal does, if one is given. `None` where the word is none's letter.
fn fail_on_in(given: &ArgMatches<'_>) -> Option<Option<Level>>
    ensures { result ≡ level_given ((given_by (found_of given.now)).first (codes "fail-on")) }
{
    match given.get_str(grammar::FAIL_ON) {
        Some(letter) => level_of(letter).map(Some),
        None => Some(None),
    }
}

/// What is written: what the option `-o` names, or else the word of that id.
fn written_in<'a>(given: &ArgMatches<'a>, id: &str) -> Option<&'a str>
    ensures { option_map (λ name. name.now) result ≡ written_in (given_by (found_of given.now)) id.now }
{
    given.get_str(grammar::INTO).or(given.get_str(id))
}

/// What is written, by the option `-o` or by the word of that id. `None` where both are given.
fn written_once<'a>(given: &ArgMatches<'a>, id: &str) -> Option<Option<&'a str>>
    ensures { option_map (λ name. option_map (λ text. text.now) name) result
        ≡ written_once (given_by (found_of given.now)) id.now }
{
    match (given.get_str(grammar::INTO), given.get_str(id)) {
        (Some(_), Some(_)) => None,
        (Some(name), None) => Some(Some(name)),
        (None, word) => Some(word),
    }
}

/// What stands for standard output in the place of a file.
const DASH: &str = "-";

/// The file that is written, where the word names one: `-` is standard output.
fn named_out<'a>(word: Option<&'a str>) -> Option<&'a str>
    ensures { option_map (λ name. name.now) result
        ≡ named_out (option_map (λ name. name.now) word.entry) }
{
    match word {
        Some(name) if name != DASH => Some(name),
        _ => None,
    }
}

/// Which transmissions are judged, and how. `None` where a word is no level's letter.
fn judging_in<'a>(alloc: Global, given: &ArgMatches<'a>) -> Result<Option<Judging<'a>>, AllocError>
    ensures { IfOk result (IsAnswer (IsJudgingOf (given_by (found_of given.now)))) }
{
    let Some(fail_on) = fail_on_in(given) else {
        return Ok(None);
    };
    Ok(Some(Judging {
        files: names_in(alloc, given)?,
        quiet: flag_in(given, grammar::QUIET),
        fail_on,
    }))
}

/// The work of showing. `None` where a word is no level's letter.
fn show_in<'a>(given: &ArgMatches<'a>) -> Option<ShowWords<'a>>
    ensures { IsAnswer (IsShowOf (given_by (found_of given.now))) result }
{
    Some(ShowWords {
        file: given.get_str(grammar::FILE),
        fail_on: fail_on_in(given)?,
    })
}

/// The work of a lint. `None` where all advice is wanted, and none is.
fn lint_in<'a>(alloc: Global, given: &ArgMatches<'a>) -> Result<Option<LintWords<'a>>, AllocError>
    ensures { IfOk result (IsAnswer (IsLintOf (given_by (found_of given.now)))) }
{
    let advised = flag_in(given, grammar::ADVICE);
    let all = flag_in(given, grammar::ALL);
    if all && !advised {
        return Ok(None);
    }
    Ok(Some(LintWords {
        files: names_in(alloc, given)?,
        quiet: flag_in(given, grammar::QUIET),
        explained: flag_in(given, grammar::EXPLAINED),
        advised,
        all,
    }))
}

/// The work of a summary. `None` where it is wanted both as a table and as lines of JSON.
fn summary_in<'a>(
    alloc: Global,
    given: &ArgMatches<'a>,
) -> Result<Option<SummaryWords<'a>>, AllocError>
    ensures { IfOk result (IsAnswer (IsSummaryOf (given_by (found_of given.now)))) }
{
    let as_csv = flag_in(given, grammar::AS_CSV);
    let as_json = flag_in(given, grammar::AS_JSON);
    if as_csv && as_json {
        return Ok(None);
    }
    Ok(Some(SummaryWords {
        files: names_in(alloc, given)?,
        as_csv,
        as_json,
        undigested: flag_in(given, grammar::NO_DIGEST),
        advised: flag_in(given, grammar::ADVICE),
        quiet: flag_in(given, grammar::QUIET),
    }))
}

/// The work of advice. `None` where the number of works is missing or out of its range, or a word is no level's letter.
fn advice_in<'a>(
    alloc: Global,
    given: &ArgMatches<'a>,
) -> Result<Option<AdviseWords<'a>>, AllocError>
    ensures { IfOk result (IsAnswer (IsAdviceOf (given_by (found_of given.now)))) }
{
    let Some(repeated) = number_in(given, grammar::REPEATED) else {
        return Ok(None);
    };
    let Some(judging) = judging_in(alloc, given)? else {
        return Ok(None);
    };
    Ok(Some(AdviseWords {
        judging,
        all: flag_in(given, grammar::ALL),
        repeated,
    }))
}

/// The work of an export.
fn export_in<'a>(given: &ArgMatches<'a>) -> JsonWords<'a>
    ensures { IsExportOf (given_by (found_of given.now)) result }
{
    JsonWords {
        file: given.get_str(grammar::FILE),
        out: named_out(given.get_str(grammar::OUT)),
        numbers: flag_in(given, grammar::NUMBERS),
        utf8: flag_in(given, grammar::UTF8),
    }
}

/// What the word names that a table has rows of.
fn rows_of(word: &str) -> Option<Rows>
    ensures { result ≡ rows_named word.now }
{
    if word == grammar::WORKS {
        return Some(Rows::Works);
    }
    Some(Rows::Records(Kind::of(word.as_bytes())?))
}

/// The work of a table. `None` where what it has rows of is missing.
fn table_in<'a>(given: &ArgMatches<'a>) -> Option<CsvWords<'a>>
    ensures { IsAnswer (IsTableOf (given_by (found_of given.now))) result }
{
    Some(CsvWords {
        rows: rows_of(given.get_str(grammar::KIND)?)?,
        file: given.get_str(grammar::FILE),
        out: named_out(given.get_str(grammar::OUT)),
        utf8: flag_in(given, grammar::UTF8),
    })
}

/// The states that end a run as a refusal does. `None` where a name is no state's.
fn states_in(given: &ArgMatches<'_>) -> Option<States>
    ensures { result ≡ states_given ((given_by (found_of given.now)).first (codes "fail-on")) }
{
    match given.get_str(grammar::FAIL_ON) {
        Some(names) => States::read(names),
        None => Some(States::none()),
    }
}

/// The status with that code.
fn status_of(code: &str) -> Option<TransactionStatus>
    ensures { IsAnswer (λ status. status_code status ≡ code.now) result }
{
    TransactionStatus::read(code.as_bytes())
}

/// The codes that the text has, with commas between them.
fn codes_in<'a>(alloc: Global, text: &'a str) -> Result<Vec<&'a str>, AllocError>
    ensures { IfOk result (λ found. map (λ code. code.now) found.items ≡ slice_split (λ b. b == 44) text.entry.now) }
{
    text.split(',').collect(alloc)
}

/// Adds the statuses whose codes the text has. `None` where one is none's.
fn with_statuses(
    alloc: Global,
    mut statuses: Vec<TransactionStatus>,
    text: &str,
) -> Result<Option<Vec<TransactionStatus>>, AllocError>
    ensures { IfOk result (λ found. IsAnswer
        (λ all. map status_code all ≡ map status_code statuses.items ++ slice_split (λ b. b == 44) text.now)
        (option_map (λ all. all.items) found)) }
{
    let codes = codes_in(alloc, text)?;
    for code in codes.as_slice() {
        let Some(status) = status_of(code) else {
            return Ok(None);
        };
        statuses.push(status)?;
    }
    Ok(Some(statuses))
}

/// The statuses that are asked for. `None` where a word is none's code.
fn statuses_in<'a>(
    alloc: Global,
    given: &ArgMatches<'a>,
) -> Result<Option<Vec<TransactionStatus>>, AllocError>
    ensures { IfOk result (λ found. IsAnswer (AreStatusesOf (given_by (found_of given.now)))
        (option_map (λ statuses. statuses.items) found)) }
{
    let texts = values_of(alloc, given, grammar::STATUS)?;
    let mut statuses = Vec::new(alloc);
    for text in texts.as_slice() {
        let Some(more) = with_statuses(alloc, statuses, text)? else {
            return Ok(None);
        };
        statuses = more;
    }
    Ok(Some(statuses))
}

/// Whether what needs transmissions that were sent has some, and whether the table of states has rows of all statuses.
fn are_beside(words: &AcksWords<'_>, given: &ArgMatches<'_>) -> bool
    ensures { (result ≡ true) ↔ AreBeside (given_by (found_of given.now)) words.now }
{
    let wants_sent = words.by_place || words.state || given.get_str(grammar::FAIL_ON).is_some();
    !(wants_sent && words.sent.is_empty()) && !(words.state && !words.statuses.is_empty())
}

/// The work of telling what acknowledgements say. `None` where the name of a state is none, or the code of a status, or a word stands
/// without one that it needs.
fn acks_in<'a>(alloc: Global, given: &ArgMatches<'a>) -> Result<Option<AcksWords<'a>>, AllocError>
    ensures { IfOk result (IsAnswer (IsAcksOf (given_by (found_of given.now)))) }
{
    let Some(fail_on) = states_in(given) else {
        return Ok(None);
    };
    let Some(statuses) = statuses_in(alloc, given)? else {
        return Ok(None);
    };
    let words = AcksWords {
        files: names_in(alloc, given)?,
        sent: values_of(alloc, given, grammar::SENT)?,
        as_json: flag_in(given, grammar::AS_JSON),
        by_place: flag_in(given, grammar::BY_PLACE),
        state: flag_in(given, grammar::STATE),
        fail_on,
        statuses,
        utf8: flag_in(given, grammar::UTF8),
    };
    if !are_beside(&words, given) {
        return Ok(None);
    }
    Ok(Some(words))
}

/// The work of an import. `None` where the bound on lines is missing or out of its range.
fn import_in<'a>(given: &ArgMatches<'a>) -> Option<WriteWords<'a>>
    ensures { IsAnswer (IsImportOf (given_by (found_of given.now))) result }
{
    Some(WriteWords {
        file: given.get_str(grammar::FILE),
        out: named_out(given.get_str(grammar::OUT)),
        line: number_in(given, grammar::LINE)?,
        utf8: flag_in(given, grammar::UTF8),
    })
}

/// The moment that a text is, as `20240131T093000`. `None` where it is none.
fn moment_of(text: &str) -> Option<Moment>
    ensures { IsAnswer (λ moment. moment_text moment ≡ text.now) result }
{
    let bytes = text.as_bytes();
    if bytes.len() != 15 || bytes[8] != b'T' {
        return None;
    }
    Some(Moment {
        date: CivilDate::read(&bytes[..8])?,
        time: TimeOfDay::read(&bytes[9..])?,
    })
}

/// When what is written is created, where a word says so. `None` where that is no moment.
fn created_in(given: &ArgMatches<'_>) -> Option<Option<Moment>>
    ensures { IsAnswer (IsCreatedBy ((given_by (found_of given.now)).first (codes "created"))) result }
{
    match given.get_str(grammar::CREATED) {
        Some(text) => Some(Some(moment_of(text)?)),
        None => Some(None),
    }
}

/// The work of a split. `None` where a word is missing or out of its range.
fn split_in<'a>(given: &ArgMatches<'a>) -> Option<SplitWords<'a>>
    ensures { IsAnswer (IsSplitOf (given_by (found_of given.now))) result }
{
    let number = number_in(given, grammar::NUMBER)?;
    Some(SplitWords {
        transactions: NonZeroU32::new(number)?,
        file: given.get_str(grammar::FILE)?,
        prefix: written_once(given, grammar::PREFIX)??,
        created: created_in(given)?,
        only_new: flag_in(given, grammar::NEW),
        fail_on: fail_on_in(given)?,
    })
}

/// The names of a join: with the option `-o` all words are read, and else those after the first, which is written. `None` where there is
/// no first one.
fn joined_names<'a>(
    alloc: Global,
    given: &ArgMatches<'a>,
) -> Result<Option<(&'a str, Vec<&'a str>)>, AllocError>
    ensures { IfOk result (IsAnswer
        (λ names. AreNamesOfJoin (given_by (found_of given.now)) names.0.now (map (λ name. name.now) names.1.items))) }
{
    let mut others = names_in(alloc, given)?;
    let Some(first) = given.get_str(grammar::OUT) else {
        return Ok(None);
    };
    let Some(out) = given.get_str(grammar::INTO) else {
        return Ok(Some((first, others)));
    };
    others.insert(0, first)?;
    Ok(Some((out, others)))
}

/// What a join writes and reads. `None` where there is nothing to read, or it would be written to standard output.
fn joined_in<'a>(
    alloc: Global,
    given: &ArgMatches<'a>,
) -> Result<Option<(&'a str, Vec<&'a str>)>, AllocError>
    ensures { IfOk result (IsAnswer
        (λ names. IsJoinOfNames (given_by (found_of given.now)) names.0.now (map (λ name. name.now) names.1.items))) }
{
    match joined_names(alloc, given)? {
        Some((out, files)) if out != DASH && !files.is_empty() => Ok(Some((out, files))),
        _ => Ok(None),
    }
}

/// The work of a join. `None` where a word is missing or out of its range.
fn join_in<'a>(alloc: Global, given: &ArgMatches<'a>) -> Result<Option<JoinWords<'a>>, AllocError>
    ensures { IfOk result (IsAnswer (IsJoinOf (given_by (found_of given.now)))) }
{
    let Some(repeated) = number_in(given, grammar::REPEATED) else {
        return Ok(None);
    };
    let Some((out, files)) = joined_in(alloc, given)? else {
        return Ok(None);
    };
    let Some(fail_on) = fail_on_in(given) else {
        return Ok(None);
    };
    Ok(Some(JoinWords {
        out,
        files,
        only_new: flag_in(given, grammar::NEW),
        fail_on,
        same_sender: flag_in(given, grammar::SAME_SENDER),
        repeated,
    }))
}

/// The work of a renumbering. `None` where what is written is named twice, or a word is no level's letter.
fn renumber_in<'a>(given: &ArgMatches<'a>) -> Option<RenumberWords<'a>>
    ensures { IsAnswer (IsRenumberingOf (given_by (found_of given.now))) result }
{
    Some(RenumberWords {
        file: given.get_str(grammar::FILE),
        out: named_out(written_once(given, grammar::OUT)?),
        only_new: flag_in(given, grammar::NEW),
        fail_on: fail_on_in(given)?,
        anyway: flag_in(given, grammar::ANYWAY),
    })
}

/// The kinds with that one, too. `None` where the name is none's.
fn with_kind(kinds: Kinds, name: &str) -> Option<Kinds>
    ensures { result ≡ with_kind kinds name.now }
{
    match name {
        "AGR" => Some(Kinds {
            agreements: true,
            ..kinds
        }),
        "NWR" => Some(Kinds {
            new_works: true,
            ..kinds
        }),
        "REV" => Some(Kinds {
            revised_works: true,
            ..kinds
        }),
        "ACK" => Some(Kinds {
            acknowledgements: true,
            ..kinds
        }),
        _ => None,
    }
}

/// The kinds of these names, which stand with commas between them. `None` where one is no kind's, as an empty one isn't.
fn kinds_of(names: &str) -> Option<Kinds>
    ensures { result ≡ kinds_in names.now }
{
    let mut kinds = Kinds {
        agreements: false,
        new_works: false,
        revised_works: false,
        acknowledgements: false,
    };
    let mut rest = names;
    while let Some((name, after)) = rest.split_once(',') {
        kinds = with_kind(kinds, name)?;
        rest = after;
    }
    with_kind(kinds, rest)
}

/// The kinds of transactions, where a word says them. `None` where a name is no kind's.
fn kinds_in(given: &ArgMatches<'_>) -> Option<Option<Kinds>>
    ensures { result ≡ kinds_given ((given_by (found_of given.now)).first (codes "kind")) }
{
    match given.get_str(grammar::KINDS) {
        Some(names) => kinds_of(names).map(Some),
        None => Some(None),
    }
}

/// The most digits of an IPI name number.
const PARTY_DIGITS: usize = 11;

/// Whether each byte is a digit.
fn are_digits(text: &[u8]) -> bool
    ensures { result ≡ list_all is_ascii_digit text.now }
{
    text.iter().all(|b| b.is_ascii_digit())
}

/// Whether a byte is no zero digit.
fn has_others_than_zeros(text: &[u8]) -> bool
    ensures { result ≡ list_any (λ b. not (b == 48)) text.now }
{
    text.iter().any(|b| *b != b'0')
}

/// Whether the text is the number of a party: digits, not all of them zeros.
fn is_party(text: &str) -> bool
    ensures { result ≡ is_party text.now }
{
    let digits = text.as_bytes();
    digits.len() <= PARTY_DIGITS && are_digits(digits) && has_others_than_zeros(digits)
}

/// The number of a party, where a word says one. `None` where it is none.
fn party_in<'a>(given: &ArgMatches<'a>) -> Option<Option<&'a str>>
    ensures { option_map (λ party. option_map (λ number. number.now) party) result
        ≡ party_given ((given_by (found_of given.now)).first (codes "party")) }
{
    match given.get_str(grammar::PARTY) {
        Some(number) if is_party(number) => Some(Some(number)),
        Some(_) => None,
        None => Some(None),
    }
}

/// What works are sent as, by the letters of their headers. `None` where these are those of another.
fn works_of(letters: &str) -> Option<SentAs>
    ensures { result ≡ works_named letters.now }
{
    match letters {
        "NWR" => Some(SentAs::NewWorks),
        "REV" => Some(SentAs::RevisedWorks),
        _ => None,
    }
}

/// What works are sent as, where a word says it. `None` where it is none of these.
fn works_in(given: &ArgMatches<'_>) -> Option<Option<SentAs>>
    ensures { result ≡ works_given ((given_by (found_of given.now)).first (codes "as")) }
{
    match given.get_str(grammar::SENT_AS) {
        Some(letters) => works_of(letters).map(Some),
        None => Some(None),
    }
}

/// Whether a word says which transactions are selected.
fn asks_for_some(given: &ArgMatches<'_>) -> bool
    ensures { result ≡ asks_for_some (given_by (found_of given.now)) }
{
    given.get_str(grammar::LISTED).is_some()
        || given.get_str(grammar::PLACES).is_some()
        || given.get_str(grammar::KINDS).is_some()
        || given.get_str(grammar::PARTY).is_some()
        || given.get_str(grammar::STATE).is_some()
}

/// Whether a word names a file, and not standard input.
fn is_file_named(given: &ArgMatches<'_>) -> bool
    ensures { result ≡ is_file_named (given_by (found_of given.now)) }
{
    match given.get_str(grammar::FILE) {
        Some(name) => name != DASH,
        None => false,
    }
}

/// Whether states stand beside files of acknowledgements and a transmission that can be read twice, or no word speaks of any.
fn are_answers_whole(given: &ArgMatches<'_>, files: &[&str]) -> bool
    requires { AreValuesOf (given_by (found_of given.now)) (codes "answers") (map (λ file. file.now) files.now) }
    ensures { result ≡ are_answers_whole (given_by (found_of given.now)) }
{
    if given.get_str(grammar::STATE).is_some() {
        !files.is_empty() && is_file_named(given)
    } else {
        files.is_empty() && !flag_in(given, grammar::BY_PLACE)
    }
}

/// The acknowledgements by which transactions are selected, where words say so. `None` where a word stands without one that it needs, or
/// the name of a state is none.
fn answered_in<'a>(
    alloc: Global,
    given: &ArgMatches<'a>,
) -> Result<Option<Option<AnsweredWords<'a>>>, AllocError>
    ensures { IfOk result (IsAnswer (IsAnsweredBy (given_by (found_of given.now)))) }
{
    let files = values_of(alloc, given, grammar::ANSWERS)?;
    if !are_answers_whole(given, files.as_slice()) {
        return Ok(None);
    }
    let Some(names) = given.get_str(grammar::STATE) else {
        return Ok(Some(None));
    };
    let Some(states) = States::read(names) else {
        return Ok(None);
    };
    Ok(Some(Some(AnsweredWords {
        states,
        files,
        by_place: flag_in(given, grammar::BY_PLACE),
    })))
}

/// Whether it is said when the result is created, where that has to be, and once.
fn is_dated(given: &ArgMatches<'_>) -> bool
    ensures { result ≡ is_dated (given_by (found_of given.now)) }
{
    let is_moment = given.get_str(grammar::CREATED).is_some();
    if flag_in(given, grammar::SAME_CREATED) {
        !is_moment
    } else {
        is_moment || named_out(given.get_str(grammar::OUT)).is_none()
    }
}

/// The work of a selection. `None` where no word says which transactions are selected, or when the result is created, or a word is none of
/// those that it may be.
fn select_in<'a>(
    alloc: Global,
    given: &ArgMatches<'a>,
) -> Result<Option<SelectWords<'a>>, AllocError>
    ensures { IfOk result (IsAnswer (IsSelectionOf (given_by (found_of given.now)))) }
{
    match answered_in(alloc, given)? {
        Some(answered) => Ok(selected_in(given, answered)),
        None => Ok(None),
    }
}

/// The same, by these acknowledgements.
fn selected_in<'a>(
    given: &ArgMatches<'a>,
    answered: Option<AnsweredWords<'a>>,
) -> Option<SelectWords<'a>>
    requires { IsAnsweredBy (given_by (found_of given.now)) answered }
    ensures { IsAnswer (IsSelectionOf (given_by (found_of given.now))) result }
{
    if !asks_for_some(given) || !is_dated(given) {
        return None;
    }
    Some(SelectWords {
        file: given.get_str(grammar::FILE),
        out: named_out(given.get_str(grammar::OUT)),
        only_new: flag_in(given, grammar::NEW),
        fail_on: fail_on_in(given)?,
        works: given.get_str(grammar::LISTED),
        places: given.get_str(grammar::PLACES),
        kinds: kinds_in(given)?,
        party: party_in(given)?,
        answered,
        others: flag_in(given, grammar::OTHERS),
        created: created_in(given)?,
        sent_as: works_in(given)?,
    })
}

/// The work that a subcommand asks for. `None` where a word is missing or out of its range, or there is no such subcommand.
fn work_in<'a>(
    alloc: Global,
    name: &str,
    given: &ArgMatches<'a>,
) -> Result<Option<Work<'a>>, AllocError>
    ensures { IfOk result (IsAnswer (IsWorkOf name.now (given_by (found_of given.now)))) }
{
    if name == grammar::SPLIT {
        Ok(split_in(given).map(Work::Split))
    } else if name == grammar::LINT {
        Ok(lint_in(alloc, given)?.map(Work::Lint))
    } else if name == grammar::ADVISE {
        Ok(advice_in(alloc, given)?.map(Work::Advise))
    } else if name == grammar::JSON {
        Ok(Some(Work::Json(export_in(given))))
    } else if name == grammar::CSV {
        Ok(table_in(given).map(Work::Csv))
    } else if name == grammar::ACKS {
        Ok(acks_in(alloc, given)?.map(Work::Acks))
    } else if name == grammar::SUMMARY {
        Ok(summary_in(alloc, given)?.map(Work::Summary))
    } else if name == grammar::WRITE {
        Ok(import_in(given).map(Work::Write))
    } else if name == grammar::JOIN {
        Ok(join_in(alloc, given)?.map(Work::Join))
    } else if name == grammar::RENUMBER {
        Ok(renumber_in(given).map(Work::Renumber))
    } else if name == grammar::SELECT {
        Ok(select_in(alloc, given)?.map(Work::Select))
    } else if name == grammar::MANUAL {
        Ok(Some(Work::Manual))
    } else if name == grammar::SHOW {
        Ok(show_in(given).map(Work::Show))
    } else if name == grammar::EXPLAIN {
        Ok(judging_in(alloc, given)?.map(Work::Explain))
    } else if name == grammar::CHECK {
        Ok(judging_in(alloc, given)?.map(Work::Check))
    } else {
        Ok(None)
    }
}

/// Whether it is shown how far a long run is, where a word says so.
fn progress_in(given: &ArgMatches<'_>) -> Option<bool>
    ensures { IsProgressOf (given_by (found_of given.now)) result }
{
    match (
        flag_in(given, grammar::NO_PROGRESS),
        flag_in(given, grammar::PROGRESS),
    ) {
        (true, _) => Some(false),
        (false, true) => Some(true),
        (false, false) => None,
    }
}

/// When words have colours, by that word. `None` where it is none of these.
fn colouring_of(word: &str) -> Option<Colouring>
    ensures { result ≡ colouring_named word.now }
{
    match word {
        "auto" => Some(Colouring::Auto),
        "always" => Some(Colouring::Always),
        "never" => Some(Colouring::Never),
        _ => None,
    }
}

/// When words have colours. `None` where the word doesn't say so.
fn colouring_in(given: &ArgMatches<'_>) -> Option<Colouring>
    ensures { result ≡ colouring_given ((given_by (found_of given.now)).first (codes "color")) }
{
    match given.get_str(grammar::COLOR) {
        Some(word) => colouring_of(word),
        None => Some(Colouring::Auto),
    }
}

/// What the words of a subcommand ask for. `None` where a word is missing or out of its range.
fn task_of_subcommand<'a>(
    alloc: Global,
    name: &str,
    given: &ArgMatches<'a>,
) -> Result<Option<Task<'a>>, AllocError>
    ensures { IfOk result (IsAnswer (IsTaskOf name.now (given_by (found_of given.now)))) }
{
    let Some(work) = work_in(alloc, name, given)? else {
        return Ok(None);
    };
    let Some(limits) = limits_of(name, given) else {
        return Ok(None);
    };
    let Some(colouring) = colouring_in(given) else {
        return Ok(None);
    };
    Ok(Some(Task {
        work,
        limits,
        whole: flag_in(given, grammar::WHOLE),
        progress: progress_in(given),
        colouring,
    }))
}

/// A check of standard input within the largest limits.
fn plain_check<'a>(alloc: Global) -> Task<'a>
    ensures { IsPlainCheck result }
{
    Task {
        work: Work::Check(Judging {
            files: Vec::new(alloc),
            quiet: false,
            fail_on: None,
        }),
        limits: largest(),
        whole: false,
        progress: None,
        colouring: Colouring::Auto,
    }
}

/// What is asked for. `None` where a word is missing or out of its range.
fn task_in<'a>(alloc: Global, matches: &ArgMatches<'a>) -> Result<Option<Task<'a>>, AllocError>
    ensures { IfOk result (IsAnswer (Asks (subcommand_rows_of matches.now))) }
{
    match matches.subcommand() {
        Some((name, given)) => task_of_subcommand(alloc, name, given),
        None => Ok(Some(plain_check(alloc))),
    }
}

/// What is told where the name of a state that ends a run is none, and where that of one that selects is. They list the names of all states.
const NO_STATE: &str = "\
a word for '--fail-on <STATES>' is no state
  [possible values: accepted, pending, rejected, conflict, duplicate, claim-rejected, no-participation, unanswered]";

const NO_SELECTED_STATE: &str = "\
a word for '--state <STATES>' is no state
  [possible values: accepted, pending, rejected, conflict, duplicate, claim-rejected, no-participation, unanswered]";

/// What is told where a word is no moment.
const MOMENT_REFUSAL: &str =
    "the word for '--created <MOMENT>' is no moment: YYYYMMDDTHHMMSS, as 20240131T093000";

/// What is told where a split has no name to write to, or no moment.
fn split_refusal(given: &ArgMatches<'_>) -> &'static str {
    if written_in(given, grammar::PREFIX).is_none() {
        "the following required arguments were not provided:\n  <PREFIX>, or -o <PREFIX>"
    } else {
        MOMENT_REFUSAL
    }
}

/// What is told where a join has no file to write to, or to read.
fn join_refusal(given: &ArgMatches<'_>) -> &'static str {
    if written_in(given, grammar::OUT) == Some(DASH) {
        "a join is written to a file, and not to standard output: ./- is a file of that name"
    } else {
        "the following required arguments were not provided:\n  <FILE>..."
    }
}

/// Whether the name of a state that selects is none.
fn has_no_state(given: &ArgMatches<'_>) -> bool {
    match given.get_str(grammar::STATE) {
        Some(names) => States::read(names).is_none(),
        None => false,
    }
}

/// What is told where a selection lacks a word, or has one too many, or one that is none of those that it may be.
fn select_refusal(given: &ArgMatches<'_>) -> &'static str {
    if !asks_for_some(given) {
        "no word says which transactions: --works <LIST>, --places <LIST>, --kind <KINDS>, --party <NUMBER>, or --state <STATES> with --answers <ANSWERS>"
    } else if flag_in(given, grammar::SAME_CREATED) && !is_dated(given) {
        "the argument '--created <MOMENT>' cannot be used with '--same-created'"
    } else if !is_dated(given) {
        "a file asks for '--created <MOMENT>', or '--same-created': with the same creation date and time an answer to it can't be told from one to the transmission"
    } else if given.get_str(grammar::STATE).is_some() && !is_file_named(given) {
        "with '--state <STATES>' the transmission is read twice: it is a file, and not standard input"
    } else if has_no_state(given) {
        NO_SELECTED_STATE
    } else if kinds_in(given).is_none() {
        "a word for '--kind <KINDS>' is no type of a transaction\n  [possible values: AGR, NWR, REV, ACK]"
    } else if party_in(given).is_none() {
        "the word for '--party <NUMBER>' is no IPI name number: 11 digits at most, not all of them zeros"
    } else {
        MOMENT_REFUSAL
    }
}

/// What is told where a word is missing or out of its range, and `clap` took it.
fn refusal_of(matches: &ArgMatches<'_>) -> &'static str {
    match matches.subcommand() {
        Some((grammar::ACKS, _)) => NO_STATE,
        Some((grammar::SPLIT, given)) => split_refusal(given),
        Some((grammar::JOIN, given)) => join_refusal(given),
        Some((grammar::SELECT, given)) => select_refusal(given),
        // `clap` has judged the numbers already, but its clauses don't say so of a subcommand's.
        _ => "a word is missing, or a number is out of its range",
    }
}

/// What is told of words that are refused.
fn told<'a, S: AsStr>(alloc: Global, words: &'a [S]) -> Result<Error, Error> {
    let mut command = grammar::command_with_help(alloc)?;
    match command.try_get_matches_from_mut(words) {
        Ok(matches) => Ok(command.error(ErrorKind::ValueValidation, refusal_of(&matches))?),
        Err(error) => Ok(error),
    }
}

/// What a parse of the words finds.
fn matches_of<'a, S: AsStr>(alloc: Global, words: &'a [S]) -> Result<ArgMatches<'a>, Error>
    ensures rows { IfOk result
        (λ m. subcommand_rows_of m ≡ subcommand_of grammar (map S.text words.entry.now)) }
    ensures fits { IfOk result (λ _. fault_of grammar (map S.text words.entry.now) ≡ []) }
    ensures refused { IfErr result (λ e. fault_of grammar (map S.text words.entry.now) ≡ []
        → kind_of e ≡ ErrorKind.OutOfMemory) }
{
    let command = grammar::command(alloc)?;
    command.try_get_matches_from(words)
}

/// What the words ask for. `None` where they ask for nothing.
fn asked<'a, S: AsStr>(alloc: Global, words: &'a [S]) -> Result<Option<Task<'a>>, Error>
    ensures answer { IfOk result (IsAnswer (AskFor (map S.text words.entry.now))) }
    ensures memory { IfErr result (λ e. kind_of e ≡ ErrorKind.OutOfMemory) }
{
    match matches_of(alloc, words) {
        Ok(matches) => Ok(task_in(alloc, &matches)?),
        Err(error) if error.kind() == ErrorKind::OutOfMemory => Err(error),
        Err(_) => Ok(None),
    }
}

/// What the words ask for, the program's name first, or what to tell the user in its place.
pub fn task_of<'a, S: AsStr>(alloc: Global, words: &'a [S]) -> Result<Task<'a>, Error>
    // The task is what the words ask for.
    ensures asked { IfOk result (AskFor (map S.text words.entry.now)) }
    // Words that ask for one are refused for want of memory alone.
    ensures refused { IfErr result (λ e. (task : Task) → AskFor (map S.text words.entry.now) task
        → kind_of e ≡ ErrorKind.OutOfMemory) }
{
    match asked(alloc, words)? {
        Some(task) => Ok(task),
        None => Err(told(alloc, words)?),
    }
}
