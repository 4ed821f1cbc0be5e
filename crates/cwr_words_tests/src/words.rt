//! What the program's words ask for. The limits are those of this profile.

use crate::checks::check_equal;
use cwr_shape::Limits;
use cwr_words::task_of;
use std::process::Abort;

/// The most records, groups and records of a transaction.
type Numbers = (u32, u32, u32);

/// The limits without options.
const LARGEST: Numbers = (99_999_999, 99_999, 999_999);

/// What the words ask for, as programmers see it, and its limits.
fn asked(rt: &(impl Abort + AllocGlobal), words: &[&str]) -> Option<(String, Limits)> {
    let task = task_of(rt.alloc(), words).ok()?;
    let work = format!(in rt.alloc(); "{:?}", task.work);
    Some((work.expect(rt, "no memory"), task.limits))
}

/// Words, what they ask for, and its limits.
#[rattlefmt::skip]
static ASKED: [(&[&str], &str, Numbers); 47] = [
    (&["cwr"], "Check(Judging { files: [], quiet: false, fail_on: None })", LARGEST),
    (&["cwr", "check"], "Check(Judging { files: [], quiet: false, fail_on: None })", LARGEST),
    (&["cwr", "show"], "Show(ShowWords { file: None, fail_on: None })", LARGEST),
    (&["cwr", "explain"], "Explain(Judging { files: [], quiet: false, fail_on: None })", LARGEST),
    (&["cwr", "show", "a.cwr"], "Show(ShowWords { file: Some(\"a.cwr\"), fail_on: None })", LARGEST),
    (&["cwr", "check", "a.cwr"], "Check(Judging { files: [\"a.cwr\"], quiet: false, fail_on: None })", LARGEST),
    (&["cwr", "check", "--records", "5", "--groups=2", "--transaction", "7", "a.cwr"], "Check(Judging { files: [\"a.cwr\"], quiet: false, fail_on: None })", (5, 2, 7)),
    (&["cwr", "check", "a.cwr", "-", "--quiet", "--fail-on", "G"], "Check(Judging { files: [\"a.cwr\", \"-\"], quiet: true, fail_on: Some(G) })", LARGEST),
    (&["cwr", "explain", "--fail-on=F"], "Explain(Judging { files: [], quiet: false, fail_on: Some(F) })", LARGEST),
    (&["cwr", "lint"], "Lint(LintWords { files: [], quiet: false, explained: false, advised: false, all: false })", LARGEST),
    (&["cwr", "lint", "a.cwr", "--quiet", "-", "--explain"], "Lint(LintWords { files: [\"a.cwr\", \"-\"], quiet: true, explained: true, advised: false, all: false })", LARGEST),
    (&["cwr", "json", "--utf8", "a.cwr"], "Json(JsonWords { file: Some(\"a.cwr\"), out: None, numbers: false, utf8: true })", LARGEST),
    (&["cwr", "csv", "SWR"], "Csv(CsvWords { rows: Records(Swr), file: None, out: None, utf8: false })", LARGEST),
    (&["cwr", "csv", "SWR", "-o", "t.csv"], "Csv(CsvWords { rows: Records(Swr), file: None, out: Some(\"t.csv\"), utf8: false })", LARGEST),
    (&["cwr", "csv", "works", "--utf8", "a.cwr"], "Csv(CsvWords { rows: Works, file: Some(\"a.cwr\"), out: None, utf8: true })", LARGEST),
    (&["cwr", "acks"], "Acks(AcksWords { files: [], sent: [], as_json: false, by_place: false, state: false, fail_on: States { accepted: false, pending: false, rejected: false, conflict: false, duplicate: false, claim_rejected: false, no_participation: false, unanswered: false }, statuses: [], utf8: false })", LARGEST),
    (&["cwr", "acks", "--json", "a.cwr", "--utf8", "-"], "Acks(AcksWords { files: [\"a.cwr\", \"-\"], sent: [], as_json: true, by_place: false, state: false, fail_on: States { accepted: false, pending: false, rejected: false, conflict: false, duplicate: false, claim_rejected: false, no_participation: false, unanswered: false }, statuses: [], utf8: true })", LARGEST),
    (&["cwr", "acks", "a.cwr", "--sent", "b.cwr"], "Acks(AcksWords { files: [\"a.cwr\"], sent: [\"b.cwr\"], as_json: false, by_place: false, state: false, fail_on: States { accepted: false, pending: false, rejected: false, conflict: false, duplicate: false, claim_rejected: false, no_participation: false, unanswered: false }, statuses: [], utf8: false })", LARGEST),
    (&["cwr", "acks", "--sent", "c.cwr", "a.cwr", "--by-place", "--sent=b.cwr", "--state"], "Acks(AcksWords { files: [\"a.cwr\"], sent: [\"c.cwr\", \"b.cwr\"], as_json: false, by_place: true, state: true, fail_on: States { accepted: false, pending: false, rejected: false, conflict: false, duplicate: false, claim_rejected: false, no_participation: false, unanswered: false }, statuses: [], utf8: false })", LARGEST),
    (&["cwr", "acks", "--fail-on", "conflict,rejected", "--sent", "-", "a.cwr"], "Acks(AcksWords { files: [\"a.cwr\"], sent: [\"-\"], as_json: false, by_place: false, state: false, fail_on: States { accepted: false, pending: false, rejected: true, conflict: true, duplicate: false, claim_rejected: false, no_participation: false, unanswered: false }, statuses: [], utf8: false })", LARGEST),
    (&["cwr", "acks", "--status", "RJ,CO", "a.cwr", "--status=AS", "--sent", "b.cwr"], "Acks(AcksWords { files: [\"a.cwr\"], sent: [\"b.cwr\"], as_json: false, by_place: false, state: false, fail_on: States { accepted: false, pending: false, rejected: false, conflict: false, duplicate: false, claim_rejected: false, no_participation: false, unanswered: false }, statuses: [Rejected, Conflict, RegistrationAccepted], utf8: false })", LARGEST),
    (&["cwr", "select", "--works", "list", "a.cwr"], "Select(SelectWords { file: Some(\"a.cwr\"), out: None, only_new: false, fail_on: None, works: Some(\"list\"), places: None, kinds: None, party: None, answered: None, others: false, created: None, sent_as: None })", LARGEST),
    (&["cwr", "select", "--kind", "REV", "--as", "NWR", "a.cwr"], "Select(SelectWords { file: Some(\"a.cwr\"), out: None, only_new: false, fail_on: None, works: None, places: None, kinds: Some(Kinds { agreements: false, new_works: false, revised_works: true, acknowledgements: false }), party: None, answered: None, others: false, created: None, sent_as: Some(NewWorks) })", LARGEST),
    (&["cwr", "select", "--state", "rejected,conflict", "--answers", "b.cwr", "--answers=-", "--by-place", "--not", "a.cwr", "-o", "c.cwr", "--same-created"], "Select(SelectWords { file: Some(\"a.cwr\"), out: Some(\"c.cwr\"), only_new: false, fail_on: None, works: None, places: None, kinds: None, party: None, answered: Some(AnsweredWords { states: States { accepted: false, pending: false, rejected: true, conflict: true, duplicate: false, claim_rejected: false, no_participation: false, unanswered: false }, files: [\"b.cwr\", \"-\"], by_place: true }), others: true, created: None, sent_as: None })", LARGEST),
    (&["cwr", "write", "--utf8", "-o", "b.cwr", "--line=9", "a.jsonl"], "Write(WriteWords { file: Some(\"a.jsonl\"), out: Some(\"b.cwr\"), line: 9, utf8: true })", LARGEST),
    (&["cwr", "show", "--groups", "3"], "Show(ShowWords { file: None, fail_on: None })", (99_999_999, 3, 999_999)),
    (&["cwr", "split", "-n", "1", "a.cwr", "part-"], "Split(SplitWords { transactions: 1, file: \"a.cwr\", prefix: \"part-\", created: None, only_new: false, fail_on: None })", LARGEST),
    (&["cwr", "split", "a.cwr", "-n99999999", "part-"], "Split(SplitWords { transactions: 99999999, file: \"a.cwr\", prefix: \"part-\", created: None, only_new: false, fail_on: None })", LARGEST),
    (&["cwr", "split", "--groups", "9", "a.cwr", "part-", "-n", "250"], "Split(SplitWords { transactions: 250, file: \"a.cwr\", prefix: \"part-\", created: None, only_new: false, fail_on: None })", (99_999_999, 9, 999_999)),
    (&["cwr", "split", "--new", "-n", "1", "a.cwr", "part-"], "Split(SplitWords { transactions: 1, file: \"a.cwr\", prefix: \"part-\", created: None, only_new: true, fail_on: None })", LARGEST),
    (&["cwr", "join", "out.cwr", "a.cwr"], "Join(JoinWords { out: \"out.cwr\", files: [\"a.cwr\"], only_new: false, fail_on: None, same_sender: false, repeated: 0 })", LARGEST),
    (&["cwr", "join", "out.cwr", "a.cwr", "b.cwr"], "Join(JoinWords { out: \"out.cwr\", files: [\"a.cwr\", \"b.cwr\"], only_new: false, fail_on: None, same_sender: false, repeated: 0 })", LARGEST),
    (&["cwr", "show", "--fail-on", "T", "a.cwr"], "Show(ShowWords { file: Some(\"a.cwr\"), fail_on: Some(T) })", LARGEST),
    (&["cwr", "advise", "--repeated", "7", "a.cwr"], "Advise(AdviseWords { judging: Judging { files: [\"a.cwr\"], quiet: false, fail_on: None }, all: false, repeated: 7 })", LARGEST),
    (&["cwr", "advise", "--quiet", "a.cwr", "-", "--fail-on", "R"], "Advise(AdviseWords { judging: Judging { files: [\"a.cwr\", \"-\"], quiet: true, fail_on: Some(R) }, all: false, repeated: 0 })", LARGEST),
    (&["cwr", "advise", "--all", "a.cwr"], "Advise(AdviseWords { judging: Judging { files: [\"a.cwr\"], quiet: false, fail_on: None }, all: true, repeated: 0 })", LARGEST),
    (&["cwr", "lint", "--all", "--advice"], "Lint(LintWords { files: [], quiet: false, explained: false, advised: true, all: true })", LARGEST),
    (&["cwr", "json", "a.cwr", "-o", "-"], "Json(JsonWords { file: Some(\"a.cwr\"), out: None, numbers: false, utf8: false })", LARGEST),
    (&["cwr", "renumber", "a.cwr", "-"], "Renumber(RenumberWords { file: Some(\"a.cwr\"), out: None, only_new: false, fail_on: None, anyway: false })", LARGEST),
    (&["cwr", "renumber", "-", "-o", "./-"], "Renumber(RenumberWords { file: Some(\"-\"), out: Some(\"./-\"), only_new: false, fail_on: None, anyway: false })", LARGEST),
    (&["cwr", "split", "--fail-on=R", "-n", "1", "a.cwr", "-o", "part-", "--created", "20240131T235959"], "Split(SplitWords { transactions: 1, file: \"a.cwr\", prefix: \"part-\", created: Some(Moment { date: CivilDate { year: 2024, month: 1, day: 31 }, time: TimeOfDay { hour: 23, minute: 59, second: 59 } }), only_new: false, fail_on: Some(R) })", LARGEST),
    (&["cwr", "join", "-o", "out.cwr", "a.cwr"], "Join(JoinWords { out: \"out.cwr\", files: [\"a.cwr\"], only_new: false, fail_on: None, same_sender: false, repeated: 0 })", LARGEST),
    (&["cwr", "join", "a.cwr", "b.cwr", "-o", "out.cwr", "--new", "--same-sender", "--repeated", "9", "--fail-on", "T"], "Join(JoinWords { out: \"out.cwr\", files: [\"a.cwr\", \"b.cwr\"], only_new: true, fail_on: Some(T), same_sender: true, repeated: 9 })", LARGEST),
    (&["cwr", "renumber"], "Renumber(RenumberWords { file: None, out: None, only_new: false, fail_on: None, anyway: false })", LARGEST),
    (&["cwr", "renumber", "a.cwr", "b.cwr", "--new"], "Renumber(RenumberWords { file: Some(\"a.cwr\"), out: Some(\"b.cwr\"), only_new: true, fail_on: None, anyway: false })", LARGEST),
    (&["cwr", "renumber", "-o", "b.cwr", "--fail-on", "F", "--anyway"], "Renumber(RenumberWords { file: None, out: Some(\"b.cwr\"), only_new: false, fail_on: Some(F), anyway: true })", LARGEST),
    (&["cwr", "join", "out.cwr", "a.cwr", "b.cwr", "a.cwr"], "Join(JoinWords { out: \"out.cwr\", files: [\"a.cwr\", \"b.cwr\", \"a.cwr\"], only_new: false, fail_on: None, same_sender: false, repeated: 0 })", LARGEST),
];

#[test]
fn work_that_is_asked_for(rt: HostRuntime) {
    for (words, wanted, numbers) in &ASKED {
        let (work, limits) = asked(&rt, words).expect(&rt, "no task");
        check_equal(&rt, work.as_str(), *wanted);
        let wanted = Limits::new(numbers.0, numbers.1, numbers.2);
        check_equal(&rt, Ok(limits), wanted);
    }
}

/// Words of a summary, and what they ask for.
#[rattlefmt::skip]
static SUMMED: [(&[&str], &str); 2] = [
    (&["cwr", "summary"], "Summary(SummaryWords { files: [], as_csv: false, as_json: false, undigested: false, advised: false, quiet: false })"),
    (&["cwr", "summary", "--csv", "a.cwr", "--no-digest", "-", "--advice", "--quiet"], "Summary(SummaryWords { files: [\"a.cwr\", \"-\"], as_csv: true, as_json: false, undigested: true, advised: true, quiet: true })"),
];

#[test]
fn summary_that_is_asked_for(rt: HostRuntime) {
    for (words, wanted) in &SUMMED {
        let (work, _) = asked(&rt, words).expect(&rt, "no task");
        check_equal(&rt, work.as_str(), *wanted);
    }
}

/// Words that are missing or out of range.
#[rattlefmt::skip]
static WRONG: [&[&str]; 43] = [
    &["cwr", "csv"],
    &["cwr", "csv", "swr"],
    &["cwr", "check", "--color"],
    &["cwr", "explain", "--color", "red"],
    &["cwr", "check", "--fail-on", "X"],
    &["cwr", "show", "a.cwr", "b.cwr"],
    &["cwr", "acks", "a.cwr", "--sent"],
    &["cwr", "acks", "a.cwr", "--state"],
    &["cwr", "acks", "a.cwr", "--by-place"],
    &["cwr", "acks", "a.cwr", "--fail-on", "rejected"],
    &["cwr", "acks", "a.cwr", "--sent", "b.cwr", "--fail-on", "refused"],
    &["cwr", "acks", "a.cwr", "--sent", "b.cwr", "--fail-on", "rejected,"],
    &["cwr", "acks", "a.cwr", "--status"],
    &["cwr", "acks", "a.cwr", "--status", "XX"],
    &["cwr", "acks", "a.cwr", "--status", "RJ,"],
    &["cwr", "acks", "a.cwr", "--sent", "b.cwr", "--state", "--status", "RJ"],
    &["cwr", "summary", "--csv", "--json"],
    &["cwr", "select", "--state", "rejected", "a.cwr"],
    &["cwr", "select", "--kind", "NWR", "--answers", "b.cwr", "a.cwr"],
    &["cwr", "select", "--kind", "NWR", "--by-place", "a.cwr"],
    &["cwr", "select", "--state", "refused", "--answers", "b.cwr", "a.cwr"],
    &["cwr", "select", "--kind", "NWR", "--as", "ACK", "a.cwr"],
    &["cwr", "select", "--state", "rejected", "--answers", "b.cwr", "-"],
    &["cwr", "split"],
    &["cwr", "split", "a.cwr", "part-"],
    &["cwr", "split", "-n", "1", "a.cwr"],
    &["cwr", "split", "-n", "0", "a.cwr", "part-"],
    &["cwr", "split", "-n", "100000000", "a.cwr", "part-"],
    &["cwr", "split", "-n", "two", "a.cwr", "part-"],
    &["cwr", "split", "-n", "1", "a.cwr", "part-", "more"],
    &["cwr", "split", "-n", "1", "a.cwr", "part-", "-o", "part-"],
    &["cwr", "split", "-n", "1", "a.cwr", "part-", "--created", "20240131"],
    &["cwr", "split", "-n", "1", "a.cwr", "part-", "--created", "20240230T000000"],
    &["cwr", "split", "-n", "1", "a.cwr", "part-", "--created", "20240131T240000"],
    &["cwr", "split", "-n", "1", "a.cwr", "part-", "--created", "20240131 000000"],
    &["cwr", "join"],
    &["cwr", "join", "out.cwr"],
    &["cwr", "join", "-o", "out.cwr"],
    &["cwr", "join", "-o", "-", "a.cwr"],
    &["cwr", "join", "-", "a.cwr"],
    &["cwr", "advise", "--fail-on", "A4a"],
    &["cwr", "lint", "--all", "a.cwr"],
    &["cwr", "renumber", "a.cwr", "b.cwr", "-o", "c.cwr"],
];

#[test]
fn words_that_are_missing_or_out_of_range(rt: HostRuntime) {
    for words in &WRONG {
        assert!(rt; asked(&rt, words).is_none(), "{words:?}");
    }
}

/// What is told in the place of a task.
fn told(rt: &(impl Abort + AllocGlobal), words: &[&str]) -> Option<String> {
    let answer = task_of(rt.alloc(), words).err()?;
    let text = format!(in rt.alloc(); "{answer}");
    Some(text.expect(rt, "no memory"))
}

/// Words that are wrong, and what is told of them.
#[rattlefmt::skip]
static TOLD: [(&[&str], &str); 14] = [
    (&["cwr", "acks", "a.cwr", "--state"], "--sent <SENT>"),
    (&["cwr", "acks", "a.cwr", "--by-place"], "--sent <SENT>"),
    (&["cwr", "split", "-n", "1", "a.cwr"], "-o <PREFIX>"),
    (&["cwr", "split", "-n", "1", "a.cwr", "part-", "--created", "today"], "YYYYMMDDTHHMMSS"),
    (&["cwr", "lint", "--all", "a.cwr"], "--advice"),
    (&["cwr", "join", "out.cwr"], "<FILE>..."),
    (&["cwr", "join", "-", "a.cwr"], "./- is a file of that name"),
    (&["cwr", "acks", "a.cwr", "--fail-on", "rejected"], "--sent <SENT>"),
    (&["cwr", "acks", "a.cwr", "--status", "RJ,XX"], "CO, DU, RA, AS, AC, SR, CR, RJ, NP, RC"),
    (&["cwr", "acks", "a.cwr", "--sent", "b.cwr", "--state", "--status", "RJ"], "--state"),
    (&["cwr", "acks", "a.cwr", "--sent", "b.cwr", "--fail-on", "refused"], "accepted, pending, rejected, conflict, duplicate, claim-rejected, no-participation, unanswered"),
    (&["cwr", "select", "--state", "rejected", "a.cwr"], "--answers <ANSWERS>"),
    (&["cwr", "select", "--kind", "NWR", "--as", "ACK", "a.cwr"], "possible values: NWR, REV"),
    (&["cwr", "select", "--state", "rejected", "--answers", "b.cwr"], "read twice"),
];

#[test]
fn what_is_told_of_wrong_words(rt: HostRuntime) {
    for (words, part) in &TOLD {
        let text = told(&rt, words).expect(&rt, "a task");
        assert!(rt; text.contains(*part), "{text}");
    }
}
