//! The rows.

ghost use Rattle.std.specs.Prelude.{◌≡◌, ◌++◌, ◌∷◌, List, [], Option, codes, map, option_map, slice_index};
ghost use Rattle.std.specs.List.{flat_map};
ghost use Rattle.cwr_devices.specs.Steps.Pens.{Adds};
ghost use Rattle.cwr_devices.specs.Steps.Sinks.{PutsText};
ghost use Rattle.cwr_fields.specs.Format.Kinds.{all_kinds};
ghost use Rattle.cwr_summary.specs.declared.columns.Column.{Column};
ghost use Rattle.cwr_summary.specs.declared.columns.Column.TheVariants.{Records};
ghost use Rattle.cwr_summary.specs.Format.Summaries.{all_rights};
ghost use Rattle.cwr_summary_rows.specs.Format.Rows.{advice_parts, count_parts, file_part, finding_parts, front_parts, header_cell, header_parts, heading};
ghost use Rattle.cwr_summary_rows.specs.Format.Rows.{kind_cell, last_part, right_name, right_part, row_text, shares_cell, sum_cell, sum_in, work_parts};
ghost use Rattle.cwr_summary_rows.specs.Format.Shown.{cells_of, numbers_of, row_value};

use crate::cells::{bytes_cell, digest_cell, number_cell, share_cell};
use crate::forms::Form;
use crate::headers::Header;
use cwr_devices::{Pen, Sink, SinkFault, Target};
use cwr_fields::{
    Coded, Kind, TransactionStatus, TransactionType, VersionType, all_kinds, letters, trimmed,
};
use cwr_findings::Rule;
use cwr_summary::{Column, Right, Summary};

/// What a row says: of an input, or of several together.
#[derive(Clone, Copy, Debug)]
pub struct Row<'a> {
    /// The input's name as it is shown in the form; none for several.
    pub file: Option<&'a [u8]>,
    /// How many bytes it has.
    pub bytes: Option<u64>,
    /// How many of them stand after its transmission.
    pub after: Option<u64>,
    /// The SHA-256 digest of all of them.
    pub digest: Option<[u8; 32]>,
    /// That of its transmission's canonical text.
    pub canonical: Option<[u8; 32]>,
    /// The line that says how it ended, without a line end.
    pub verdict: &'a [u8],
    /// The cells of its HDR.
    pub header: Header<'a>,
    /// What stands in it.
    pub summary: Option<Summary>,
    /// How many pieces of advice have level T, R and F.
    pub advice: Option<(u64, u64, u64)>,
    /// How many different senders there are.
    pub senders: Option<u64>,
}

/// The rights.
const RIGHTS: [Right; 3] = [Right::Performing, Right::Mechanical, Right::Synchronization];

/// The columns of all transactions.
const TRANSACTIONS: [Column; 4] = [
    Column::Transactions(TransactionType::Agreement),
    Column::Transactions(TransactionType::NewWork),
    Column::Transactions(TransactionType::RevisedWork),
    Column::Transactions(TransactionType::Acknowledgement),
];

/// Those of all works.
const WORKS: [Column; 2] = [
    Column::Works(VersionType::Original),
    Column::Works(VersionType::Modified),
];

/// Those of findings of level T.
const TRANSACTION_FINDINGS: [Column; 6] = [
    Column::Findings(Rule::V3),
    Column::Findings(Rule::V4),
    Column::Findings(Rule::V5),
    Column::Findings(Rule::V6),
    Column::Findings(Rule::V9),
    Column::Findings(Rule::V11),
];

/// Those of findings of level R.
const RECORD_FINDINGS: [Column; 3] = [
    Column::Findings(Rule::V2),
    Column::Findings(Rule::V7),
    Column::Findings(Rule::V8),
];

/// Those of findings of level F.
const FIELD_FINDINGS: [Column; 2] = [Column::Findings(Rule::V1), Column::Findings(Rule::V10)];

/// Those of all findings.
const FINDINGS: [Column; 11] = [
    Column::Findings(Rule::V3),
    Column::Findings(Rule::V4),
    Column::Findings(Rule::V5),
    Column::Findings(Rule::V6),
    Column::Findings(Rule::V9),
    Column::Findings(Rule::V11),
    Column::Findings(Rule::V2),
    Column::Findings(Rule::V7),
    Column::Findings(Rule::V8),
    Column::Findings(Rule::V1),
    Column::Findings(Rule::V10),
];

/// Adds what the row is of.
fn file_part<W: Target>(form: Form, file: Option<&[u8]>, pen: &mut Pen<'_, W>)
    ensures { Adds W.contents W.failures (file_part form (option_map (λ n. n.now) file.entry)) pen.old pen.new }
{
    match (form, file) {
        (Form::Names, _) => pen.text(b"file"),
        (Form::Words, Some(name)) => {
            pen.text(name);
            pen.text(b"\n");
        }
        (Form::Words, None) => pen.text(b"SUMS\n"),
        (Form::Csv, Some(name)) => pen.text(name),
        (Form::Csv, None) => {}
        (Form::Json, Some(name)) => {
            pen.text(b"{\"file\":");
            pen.text(name);
        }
        (Form::Json, None) => pen.text(b"{\"file\":null"),
    }
}

/// Adds what stands before the cells of HDR.
fn front_parts<W: Target>(form: Form, row: &Row<'_>, pen: &mut Pen<'_, W>)
    ensures { Adds W.contents W.failures (front_parts form (row_value row.now)) pen.old pen.new }
{
    file_part(form, row.file, pen);
    number_cell(form, b"bytes", b"", row.bytes, pen);
    number_cell(form, b"bytes_after", b"", row.after, pen);
    digest_cell(form, b"sha256", row.digest, pen);
    digest_cell(form, b"canonical_sha256", row.canonical, pen);
    bytes_cell(form, b"verdict", row.verdict, pen);
}

/// Adds a cell of HDR, without trailing spaces.
fn header_cell<W: Target>(form: Form, name: &[u8], text: &[u8], pen: &mut Pen<'_, W>)
    ensures { Adds W.contents W.failures (header_cell form name.now text.now) pen.old pen.new }
{
    bytes_cell(form, name, trimmed(text), pen);
}

/// Adds the cells of HDR.
fn header_parts<W: Target>(form: Form, header: &Header<'_>, pen: &mut Pen<'_, W>)
    ensures { Adds W.contents W.failures (header_parts form (cells_of header.now)) pen.old pen.new }
{
    header_cell(form, b"sender_type", header.sender_type, pen);
    header_cell(form, b"sender_id", header.sender_id, pen);
    header_cell(form, b"sender_name", header.sender_name, pen);
    header_cell(form, b"creation_date", header.creation_date, pen);
    header_cell(form, b"creation_time", header.creation_time, pen);
    header_cell(form, b"transmission_date", header.transmission_date, pen);
}

/// The sum of some columns. It stays at `u64::MAX`.
fn sum_in(summary: &Summary, columns: &[Column]) -> u64
    ensures { result ≡ sum_in columns.now summary.now.numbers }
{
    let mut sum: u64 = 0;
    for i in 0..columns.len() {
        sum = sum.saturating_add(summary.number(columns[i]));
    }
    sum
}

/// Adds the sum of some columns.
fn sum_cell<W: Target>(
    form: Form,
    summary: &Option<Summary>,
    front: &[u8],
    back: &[u8],
    columns: &[Column],
    pen: &mut Pen<'_, W>,
)
    ensures { Adds W.contents W.failures
        (sum_cell form (numbers_of summary.now) (front.now ++ back.now) columns.now) pen.old pen.new }
{
    let sum = match summary {
        Some(summary) => Some(sum_in(summary, columns)),
        None => None,
    };
    number_cell(form, front, back, sum, pen);
}

/// A code that has a column for each member.
trait Columned: Coded {
    // What is counted there.
    ghost column: { Self → Column };

    /// The column of the member.
    fn column(self) -> Column
        ensures { result ≡ column self };
}

impl Columned for TransactionType {
    ghost use Rattle.cwr_summary.specs.declared.columns.Column.TheVariants.{Transactions};

    ghost column = { Transactions };

    fn column(self) -> Column {
        Column::Transactions(self)
    }
}

impl Columned for VersionType {
    ghost use Rattle.cwr_summary.specs.declared.columns.Column.TheVariants.{Works};

    ghost column = { Works };

    fn column(self) -> Column {
        Column::Works(self)
    }
}

impl Columned for TransactionStatus {
    ghost use Rattle.cwr_summary.specs.declared.columns.Column.TheVariants.{Acknowledgements};

    ghost column = { Acknowledgements };

    fn column(self) -> Column {
        Column::Acknowledgements(self)
    }
}

/// Adds what is counted of each member of a code.
fn code_cells<C: Columned, W: Target>(
    form: Form,
    summary: &Option<Summary>,
    front: &[u8],
    pen: &mut Pen<'_, W>,
)
    ensures { Adds W.contents W.failures (flat_map (λ member. sum_cell form (numbers_of summary.now) (front.now ++ C.code member)
        (C.column member ∷ [])) C.members) pen.old pen.new }
{
    for (member, code) in C::list() {
        let columns = [member.column()];
        sum_cell(form, summary, front, code.as_bytes(), &columns, pen);
    }
}

/// Adds how many records of the kind there are.
fn kind_cell<W: Target>(form: Form, summary: &Option<Summary>, kind: Kind, pen: &mut Pen<'_, W>)
    ensures { Adds W.contents W.failures (kind_cell form (numbers_of summary.now) kind) pen.old pen.new }
{
    let columns = [Column::Records(kind)];
    sum_cell(form, summary, b"records_", letters(kind), &columns, pen);
}

/// Adds how many records of each kind there are.
fn kind_cells<W: Target>(form: Form, summary: &Option<Summary>, pen: &mut Pen<'_, W>)
    ensures { Adds W.contents W.failures
        (flat_map (kind_cell form (numbers_of summary.now)) all_kinds) pen.old pen.new }
{
    let kinds = all_kinds();
    for i in 0..kinds.len() {
        kind_cell(form, summary, kinds[i], pen);
    }
}

/// The columns of all records.
fn records() -> [Column; 40]
    ensures { result ≡ map Records all_kinds }
{
    [
        Column::Records(Kind::Hdr),
        Column::Records(Kind::Grh),
        Column::Records(Kind::Grt),
        Column::Records(Kind::Trl),
        Column::Records(Kind::Agr),
        Column::Records(Kind::Ter),
        Column::Records(Kind::Ipa),
        Column::Records(Kind::Nwr),
        Column::Records(Kind::Rev),
        Column::Records(Kind::Spu),
        Column::Records(Kind::Opu),
        Column::Records(Kind::Spt),
        Column::Records(Kind::Swr),
        Column::Records(Kind::Owr),
        Column::Records(Kind::Swt),
        Column::Records(Kind::Pwr),
        Column::Records(Kind::Alt),
        Column::Records(Kind::Ewt),
        Column::Records(Kind::Ver),
        Column::Records(Kind::Per),
        Column::Records(Kind::Rec),
        Column::Records(Kind::Orn),
        Column::Records(Kind::Com),
        Column::Records(Kind::Ack),
        Column::Records(Kind::Msg),
        Column::Records(Kind::Opt),
        Column::Records(Kind::Owt),
        Column::Records(Kind::Npn),
        Column::Records(Kind::Npr),
        Column::Records(Kind::Nwn),
        Column::Records(Kind::Npa),
        Column::Records(Kind::Net),
        Column::Records(Kind::Now),
        Column::Records(Kind::Nct),
        Column::Records(Kind::Nvt),
        Column::Records(Kind::Nat),
        Column::Records(Kind::Ins),
        Column::Records(Kind::Ind),
        Column::Records(Kind::Ari),
        Column::Records(Kind::Xrf),
    ]
}

/// Adds the numbers of groups, transactions and records.
fn count_parts<W: Target>(form: Form, summary: &Option<Summary>, pen: &mut Pen<'_, W>)
    ensures { Adds W.contents W.failures (count_parts form (numbers_of summary.now)) pen.old pen.new }
{
    sum_cell(form, summary, b"groups", b"", &[Column::Groups], pen);
    sum_cell(form, summary, b"transactions", b"", &TRANSACTIONS, pen);
    code_cells::<TransactionType, W>(form, summary, b"transactions_", pen);
    sum_cell(form, summary, b"records", b"", &records(), pen);
    kind_cells(form, summary, pen);
}

/// Adds the numbers of works, agreements and acknowledgements.
fn work_parts<W: Target>(form: Form, summary: &Option<Summary>, pen: &mut Pen<'_, W>)
    ensures { Adds W.contents W.failures (work_parts form (numbers_of summary.now)) pen.old pen.new }
{
    let agreements = [Column::Transactions(TransactionType::Agreement)];
    let acknowledgements = [Column::Transactions(TransactionType::Acknowledgement)];
    sum_cell(form, summary, b"works", b"", &WORKS, pen);
    code_cells::<VersionType, W>(form, summary, b"works_", pen);
    sum_cell(form, summary, b"agreements", b"", &agreements, pen);
    sum_cell(
        form,
        summary,
        b"acknowledgements",
        b"",
        &acknowledgements,
        pen,
    );
    code_cells::<TransactionStatus, W>(form, summary, b"acknowledgements_", pen);
}

/// Adds the numbers of findings.
fn finding_parts<W: Target>(form: Form, summary: &Option<Summary>, pen: &mut Pen<'_, W>)
    ensures { Adds W.contents W.failures (finding_parts form (numbers_of summary.now)) pen.old pen.new }
{
    sum_cell(form, summary, b"findings", b"", &FINDINGS, pen);
    sum_cell(
        form,
        summary,
        b"findings_T",
        b"",
        &TRANSACTION_FINDINGS,
        pen,
    );
    sum_cell(form, summary, b"findings_R", b"", &RECORD_FINDINGS, pen);
    sum_cell(form, summary, b"findings_F", b"", &FIELD_FINDINGS, pen);
}

/// Adds the numbers of pieces of advice.
fn advice_parts<W: Target>(form: Form, advice: Option<(u64, u64, u64)>, pen: &mut Pen<'_, W>)
    ensures { Adds W.contents W.failures (advice_parts form advice) pen.old pen.new }
{
    match advice {
        Some((transaction, record, field)) => {
            number_cell(form, b"advice_T", b"", Some(transaction), pen);
            number_cell(form, b"advice_R", b"", Some(record), pen);
            number_cell(form, b"advice_F", b"", Some(field), pen);
        }
        None => {
            number_cell(form, b"advice_T", b"", None, pen);
            number_cell(form, b"advice_R", b"", None, pen);
            number_cell(form, b"advice_F", b"", None, pen);
        }
    }
}

/// Adds the sum of shares in a column.
fn shares_cell<W: Target>(
    form: Form,
    summary: &Option<Summary>,
    front: &[u8],
    back: &[u8],
    column: Column,
    pen: &mut Pen<'_, W>,
)
    ensures { Adds W.contents W.failures
        (shares_cell form (numbers_of summary.now) (front.now ++ back.now) column) pen.old pen.new }
{
    let share = match summary {
        Some(summary) => Some(summary.number(column)),
        None => None,
    };
    share_cell(form, front, back, share, pen);
}

/// What a right is called.
fn right_name(right: Right) -> &'static [u8]
    ensures { result.now ≡ right_name right }
{
    match right {
        Right::Performing => b"pr",
        Right::Mechanical => b"mr",
        Right::Synchronization => b"sr",
    }
}

/// Adds what is owned in a right.
fn right_part<W: Target>(form: Form, summary: &Option<Summary>, right: Right, pen: &mut Pen<'_, W>)
    ensures { Adds W.contents W.failures (right_part form (numbers_of summary.now) right) pen.old pen.new }
{
    let name = right_name(right);
    let without = [Column::WorksWithout(right)];
    let off = [Column::WorksOff(right)];
    shares_cell(
        form,
        summary,
        b"controlled_",
        name,
        Column::Controlled(right),
        pen,
    );
    shares_cell(form, summary, b"others_", name, Column::Others(right), pen);
    sum_cell(form, summary, b"works_without_", name, &without, pen);
    sum_cell(form, summary, b"works_off_", name, &off, pen);
}

/// Adds what is owned in each right.
fn right_parts<W: Target>(form: Form, summary: &Option<Summary>, pen: &mut Pen<'_, W>)
    ensures { Adds W.contents W.failures
        (flat_map (right_part form (numbers_of summary.now)) all_rights) pen.old pen.new }
{
    for i in 0..3 {
        right_part(form, summary, RIGHTS[i], pen);
    }
}

/// Adds what ends a row.
fn last_part<W: Target>(form: Form, pen: &mut Pen<'_, W>)
    ensures { Adds W.contents W.failures (last_part form) pen.old pen.new }
{
    match form {
        Form::Names | Form::Csv => pen.text(b"\r\n"),
        Form::Words => {}
        Form::Json => pen.text(b"}\n"),
    }
}

/// Adds a row.
fn row_text<W: Target>(form: Form, row: &Row<'_>, pen: &mut Pen<'_, W>)
    ensures { Adds W.contents W.failures (row_text form (row_value row.now)) pen.old pen.new }
{
    front_parts(form, row, pen);
    header_parts(form, &row.header, pen);
    count_parts(form, &row.summary, pen);
    work_parts(form, &row.summary, pen);
    finding_parts(form, &row.summary, pen);
    advice_parts(form, row.advice, pen);
    right_parts(form, &row.summary, pen);
    number_cell(form, b"senders", b"", row.senders, pen);
    last_part(form, pen);
}

/// Puts a row.
pub fn put_row<W: Target>(form: Form, row: &Row<'_>, sink: &mut Sink<W>) -> Result<(), SinkFault>
    ensures { PutsText W.contents W.failures (row_text form (row_value row.now)) result sink.old sink.new }
{
    let mut pen = Pen::new(sink);
    row_text(form, row, &mut pen);
    pen.end()
}

/// Puts the names of the columns, as a row of a table.
pub fn put_heading<W: Target>(sink: &mut Sink<W>) -> Result<(), SinkFault>
    ensures { PutsText W.contents W.failures heading result sink.old sink.new }
{
    let nothing = Row {
        file: None,
        bytes: None,
        after: None,
        digest: None,
        canonical: None,
        verdict: b"",
        header: Header::none(),
        summary: None,
        advice: None,
        senders: None,
    };
    put_row(Form::Names, &nothing, sink)
}
