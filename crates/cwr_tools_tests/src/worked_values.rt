//! Records, transactions and transmissions of the worked texts.

ghost use Rattle.std.specs.Prelude.{◌≢◌};
ghost use Rattle.cwr_lines.specs.declared.lines.LineEnd.TheVariants.{Open};

use crate::checks::check_equal;
use cwr_lines::{LineBuf, LineEnd, Record};
use cwr_values::{Group, Transaction, Transmission};
use cwr_worked::lines::*;
use cwr_worked::texts::ELEVEN_RECORDS;
use std::process::Abort;

/// A group of the worked texts: its GRH, and the lines of its transactions.
pub(crate) type WorkedGroup<'a> = (&'a [u8], &'a [&'a [&'a [u8]]]);

/// The groups of the transmission of one acknowledgement.
pub(crate) const ACKNOWLEDGED: &[WorkedGroup<'static>] = &[(GRH_ACK, &[&[ACK_0]])];

/// The groups of the transmission of a new work and two revised ones.
pub(crate) const NEW_AND_REVISED: &[WorkedGroup<'static>] = &[
    (GRH_NWR, &[&[NWR_0, SWR_0_1]]),
    (GRH_REV_2, &[&[REV_0, SWR_0_1], &[REV_1, SWR_1_1]]),
];

/// The group of the work of eleven records.
pub(crate) const OF_ELEVEN: &[WorkedGroup<'static>] = &[(GRH_NWR, &[ELEVEN_RECORDS])];

/// The group of a work with carried records. Of each record the encoder counts the numbers, so a line stands for it wherever
/// it comes.
pub(crate) const WITH_CARRIED: &[WorkedGroup<'static>] = &[(
    GRH_NWR,
    &[&[NWR_0, IND_0_1, SWR_0_1, ARI_0_3]],
)];

/// The group of an acknowledgement with a message and the copy of a work.
pub(crate) const WITH_COPY: &[WorkedGroup<'static>] = &[(
    GRH_ACK,
    &[&[ACK_0, MSG_0_1, NWR_0, SWR_0_1]],
)];

/// The group of two acknowledgements, the first with the copy of a work.
pub(crate) const COPY_FIRST: &[WorkedGroup<'static>] = &[(
    GRH_ACK,
    &[&[ACK_0, NWR_0, SWR_0_1], &[ACK_0]],
)];

/// The group of an acknowledgement with the copy of an agreement, in which a carried record is.
pub(crate) const WITH_AGREEMENT: &[WorkedGroup<'static>] = &[(
    GRH_ACK,
    &[&[ACK_0, AGR_0, TER_0_1, IPA_AS_0_2, NPA_0_1, IPA_AC_0_3]],
)];

/// The record of a line that ended.
fn held(rt: &impl Abort, buffer: &LineBuf) -> Record
    requires { buffer.now.ended ≢ Open }
{
    let shown = buffer.cut().record();
    shown.expect(rt, "no record").to_record()
}

/// The record that a worked line carries.
pub(crate) fn record(rt: &impl Abort, line: &[u8]) -> Record {
    let mut buffer = LineBuf::new();
    match buffer.take(line).ended {
        LineEnd::Open => {
            buffer.close();
            held(rt, &buffer)
        }
        _ => held(rt, &buffer),
    }
}

/// Adds the record of a line, which may come.
fn add_record(rt: &impl Abort, transaction: &mut Transaction, line: &[u8]) {
    check_equal(rt, transaction.push(record(rt, line).view()), Ok(()));
}

/// The transaction of worked lines.
pub(crate) fn transaction(rt: &(impl Abort + AllocGlobal), lines: &[&[u8]]) -> Transaction {
    let (header, others) = lines.split_first().expect(rt, "no line");
    let begun = Transaction::new(rt.alloc(), record(rt, header).view());
    let mut transaction = begun.expect(rt, "no transaction");
    for line in others {
        add_record(rt, &mut transaction, line);
    }
    transaction
}

/// Adds the transaction of lines, which may come.
fn add_transaction(rt: &(impl Abort + AllocGlobal), group: &mut Group, lines: &[&[u8]]) {
    assert!(rt; group.push(transaction(rt, lines)).is_ok());
}

/// A group of worked lines, whose GRT has nothing set.
fn group(rt: &(impl Abort + AllocGlobal), worked: &WorkedGroup<'_>) -> Group {
    let (head, transactions) = worked;
    let begun = Group::new(rt.alloc(), record(rt, head));
    let mut group = begun.ok().expect(rt, "no group");
    for lines in *transactions {
        add_transaction(rt, &mut group, lines);
    }
    group
}

/// Adds a group, which may come.
fn add_group(
    rt: &(impl Abort + AllocGlobal),
    transmission: &mut Transmission,
    worked: &WorkedGroup<'_>,
) {
    assert!(rt; transmission.push(group(rt, worked)).is_ok());
}

/// The transmission of worked groups.
pub(crate) fn transmission(
    rt: &(impl Abort + AllocGlobal),
    groups: &[WorkedGroup<'_>],
) -> Transmission {
    let begun = Transmission::new(rt.alloc(), record(rt, HDR));
    let mut transmission = begun.ok().expect(rt, "no transmission");
    for worked in groups {
        add_group(rt, &mut transmission, worked);
    }
    transmission
}
