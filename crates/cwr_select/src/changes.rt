//! What is changed of what is selected.

ghost use Rattle.std.specs.Prelude.{◌≡◌};
ghost use Rattle.cwr_select.specs.Format.Sent.{kind_of};

use cwr_fields::Kind;
use cwr_moments::Moment;

/// What works are sent as.
#[derive(Clone, Copy, Debug, PartialEq, Eq)]
pub enum WorkKind {
    /// New works, NWR.
    NewWork,
    /// Revised works, REV.
    RevisedWork,
}

/// What is changed of what is selected.
#[derive(Clone, Copy, Debug, PartialEq, Eq)]
pub struct Changes {
    /// The moment at which it is created. `None` leaves HDR as it is.
    pub created: Option<Moment>,
    /// What works are sent as: their headers, and the groups that they are in. `None` leaves them as they are.
    pub works: Option<WorkKind>,
}

/// The kind of the header that a work is sent with.
pub(crate) fn kind_of(works: WorkKind) -> Kind
    ensures { result ≡ kind_of works }
{
    match works {
        WorkKind::NewWork => Kind::Nwr,
        WorkKind::RevisedWork => Kind::Rev,
    }
}
