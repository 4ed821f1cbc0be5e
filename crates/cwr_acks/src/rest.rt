//! What stands after several transmissions of acknowledgements.

ghost use Rattle.std.specs.Prelude.{◌≡◌, length};
ghost use Rattle.cwr_acks.specs.Steps.AckSteps.{PutsRest};

use crate::counts::Answers;
use crate::forms::Manner;
use crate::item_lines::end_at;
use cwr_delivery::Delivery;
use cwr_devices::{Pen, Sink, SinkFault, Target};

/// Puts what stands after the last of several transmissions of acknowledgements: what none of them answers of what was sent, and the
/// line of how many acknowledgements they have together.
pub fn put_rest<W: Target>(
    manner: &Manner<'_>,
    delivery: &Option<Delivery>,
    answers: &Answers,
    sink: &mut Sink<W>,
) -> Result<(), SinkFault>
    requires { length answers.now.by_status ≡ 10 }
    ensures { PutsRest W.contents W.failures manner.now delivery.now answers.now result sink.old
        sink.new }
{
    let alone = Manner {
        form: manner.form,
        statuses: manner.statuses,
        file: None,
        names: manner.names,
    };
    let mut pen = Pen::new(sink);
    end_at(&alone, delivery, answers, &mut pen);
    pen.end()
}
