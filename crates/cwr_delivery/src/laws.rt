//! Laws over what is answered and what counts, as the contracts of functions without parameters.

ghost use Rattle.cwr_delivery.specs.Format.Laws.{AgreeingIsAnswered, AnsweredAgrees, AnyOrderCounts, AnyOrderOfDaysCounts, CountingWereRead, EachIsCounted, OneOfEachSender, OthersAnswerNone};

/// An acknowledgement answers the transaction with which alone it agrees, and no other.
pub fn answers_just_one()
    ensures agreeing { AgreeingIsAnswered }
    ensures answered { AnsweredAgrees }
{}

/// Where it answers nothing, there is no such transaction.
pub fn others_answer_none()
    ensures { OthersAnswerNone }
{}

/// Of the answers to a transaction just one of each sender counts, which is one that was read, and it counts over all by that sender.
pub fn one_of_each_sender_counts()
    ensures read { CountingWereRead }
    ensures one { OneOfEachSender }
    ensures each { EachIsCounted }
{}

/// The same ones count in whatever order they are read, where of two by one sender just one counts over the other; so where no two by one
/// sender were processed on one day.
pub fn any_order_counts()
    ensures order { AnyOrderCounts }
    ensures days { AnyOrderOfDaysCounts }
{}
