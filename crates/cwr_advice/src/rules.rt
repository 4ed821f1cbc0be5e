//! The rules of advice.

ghost use Rattle.std.specs.Prelude.{◌≡◌, ◌<◌, ◌≤◌, length, slice_get};
ghost use Rattle.cwr_advice.specs.Format.Words.{advice_words, rule_text};
ghost use Rattle.cwr_advice.specs.Format.RuleOrder.{all_rules, place_of_rule};
ghost use Rattle.cwr_advice.specs.Format.Rules.{level_of_rule};

use cwr_shape::Level;

/// A rule of advice: what societies reject though the file is well formed. `docs/ADVICE.md` has their texts.
#[derive(Clone, Copy, Debug, PartialEq, Eq)]
pub enum AdviceRule {
    /// In one territory no more than the whole of a right is collected.
    A1a,
    /// A territory stands once for a publisher or a writer.
    A1b,
    /// A chain of publishers begins with an original publisher.
    A2a,
    /// Publishers who own shares say where they collect.
    A2b,
    /// A writer whom the submitter controls has a publisher.
    A2c,
    /// Such a writer who owns shares says where they are collected.
    A2d,
    /// Such a writer who owns nothing says where something is collected.
    A2e,
    /// A publisher or a writer whom the submitter controls, and who owns shares, has an IPI name number.
    A2f,
    /// Such a one has a society for each right in which it owns a share.
    A2g,
    /// A publisher of a writer names the writer whom it stands after.
    A2h,
    /// No publisher owns more than half of the performing right.
    A3a,
    /// The writers own half of the performing right or more.
    A3b,
    /// In a work with writers someone's share of the performing right is filled in.
    A3c,
    /// The same of the mechanical right.
    A3d,
    /// The same of the synchronisation right.
    A3e,
    /// An IPI name number has the right check digits.
    A4a,
    /// An IPI base number has the right check digit.
    A4b,
    /// An ISRC has its form.
    A4c,
    /// An EAN has the right check digit.
    A4d,
    /// A work has a number of its own among those of the transmission.
    A5a,
    /// A composite work names its components.
    A6a,
    /// A work with components is a composite one.
    A6b,
    /// A version names its original.
    A6c,
    /// A text ends within its cell.
    A7a,
    /// A society's number has three digits.
    A8a,
    /// A territory's number has the form of one.
    A8b,
    /// A language's code has two letters.
    A8c,
    /// A duration isn't zero.
    A8d,
    /// What has happened is no later than the transmission.
    A8e,
    /// The characters of a text are those that the header says.
    A9a,
    /// A text has no sign that stands for a letter that was lost.
    A9b,
    /// A text has no character that is written as in HTML.
    A9c,
}

/// How many rules there are.
pub const RULE_COUNT: usize = 32;

/// All rules, in their order.
const RULES: [AdviceRule; RULE_COUNT] = [
    AdviceRule::A1a,
    AdviceRule::A1b,
    AdviceRule::A2a,
    AdviceRule::A2b,
    AdviceRule::A2c,
    AdviceRule::A2d,
    AdviceRule::A2e,
    AdviceRule::A2f,
    AdviceRule::A2g,
    AdviceRule::A2h,
    AdviceRule::A3a,
    AdviceRule::A3b,
    AdviceRule::A3c,
    AdviceRule::A3d,
    AdviceRule::A3e,
    AdviceRule::A4a,
    AdviceRule::A4b,
    AdviceRule::A4c,
    AdviceRule::A4d,
    AdviceRule::A5a,
    AdviceRule::A6a,
    AdviceRule::A6b,
    AdviceRule::A6c,
    AdviceRule::A7a,
    AdviceRule::A8a,
    AdviceRule::A8b,
    AdviceRule::A8c,
    AdviceRule::A8d,
    AdviceRule::A8e,
    AdviceRule::A9a,
    AdviceRule::A9b,
    AdviceRule::A9c,
];

/// All rules, in their order.
#[tactic(auto, unfolding(crate::specs::Format::RuleOrder::all_rules))]
fn all_rules() -> &'static [AdviceRule]
    ensures { result.now ≡ all_rules }
{
    &RULES
}

/// The rule of that place among these, from 0, if there is one.
fn rule_in(rules: &[AdviceRule], place: usize) -> Option<AdviceRule>
    ensures { result ≡ slice_get rules.now place }
{
    rules.get(place).copied()
}

/// The rule of that place among all, from 0, if there is one.
pub fn rule_at(place: usize) -> Option<AdviceRule>
    ensures { result ≡ slice_get all_rules place }
{
    rule_in(all_rules(), place)
}

impl AdviceRule {
    /// Its place among all rules, from 0.
    pub fn place(self) -> usize
        ensures value { result ≡ place_of_rule self }
        ensures within { result < 32 }
    {
        self as usize
    }

    /// Its name, as it stands in a report line.
    pub fn name(self) -> &'static str
        ensures name { result.now ≡ rule_text self }
        ensures short { length result.now ≤ 3 }
    {
        match self {
            AdviceRule::A1a => "A1a",
            AdviceRule::A1b => "A1b",
            AdviceRule::A2a => "A2a",
            AdviceRule::A2b => "A2b",
            AdviceRule::A2c => "A2c",
            AdviceRule::A2d => "A2d",
            AdviceRule::A2e => "A2e",
            AdviceRule::A2f => "A2f",
            AdviceRule::A2g => "A2g",
            AdviceRule::A2h => "A2h",
            AdviceRule::A3a => "A3a",
            AdviceRule::A3b => "A3b",
            AdviceRule::A3c => "A3c",
            AdviceRule::A3d => "A3d",
            AdviceRule::A3e => "A3e",
            AdviceRule::A4a => "A4a",
            AdviceRule::A4b => "A4b",
            AdviceRule::A4c => "A4c",
            AdviceRule::A4d => "A4d",
            AdviceRule::A5a => "A5a",
            AdviceRule::A6a => "A6a",
            AdviceRule::A6b => "A6b",
            AdviceRule::A6c => "A6c",
            AdviceRule::A7a => "A7a",
            AdviceRule::A8a => "A8a",
            AdviceRule::A8b => "A8b",
            AdviceRule::A8c => "A8c",
            AdviceRule::A8d => "A8d",
            AdviceRule::A8e => "A8e",
            AdviceRule::A9a => "A9a",
            AdviceRule::A9b => "A9b",
            AdviceRule::A9c => "A9c",
        }
    }

    /// What is usually rejected where it is broken.
    pub fn level(self) -> Level
        ensures { result ≡ level_of_rule self }
    {
        match self {
            AdviceRule::A1a
            | AdviceRule::A2a
            | AdviceRule::A2b
            | AdviceRule::A2c
            | AdviceRule::A2d
            | AdviceRule::A2f
            | AdviceRule::A3a
            | AdviceRule::A3b
            | AdviceRule::A3c
            | AdviceRule::A3d
            | AdviceRule::A3e
            | AdviceRule::A5a
            | AdviceRule::A6a => Level::T,
            AdviceRule::A1b
            | AdviceRule::A2e
            | AdviceRule::A2g
            | AdviceRule::A2h
            | AdviceRule::A6b
            | AdviceRule::A6c
            | AdviceRule::A7a => Level::R,
            _ => Level::F,
        }
    }

    /// What is wrong where it is broken, and what to do.
    pub fn words(self) -> &'static str
        ensures words { result.now ≡ advice_words self }
        ensures short { length result.now ≤ 200 }
    {
        match self {
            AdviceRule::A1a =>
                "with this one more than 100 % of a right is collected in this territory: the collection shares of SPT and SWT add up to at most 100",
            AdviceRule::A1b =>
                "this territory stands twice for one publisher or writer: leave one of them out",
            AdviceRule::A2a =>
                "this chain of publishers begins with an administrator or a sub-publisher: put the original publisher (type E) before it",
            AdviceRule::A2b =>
                "publishers (SPU) own shares of this work, and no SPT says where they collect: add the SPT records",
            AdviceRule::A2c =>
                "no PWR says which publisher stands for this writer: add one after SWR",
            AdviceRule::A2d =>
                "this writer owns shares, and no SWT says where they are collected: add one after SWR, or mend its record type where it is there",
            AdviceRule::A2e =>
                "this writer owns nothing, and no SWT says that something is collected: fill in the shares or add SWT, or write OWR; if its last name is digits, it is an SWT that is mistyped",
            AdviceRule::A2f =>
                "this one owns shares and has no IPI name number, by which societies know whom they pay: look it up and fill it in",
            AdviceRule::A2g =>
                "a share in this right is owned, and no society is named for it: fill in its number, as 010",
            AdviceRule::A2h =>
                "this one names another writer than the SWR or OWR before it: mend the number, or put the record after its writer",
            AdviceRule::A3a =>
                "a publisher owns more than half of the performing right: most societies take at most 50 %",
            AdviceRule::A3b =>
                "the writers own less than half of the performing right together: most societies ask for 50 % or more",
            AdviceRule::A3c =>
                "no share of the performing right is filled in: fill in what writers and publishers own, or 00000 where they own nothing",
            AdviceRule::A3d =>
                "no share of the mechanical right is filled in: fill in what writers and publishers own, or 00000 where they own nothing",
            AdviceRule::A3e =>
                "no share of the synchronisation right is filled in: fill in what writers and publishers own, or 00000 where they own nothing",
            AdviceRule::A4a =>
                "this is no IPI name number: it has eleven digits, of which the last two check the others; look it up again",
            AdviceRule::A4b =>
                "this is no IPI base number: it is I, nine digits and a check digit, with hyphens between; eleven digits are a name number; look it up again",
            AdviceRule::A4c =>
                "this is no ISRC: it has two letters, three letters or digits and seven digits, without hyphens",
            AdviceRule::A4d =>
                "this is no EAN or UPC: it has at most 13 digits, of which the last one checks the others; look it up again",
            AdviceRule::A5a =>
                "this work number stands in a work before: a submitter gives each work a number of its own; mend it, or leave one of the works out",
            AdviceRule::A6a =>
                "the work has a composite type, and no COM names a work that is in it: add the COM records, or leave the type blank",
            AdviceRule::A6b =>
                "COM names a work that is in this one, whose composite type is blank: fill in the type, or leave COM out",
            AdviceRule::A6c =>
                "the work is a version (MOD), and no VER names its original: add a VER record, or write ORI",
            AdviceRule::A7a =>
                "this text goes on into the next cell: blanks were lost in the line, and what follows stands too far to the left; fill up the cells",
            AdviceRule::A8a => "this is no number of a society: it has three digits, as 010",
            AdviceRule::A8b =>
                "this is no number of a territory: those of countries are 0001 to 0999, those of groups begin with 21, as 2136 for the world",
            AdviceRule::A8c => "this is no code of a language: it has two letters, as EN",
            AdviceRule::A8d => "the duration is zero: fill it in, or leave it blank",
            AdviceRule::A8e =>
                "this date is after the transmission date in HDR, and what it tells of has happened: mend it, or leave it blank",
            AdviceRule::A9a =>
                "this text is in UTF-8, and HDR does not say so, or the other way: write UTF-8 in the character set of HDR, or mend the text",
            AdviceRule::A9b =>
                "letters of this text were lost in a conversion: take it from an older file",
            AdviceRule::A9c =>
                "HTML stands in the text: write the character itself, and look whether the cells behind were moved",
        }
    }
}

/// A rule, and the number of a field that it judges, from 1: that of the record type, where it judges more than a cell.
#[derive(Clone, Copy, Debug, PartialEq, Eq)]
pub struct Asked {
    /// The rule.
    pub rule: AdviceRule,
    /// The number of the field.
    pub field: u8,
}

/// A rule that a record of a transaction breaks.
#[derive(Clone, Copy, Debug, PartialEq, Eq)]
pub struct Advice {
    /// The record's sequence in its transaction, from 0.
    pub rec: usize,
    /// The number of the field, from 1.
    pub field: u8,
    /// The rule.
    pub rule: AdviceRule,
}
