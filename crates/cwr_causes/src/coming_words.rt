//! Which records may come, in words.

ghost use Rattle.std.specs.Prelude.{◌≡◌, ◌++◌, ◌||◌, true, codes, string_bytes, OnOk, IfOk};
ghost use Rattle.std.specs.List.{list_any};
ghost use Rattle.cwr_causes.specs.Format.ComingTexts.{carried_line, carried_words, coming_words, is_carried_symbol, is_listed, one_listed, separator, symbol_words, symbols_words};
ghost use Rattle.cwr_causes.specs.Steps.Coming.{coming_at};

use crate::expected::letters_of;
use crate::next_symbols::coming;
use crate::texts::add_label;
use cwr_fields::is_carried;
use cwr_shape::{Stage, Symbol};
use std::alloc::{AllocError, Global};
use std::fmt::Write;

/// Adds a symbol as an order of records names it.
pub(crate) fn add_symbol(text: &mut String, symbol: Symbol) -> Result<(), AllocError>
    ensures { OnOk result (string_bytes text.new ≡ string_bytes text.old ++ symbol_words symbol) }
{
    match symbol {
        Symbol::Plain(kind) => text.push_str(letters_of(kind)),
        Symbol::Ipa(role) => write!(text, "IPA of role {role}"),
        Symbol::Grh(ty) => write!(text, "GRH of type {ty}"),
    }
}

/// Whether the symbol is that of a record that is carried as text.
fn is_carried_symbol(symbol: Symbol) -> bool
    ensures { result ≡ is_carried_symbol symbol }
{
    match symbol {
        Symbol::Plain(kind) => is_carried(kind),
        _ => false,
    }
}

/// Adds what stands between two symbols, where one was added before.
fn add_separator(text: &mut String, follows: bool) -> Result<(), AllocError>
    ensures { OnOk result (string_bytes text.new ≡ string_bytes text.old ++ separator follows) }
{
    if follows { text.push_str(", ") } else { Ok(()) }
}

/// Whether the symbol is one of those that are asked for: of those carried as text, or of the others.
fn is_listed(symbol: Symbol, carried: bool) -> bool
    ensures { result ≡ is_listed carried symbol }
{
    is_carried_symbol(symbol) == carried
}

/// Adds the symbol, if it is one of those carried as text, or one of the others, that are asked for. The answer is whether one was
/// added so far.
fn add_listed_symbol(
    text: &mut String,
    symbol: Symbol,
    carried: bool,
    follows: bool,
) -> Result<bool, AllocError>
    ensures text { OnOk result (string_bytes text.new ≡ string_bytes text.old
        ++ one_listed (is_listed carried symbol) follows symbol) }
    ensures follows { IfOk result (λ listed. listed ≡ (follows || is_listed carried symbol)) }
{
    if !is_listed(symbol, carried) {
        return Ok(follows);
    }
    add_separator(text, follows)?;
    add_symbol(text, symbol)?;
    Ok(true)
}

/// Ends the line.
fn add_line_end(text: &mut String) -> Result<(), AllocError>
    ensures { OnOk result (string_bytes text.new ≡ string_bytes text.old ++ codes "\n") }
{
    text.push('\n')
}

/// Adds those of the symbols that are carried as text, or the others.
fn add_symbols(text: &mut String, symbols: &[Symbol], carried: bool) -> Result<(), AllocError>
    ensures { OnOk result (string_bytes text.new ≡ string_bytes text.old
        ++ symbols_words carried symbols.now) }
{
    let mut follows = false;
    for symbol in symbols {
        follows = add_listed_symbol(text, *symbol, carried, follows)?;
    }
    add_line_end(text)
}

/// Whether some of the symbols are carried as text.
fn has_carried(symbols: &[Symbol]) -> bool
    ensures { result ≡ list_any is_carried_symbol symbols.now }
{
    symbols.iter().any(|symbol| is_carried_symbol(*symbol))
}

/// Adds those of the symbols that are carried as text, on a line of their own.
#[tactic(auto, unfolding(crate::specs::Format::ComingTexts::carried_line))]
fn add_carried_line(text: &mut String, symbols: &[Symbol]) -> Result<(), AllocError>
    ensures { OnOk result (string_bytes text.new ≡ string_bytes text.old ++ carried_line symbols.now) }
{
    add_label(text, "")?;
    text.push_str("or, carried as text, ")?;
    add_symbols(text, symbols, true)
}

/// Adds the same, if there are some.
fn add_carried(text: &mut String, symbols: &[Symbol]) -> Result<(), AllocError>
    ensures { OnOk result (string_bytes text.new ≡ string_bytes text.old ++ carried_words symbols.now) }
{
    if has_carried(symbols) {
        add_carried_line(text, symbols)
    } else {
        Ok(())
    }
}

/// Adds the lines that say that these may come.
#[tactic(auto, unfolding(crate::specs::Format::ComingTexts::coming_words))]
fn add_all(text: &mut String, symbols: &[Symbol]) -> Result<(), AllocError>
    ensures { OnOk result (string_bytes text.new ≡ string_bytes text.old ++ coming_words symbols.now) }
{
    add_label(text, "expected")?;
    add_symbols(text, symbols, false)?;
    add_carried(text, symbols)
}

/// Adds what may come at a stage.
pub(crate) fn add_coming(alloc: Global, text: &mut String, stage: Stage) -> Result<(), AllocError>
    ensures { OnOk result (string_bytes text.new ≡ string_bytes text.old ++ coming_words (coming_at stage)) }
{
    let symbols = coming(alloc, stage)?;
    add_all(text, symbols.as_slice())
}
