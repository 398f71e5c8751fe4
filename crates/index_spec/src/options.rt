//! The options of an element, before it is asked whether they make a specification.

ghost use Rattle.std.specs.Prelude.{◌≡◌, IfOk};
ghost use Rattle.std.specs.Option.{option_map};
ghost use Rattle.index_spec.specs.Options.{value_at, numbers_at, setting_at, after_end, settings_of, plain, element_at, form_of};

use crate::token::Token;
use crate::word::Word;
use sqlite_items::Items;
use std::alloc::{AllocError, Global};

/// What stands after an option's word.
#[derive(Debug, Drop)]
pub(crate) enum Value {
    Nothing,
    Number(i128),
    Word(Word),
    Numbers(Items<i128>),
}

/// An option: its word, and its value.
#[derive(Debug, Drop)]
pub(crate) struct Setting {
    pub(crate) name: Word,
    pub(crate) value: Value,
}

/// The options of both elements, in the order of the text. An element that is absent has its default option.
#[derive(Debug, Drop)]
pub(crate) struct Form {
    pub(crate) binning: Items<Setting>,
    pub(crate) encoding: Items<Setting>,
}

/// Numbers with commas between, up to a closing parenthesis.
fn numbers_at(
    alloc: Global,
    tokens: &[Token],
) -> Result<Option<(Items<i128>, &[Token])>, AllocError>
    ensures { IfOk result (λ found. option_map (λ f. (f.0, f.1.now)) found ≡ numbers_at tokens.now) }
{
    let mut numbers = Items::new(alloc);
    let mut rest = tokens;
    while let [Token::Number(number), mark, after @ ..] = rest {
        numbers.push(*number)?;
        match mark {
            Token::Comma => rest = after,
            Token::Close => return Ok(Some((numbers, after))),
            _ => return Ok(None),
        }
    }
    Ok(None)
}

/// The value at the front, which may be nothing.
#[tactic(auto, unfolding(crate::specs::Options::value_at))]
fn value_at(alloc: Global, tokens: &[Token]) -> Result<Option<(Value, &[Token])>, AllocError>
    ensures { IfOk result (λ found. option_map (λ f. (f.0, f.1.now)) found ≡ value_at tokens.now) }
{
    match tokens {
        [Token::Equals, Token::Number(number), after @ ..] => Ok(Some((
            Value::Number(*number),
            after,
        ))),
        [Token::Equals, Token::Word(word), after @ ..] => Ok(Some((Value::Word(*word), after))),
        [Token::Equals, Token::Open, Token::Close, after @ ..] => Ok(Some((
            Value::Numbers(Items::new(alloc)),
            after,
        ))),
        [Token::Equals, Token::Open, after @ ..] => match numbers_at(alloc, after)? {
            None => Ok(None),
            Some((numbers, after)) => Ok(Some((Value::Numbers(numbers), after))),
        },
        _ => Ok(Some((Value::Nothing, tokens))),
    }
}

/// The option at the front.
#[tactic(auto, unfolding(crate::specs::Options::setting_at))]
fn setting_at(alloc: Global, tokens: &[Token]) -> Result<Option<(Setting, &[Token])>, AllocError>
    ensures { IfOk result (λ found. option_map (λ f. (f.0, f.1.now)) found ≡ setting_at tokens.now) }
{
    match tokens {
        [Token::Word(name), after @ ..] => match value_at(alloc, after)? {
            None => Ok(None),
            Some((value, rest)) => Ok(Some((Setting { name: *name, value }, rest))),
        },
        _ => Ok(None),
    }
}

/// What follows `/>`, where it is at the front.
fn after_end(tokens: &[Token]) -> Option<&[Token]>
    ensures { option_map (λ rest. rest.now) result ≡ after_end tokens.now }
{
    match tokens {
        [Token::Slash, Token::Greater, rest @ ..] => Some(rest),
        _ => None,
    }
}

/// The options up to `/>`, and what follows it.
fn settings_of(
    alloc: Global,
    tokens: &[Token],
) -> Result<Option<(Items<Setting>, &[Token])>, AllocError>
    ensures { IfOk result (λ found. option_map (λ f. (f.0, f.1.now)) found ≡ settings_of tokens.now) }
{
    let mut settings = Items::new(alloc);
    let mut rest = tokens;
    loop {
        if let Some(after) = after_end(rest) {
            return Ok(Some((settings, after)));
        }
        match setting_at(alloc, rest)? {
            None => return Ok(None),
            Some((setting, after)) => {
                settings.push(setting)?;
                rest = after;
            }
        }
    }
}

/// An option that is its word alone.
fn plain(alloc: Global, name: Word) -> Result<Items<Setting>, AllocError>
    ensures { IfOk result (λ settings. settings ≡ plain name) }
{
    let mut settings = Items::new(alloc);
    settings.push(Setting {
        name,
        value: Value::Nothing,
    })?;
    Ok(settings)
}

/// The options of the element of this name, if it is at the front, and what follows it.
#[tactic(auto, unfolding(crate::specs::Options::element_at))]
fn element_at(
    alloc: Global,
    name: Word,
    default: Word,
    tokens: &[Token],
) -> Result<Option<(Items<Setting>, &[Token])>, AllocError>
    ensures { IfOk result (λ found. option_map (λ f. (f.0, f.1.now)) found ≡ element_at name default tokens.now) }
{
    if let [Token::Less, Token::Word(word), after @ ..] = tokens {
        if word.is(name) {
            return settings_of(alloc, after);
        }
    }
    Ok(Some((plain(alloc, default)?, tokens)))
}

/// The options of both elements, None where the tokens aren't two elements.
#[tactic(auto, unfolding(crate::specs::Options::form_of))]
pub(crate) fn form_of(alloc: Global, tokens: &[Token]) -> Result<Option<Form>, AllocError>
    ensures { IfOk result (λ found. found ≡ form_of tokens.now) }
{
    match element_at(alloc, Word::Binning, Word::Each, tokens)? {
        None => Ok(None),
        Some((binning, rest)) => match element_at(alloc, Word::Encoding, Word::Equality, rest)? {
            Some((encoding, [])) => Ok(Some(Form { binning, encoding })),
            _ => Ok(None),
        },
    }
}
