//! Specifications from their text.

ghost use Rattle.std.specs.Prelude.{◌≡◌, ◌≤◌, ◌<◌, ◌↔◌, List, length, IfOk, IfErr, Ok, Err};
ghost use Rattle.index_spec.specs.declared.token.Token.{Token};
ghost use Rattle.index_spec.specs.declared.options.Form.{Form};
ghost use Rattle.index_spec.specs.Tokens.{Spells};
ghost use Rattle.index_spec.specs.Options.{IsForm};
ghost use Rattle.index_spec.specs.Meaning.{meaning};
ghost use Rattle.answers.specs.Answers.{Answers};
ghost use Rattle.index_spec.specs.Language.{spec_of, IsSpelledBy, IsGiven, IsToldByText, refusal};

use crate::meaning::meaning;
use crate::options::form_of;
use crate::spec::{Spec, SpecFault, SpecKind};
use crate::token::tokens;
use std::alloc::Global;

const MAX_BYTES: usize = 131_072;

#[tactic(auto, unfolding(crate::specs::Language::spec_of))]
fn parsed(alloc: Global, text: &str) -> Result<Spec, SpecFault>
    ensures gives { Answers refusal result (spec_of text.now) }
    ensures long { 131072 < length text.now → result ≡ Err (SpecFault.Bad SpecKind.TooLong) }
{
    if text.len() > MAX_BYTES {
        return Err(SpecFault::Bad {
            kind: SpecKind::TooLong,
        });
    }
    let Some(tokens) = tokens(alloc, text.as_bytes())? else {
        return Err(SpecFault::Bad {
            kind: SpecKind::Syntax,
        });
    };
    let Some(form) = form_of(alloc, tokens.as_slice())? else {
        return Err(SpecFault::Bad {
            kind: SpecKind::Syntax,
        });
    };
    match meaning(alloc, &form)? {
        Ok(spec) => Ok(spec),
        Err(kind) => Err(SpecFault::Bad { kind }),
    }
}

/// The specification that the text spells, or the first refusal.
pub fn parse_spec(alloc: Global, text: &str) -> Result<Spec, SpecFault>
    // What is read is spelled so, and what is spelled so is read.
    ensures found { IfOk result (λ s. IsSpelledBy s text.now × IsGiven s) }
    ensures only { (s : Spec) → IsSpelledBy s text.now → Answers refusal result (Ok s) }

    // A text that has no form is refused so; another one is refused as its form is.
    ensures unformed { length text.now ≤ 131072 → ((tokens : List Token) (form : Form) → Spells text.now tokens → IsForm tokens form → ⊥) → Answers refusal result (Err SpecKind.Syntax) }
    ensures formed { length text.now ≤ 131072 → (tokens : List Token) (form : Form) → Spells text.now tokens → IsForm tokens form → Answers refusal result (meaning form) }
    ensures too_long { (131072 < length text.now) ↔ (result ≡ Err (SpecFault.Bad SpecKind.TooLong)) }

    // `Unknown` and `WrongType` aren't told by a text.
    ensures kinds { IfErr result IsToldByText }

    ensures exact { Answers refusal result (spec_of text.now) }
{
    parsed(alloc, text)
}
