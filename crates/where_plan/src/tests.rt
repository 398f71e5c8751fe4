use crate::{NameFault, Plan, PlanAtom, Sort, resolve, sort_of, word_spans};
use binning::Spans;
use fb_types::{Schema, parse_schema};
use std::alloc::{AllocError, Global};
use std::test::Fail;
use text_column::Dictionary;
use where_grammar::{Clause, QueryKind, parse_where};

/// Appends spans, as in `4..5 9..9`.
fn push_spans(alloc: Global, text: &mut String, spans: &Spans) -> Result<(), AllocError> {
    for span in spans.list() {
        if !text.is_empty() {
            text.push_str(" ")?;
        }
        let ends = format!(in alloc; "{}..{}", span.least, span.greatest)?;
        text.push_str(ends.as_str())?;
    }
    Ok(())
}

/// A kind of refusal and the name of the column.
fn refused(alloc: Global, kind: &QueryKind) -> Result<String, AllocError> {
    match kind {
        QueryKind::Unknown(name) => format!(in alloc; "unknown {}", name.as_str()),
        QueryKind::WrongType(name) => format!(in alloc; "wrong type {}", name.as_str()),
        _ => String::from_str(alloc, "another kind"),
    }
}

/// What is told of a condition.
fn told_of_atom(alloc: Global, condition: &PlanAtom) -> Result<String, AllocError> {
    match condition {
        PlanAtom::Whole { col, spans } => {
            let mut text = format!(in alloc; "{col}:")?;
            push_spans(alloc, &mut text, spans)?;
            Ok(text)
        }
        PlanAtom::Word { col, .. } => format!(in alloc; "{col}: word"),
        PlanAtom::Exists { col } => format!(in alloc; "{col}: exists"),
    }
}

/// What is told of a plan.
fn told_of_plan(alloc: Global, plan: &Plan) -> Result<String, AllocError> {
    match plan {
        Plan::One(condition) => told_of_atom(alloc, condition),
        Plan::All => String::from_str(alloc, "all"),
        Plan::Or(parts) => format!(in alloc; "or of {}", parts.len()),
        Plan::Xor(parts) => format!(in alloc; "xor of {}", parts.len()),
        Plan::And(parts) => format!(in alloc; "and of {}", parts.len()),
        Plan::Not(_) => String::from_str(alloc, "not"),
    }
}

fn told_of_clause(
    alloc: Global,
    clause: Option<&Clause>,
    schema: &Schema,
) -> Result<String, AllocError> {
    match resolve(alloc, clause, schema) {
        Ok(plan) => told_of_plan(alloc, &plan),
        Err(NameFault::Bad { kind }) => refused(alloc, &kind),
        Err(NameFault::OutOfMemory) => String::from_str(alloc, "no memory"),
    }
}

/// What is told of a clause under a schema.
fn told(alloc: Global, schema: &str, text: &str) -> Result<String, AllocError> {
    match (parse_schema(alloc, schema), parse_where(alloc, text)) {
        (Ok(schema), Ok(clause)) => told_of_clause(alloc, Some(&clause), &schema),
        _ => String::from_str(alloc, "not parsed"),
    }
}

#[test]
fn numbers_have_spans(rt: HostRuntime) -> Result<(), Fail> {
    for (schema, text, want) in [
        ("a:byte", "a in (5, 4, 9)", "0: 4..5 9..9"),
        ("a:ubyte", "a != 3", "0: 0..2 4..255"),
        ("a:ubyte", "a < 0", "0:"),
        ("a:ubyte", "a >= -1", "0: 0..255"),
        ("a:byte", "a < 128", "0: -128..127"),
        ("a:byte", "a < 127", "0: -128..126"),
        ("a:byte", "a > -129", "0: -128..127"),
        ("a:byte", "a > 127", "0:"),
        ("a:short", "a <= -32768", "0: -32768..-32768"),
        ("a:ushort", "a >= 65535", "0: 65535..65535"),
        ("a:int", "a != -2147483648", "0: -2147483647..2147483647"),
        ("a:uint", "a != 4294967295", "0: 0..4294967294"),
        (
            "a:long",
            "a < 170141183460469231731687303715884105727",
            "0: -9223372036854775808..9223372036854775807",
        ),
        (
            "a:long",
            "a <= -170141183460469231731687303715884105728",
            "0:",
        ),
        (
            "a:ulong",
            "a > -170141183460469231731687303715884105728",
            "0: 0..18446744073709551615",
        ),
        (
            "a:ulong",
            "a > 170141183460469231731687303715884105727",
            "0:",
        ),
        ("a:byte", "a = 5", "0: 5..5"),
        ("a:byte", "a = 128", "0:"),
        ("a:byte", "1 < a <= 5", "0: 2..5"),
        ("a:byte", "5 >= a > 1", "0: 2..5"),
        ("a:byte", "5 != a != 7", "0: -128..4 6..6 8..127"),
        ("a:byte", "3 < a", "0: 4..127"),
        ("a:byte", "a between 3 and 300", "0: 3..127"),
        ("a:byte", "a between 3 and 2", "0:"),
        ("a:byte", "a in (7, 300, 6, 7, 5, -129)", "0: 5..7"),
        ("b:int,a:byte", "a = 5", "1: 5..5"),
    ] {
        let found = told(rt.alloc(), schema, text)?;
        assert!(rt; found.as_str() == want, "{text}");
    }
    Ok(())
}

#[test]
fn the_first_condition_that_does_not_fit_is_refused(rt: HostRuntime) -> Result<(), Fail> {
    let schema = "n:int,c:category,t:text";
    for (text, want) in [
        ("n < 5 or c = \"x\" or t like \"x%\"", "or of 3"),
        ("n < 5 and exists (c) and exists (t)", "and of 3"),
        ("exists (n) xor c != \"x\"", "xor of 2"),
        ("not n in (1, 2)", "not"),
        ("c in (\"x\", \"y\")", "1: word"),
        ("exists (t)", "2: exists"),
        ("z = 1", "unknown z"),
        ("exists (z)", "unknown z"),
        ("c = 1", "wrong type c"),
        ("n = \"x\"", "wrong type n"),
        ("t between 1 and 2", "wrong type t"),
        ("n < 5 and (c < 5 or z < 5)", "wrong type c"),
        ("n < 5 and (z < 5 or c < 5)", "unknown z"),
        ("not (n like \"x\" xor y = 1)", "wrong type n"),
    ] {
        let found = told(rt.alloc(), schema, text)?;
        assert!(rt; found.as_str() == want, "{text}");
    }
    Ok(())
}

#[test]
fn no_clause_asks_for_all(rt: HostRuntime) -> Result<(), Fail> {
    let Ok(schema) = parse_schema(rt.alloc(), "a:int") else {
        return Err("no schema".into());
    };
    let found = told_of_clause(rt.alloc(), None, &schema)?;
    assert!(rt; found.as_str() == "all");
    Ok(())
}

/// The words x, y, x2.
const WORDS: &[u8] = b"\x03\x00\x00\x00\x01\x00x\x01\x00y\x02\x00x2";

/// What is told of the codes of the words that meet a condition.
fn told_of_codes(alloc: Global, words: &Dictionary, text: &str) -> Result<String, AllocError> {
    let Ok(Clause::One(condition)) = parse_where(alloc, text) else {
        return String::from_str(alloc, "not parsed");
    };
    match sort_of(&condition) {
        Sort::Text => {
            let spans = word_spans(alloc, &condition, words)?;
            let mut found = String::new(alloc);
            push_spans(alloc, &mut found, &spans)?;
            Ok(found)
        }
        _ => String::from_str(alloc, "not on texts"),
    }
}

#[test]
fn words_have_spans_of_codes(rt: HostRuntime) -> Result<(), Fail> {
    let Ok(words) = Dictionary::from_bytes(rt.alloc(), WORDS) else {
        return Err("no words".into());
    };
    for (text, want) in [
        ("a like \"x%\"", "1..1 3..3"),
        ("a like \"%\"", "1..3"),
        ("a like \"z\"", ""),
        ("a = \"y\"", "2..2"),
        ("a = \"z\"", ""),
        ("a != \"y\"", "1..1 3..3"),
        ("a != \"x\"", "2..3"),
        ("a != \"z\"", "1..3"),
        ("a in (\"x2\", \"z\", \"y\", \"y\")", "2..3"),
    ] {
        let found = told_of_codes(rt.alloc(), &words, text)?;
        assert!(rt; found.as_str() == want, "{text}");
    }
    let none = Dictionary::make(rt.alloc());
    let found = told_of_codes(rt.alloc(), &none, "a != \"x\"")?;
    assert!(rt; found.is_empty());
    Ok(())
}
