use super::*;
use std::process::Abort;
use std::test::Fail;

fn words_of(alloc: Global, text: &str) -> Result<Vec<String>, AllocError> {
    let mut words = Vec::new(alloc);
    for word in text.split('|') {
        words.push(String::from_str(alloc, word)?)?;
    }
    Ok(words)
}

/// A request as one text, of which the words stand between bars.
fn shown(alloc: Global, found: &Option<Job>) -> Result<String, AllocError> {
    match found {
        None => String::from_str(alloc, "none"),
        Some(Job::Ardea(load)) => shown_load(alloc, load),
        Some(Job::Ibis { dir, task }) => {
            let task = shown_task(alloc, task)?;
            format!(in alloc; "ibis|{}|{}", dir.as_str(), task.as_str())
        }
        Some(Job::Session) => String::from_str(alloc, "session"),
        Some(Job::Gen { rows, seed }) => format!(in alloc; "gen|{rows}|{seed}"),
    }
}

fn shown_load(alloc: Global, load: &Load) -> Result<String, AllocError> {
    let file = match &load.file {
        Some(file) => file.as_str(),
        None => "no file",
    };
    format!(in alloc;
        "ardea|{}|{}|{file}|{}|{}",
        load.dir.as_str(),
        text(&load.schema),
        load.per_part,
        load.skip
    )
}

fn shown_task(alloc: Global, task: &Task) -> Result<String, AllocError> {
    match task {
        Task::Answer { query, tell } => format!(in alloc; "answer|{}|{tell}", text(query)),
        Task::Estimate { query } => format!(in alloc; "estimate|{}", text(query)),
        Task::Build {
            spec,
            columns: Some(columns),
        } => format!(in alloc; "build|{}|{}", text(spec), text(columns)),
        Task::Build {
            spec,
            columns: None,
        } => format!(in alloc; "build|{}", text(spec)),
        Task::Check => String::from_str(alloc, "check"),
        Task::List => String::from_str(alloc, "list"),
    }
}

fn text(label: &Label) -> &str {
    match str::from_utf8(label.bytes()) {
        Ok(text) => text,
        Err(_) => "no text",
    }
}

fn expect<R: Abort + AllocGlobal>(rt: &R, words: &str, want: &str) -> Result<(), AllocError> {
    let spelled = words_of(rt.alloc(), words)?;
    let found = request(rt.alloc(), &spelled)?;
    let found = shown(rt.alloc(), &found)?;
    assert_eq!(rt; found.as_str(), want, "{words}");
    Ok(())
}

#[test]
fn reads_requests(rt: HostRuntime) -> Result<(), Fail> {
    for (words, want) in [
        ("ardea|-d|t|-m|a:int", "ardea|t|a:int|no file|1000000|0"),
        (
            "ardea|-s|1|-t|w.csv|-p|2|-m||-d|/a/-b",
            "ardea|/a/-b||w.csv|2|1",
        ),
        (
            "ardea|-d|t|-m|-t|-p|999999999999999999",
            "ardea|t|-t|no file|999999999999999999|0",
        ),
        (
            "ibis|-d|D|-q|where a < 5|-v",
            "ibis|D|answer|where a < 5|true",
        ),
        ("ibis|-d|-q|-q|x", "ibis|-q|answer|x|false"),
        ("ibis|-e||-d|D", "ibis|D|estimate|"),
        ("ibis|-d|D|-b|-c|-k|a, b", "ibis|D|build|-c|a, b"),
        ("ibis|-d|D|-b|s", "ibis|D|build|s"),
        ("ibis|-c|-d|D", "ibis|D|check"),
        ("ibis|-l|-d|D", "ibis|D|list"),
        ("session", "session"),
        ("gen|1000000|0", "gen|1000000|0"),
    ] {
        expect(&rt, words, want)?;
    }
    Ok(())
}

#[test]
fn other_words_are_no_request(rt: HostRuntime) -> Result<(), Fail> {
    for words in [
        "",
        "Ardea|-d|t|-m|a:int",
        "ardea|-d|t",
        "ardea|-m|a:int",
        "ardea|-d|t|-m",
        "ardea|-d|t|-m|a:int|x",
        "ardea|-d|t|-m|a:int|-v",
        "ardea|-d|a//b|-m|a:int",
        "ardea|-d|..|-m|a:int",
        "ardea|-d|t|-m|a:int|-t|w.CSV",
        "ardea|-d|t|-m|a:int|-t|.csv/",
        "ardea|-d|t|-m|a:int|-p|0",
        "ardea|-d|t|-m|a:int|-p|+1",
        "ardea|-d|t|-m|a:int|-s|",
        "ardea|-d|t|-m|a:int|-s|0000000000000000001",
        "ardea|-d|t|-d|t|-m|a:int",
        "ibis|-d|D",
        "ibis|-d|D|-q|x|-e|x",
        "ibis|-d|D|-l|-l",
        "ibis|-d|D|-cl",
        "ibis|-d|D|-e|x|-v",
        "ibis|-d|D|-q|x|-k|a",
        "ibis|-dD|-l",
        "ibis|-d=D|-l",
        "ibis|--|-d|D|-l",
        "ibis|-l|-d",
        "session|x",
        "gen|1",
        "gen|0|1",
        "gen|1000001|1",
        "gen|1|-1",
        "gen|1|1|1",
    ] {
        expect(&rt, words, "none")?;
    }
    Ok(())
}

fn joined(alloc: Global, found: &Option<Vec<String>>) -> Result<String, AllocError> {
    let mut text = String::new(alloc);
    let Some(words) = found else {
        text.push_str("none")?;
        return Ok(text);
    };
    for word in words {
        text.push_str("<")?;
        text.push_str(word.as_str())?;
        text.push_str(">")?;
    }
    Ok(text)
}

#[test]
fn reads_lines(rt: HostRuntime) -> Result<(), Fail> {
    let alloc = rt.alloc();
    for (line, want) in [
        ("", ""),
        (" \t\r", ""),
        ("\t# 'x", ""),
        (
            "ibis -d D\t-q 'where a >= 1024' -v\r",
            "<ibis><-d><D><-q><where a >= 1024><-v>",
        ),
        ("a'b\tc'd''e", "<ab\tcde>"),
        (" '' x# ", "<><x#>"),
        ("'\r'\r\r", "<\r\r>"),
        ("\u{e9}'\u{4e2d} '\u{1f600}", "<\u{e9}\u{4e2d} \u{1f600}>"),
        ("a 'b", "none"),
        ("'", "none"),
    ] {
        let found = line_words(alloc, line.as_bytes())?;
        let found = joined(alloc, &found)?;
        assert_eq!(rt; found.as_str(), want, "{line:?}");
    }
    for line in [b"a \xff".as_slice(), b"\xc3'\xa9'", b"\r\n\xc3"] {
        assert!(rt; line_words(alloc, line)?.is_none(), "{line:?}");
    }
    assert!(rt; line_words(alloc, b"#\xff")?.is_some());
    Ok(())
}
