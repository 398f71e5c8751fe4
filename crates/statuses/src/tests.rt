use super::*;
use fb_types::ColName;
use std::process::Abort;
use std::test::Fail;

#[test]
fn numbers_and_lines(rt: HostRuntime) -> Result<(), Fail> {
    for (status, code, line) in [
        (Status::Done, 0, ""),
        (Status::Usage, 1, "error 1 usage\n"),
        (
            Status::BadSchema {
                column: 1,
                kind: SchemaKind::BadType,
            },
            2,
            "error 2 schema at column 1 BadType\n",
        ),
        (
            Status::BadInput {
                number: 2,
                field: 1,
                kind: RecordKind::NotWhole,
            },
            3,
            "error 3 record 2 field 1 NotWhole\n",
        ),
        (
            Status::SchemaDiffers { column: 0 },
            4,
            "error 4 schema differs at column 0\n",
        ),
        (
            Status::Limit {
                what: LimitKind::Input,
                number: 1_000_001,
                limit: 1_000_000,
            },
            9,
            "error 9 limit input 1000001 over 1000000\n",
        ),
        (
            Status::BadSpec {
                kind: SpecKind::Bounds,
            },
            5,
            "error 5 spec Bounds\n",
        ),
        (
            Status::Limit {
                what: LimitKind::Bins,
                number: 1025,
                limit: 1024,
            },
            9,
            "error 9 limit bins 1025 over 1024\n",
        ),
        (Status::ReadFault, 10, ""),
        (Status::StoreFault, 11, ""),
        (Status::SinkFault, 12, ""),
        (Status::OutOfMemory, 13, ""),
    ] {
        assert_eq!(rt; status.code(), code);
        assert_eq!(rt; status.line(rt.alloc())?.as_str(), line);
    }
    Ok(())
}

/// The file of this name.
fn named<R: Abort + AllocGlobal>(rt: &R, name: &str) -> Result<FileName, AllocError> {
    match FileName::from_str(rt.alloc(), name)? {
        Some(file) => Ok(file),
        None => rt.panic("no file's name"),
    }
}

/// The column of this name.
fn column<R: Abort + AllocGlobal>(rt: &R, name: &str) -> Result<ColName, AllocError> {
    match ColName::from_bytes(rt.alloc(), name.as_bytes())? {
        Some(column) => Ok(column),
        None => rt.panic("no column's name"),
    }
}

/// The number and the line of a status.
fn check<R: Abort + AllocGlobal>(
    rt: &R,
    status: &Status,
    code: u8,
    line: &str,
) -> Result<(), AllocError> {
    assert!(rt; status.code() == code, "{line}");
    let have = status.line(rt.alloc())?;
    assert!(rt; have.as_str() == line, "{line}");
    Ok(())
}

#[test]
fn numbers_and_lines_of_questions(rt: HostRuntime) -> Result<(), Fail> {
    let unknown = QueryKind::Unknown(column(&rt, "Z_1")?);
    let damaged = Status::Damaged {
        file: named(&rt, "t/p0000/a")?,
        kind: DamageKind::Length,
        want: 0,
        have: 13,
    };
    let missing = Status::NoDataset {
        file: named(&rt, "E/-catalog.txt")?,
    };
    let literal = QueryKind::Literal;
    check(
        &rt,
        &Status::BadQuery { kind: literal },
        6,
        "error 6 query Literal\n",
    )?;
    check(
        &rt,
        &Status::BadQuery { kind: unknown },
        6,
        "error 6 query Unknown z_1\n",
    )?;
    check(&rt, &missing, 7, "error 7 missing E/-catalog.txt\n")?;
    check(&rt, &damaged, 8, "error 8 damaged t/p0000/a Length\n")?;
    Ok(())
}
