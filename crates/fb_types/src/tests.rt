use super::*;
use std::alloc::Global;
use std::process::Abort;
use std::test::Fail;

#[test]
fn names(rt: HostRuntime) -> Result<(), Fail> {
    let alloc = rt.alloc();
    let long = [b'x'; 65];
    for (bytes, want) in [
        (b"Ab".as_slice(), Some("ab")),
        (b"_9z", Some("_9z")),
        (
            &long[..64],
            Some("xxxxxxxxxxxxxxxxxxxxxxxxxxxxxxxxxxxxxxxxxxxxxxxxxxxxxxxxxxxxxxxx"),
        ),
        (&long, None),
        (b"", None),
        (b"by", None),
        (b"ORDER", None),
        (b"2a", None),
        (b"a-b", None),
    ] {
        let name = ColName::from_bytes(alloc, bytes)?;
        match (name, want) {
            (None, None) => {}
            (Some(name), Some(want)) => {
                assert!(rt; name.bytes() == want.as_bytes());
                assert!(rt; name.copy(alloc)?.bytes() == want.as_bytes());
            }
            _ => assert!(rt; false, "at {bytes:?}"),
        }
    }
    let label = Label::from_bytes(alloc, b"x")?;
    assert!(rt; label.bytes() == b"x".as_slice());
    assert!(rt; label.copy(alloc)?.bytes() == [0x78].as_slice());
    Ok(())
}

#[test]
fn schemas(rt: HostRuntime) -> Result<(), Fail> {
    let alloc = rt.alloc();
    for (text, printed) in [
        ("a:int, B:category", "a:int,b:category"),
        ("\t_9 :\tubyte \t", "_9:ubyte"),
        (
            "a:byte,b:ubyte,c:short,d:ushort,e:int,f:uint,g:long,h:ulong,i:category,j:text",
            "a:byte,b:ubyte,c:short,d:ushort,e:int,f:uint,g:long,h:ulong,i:category,j:text",
        ),
        ("INT:int,Orders:text", "int:int,orders:text"),
    ] {
        assert!(rt; prints_as(alloc, text, printed)?, "at {text}");
    }
    let schema = parse_schema(alloc, "A:int,b:category")?.copy(alloc)?;
    assert_eq!(rt; schema.place(b"b"), Some(1));
    assert_eq!(rt; schema.place(b"B"), None);
    Ok(())
}

fn prints_as(alloc: Global, text: &str, printed: &str) -> Result<bool, Fail> {
    let schema = parse_schema(alloc, text)?.copy(alloc)?;
    Ok(print_schema(alloc, &schema)?.bytes() == printed.as_bytes())
}

#[test]
fn refused_schemas(rt: HostRuntime) -> Result<(), Fail> {
    let alloc = rt.alloc();
    for (text, column, kind) in [
        ("", 0, SchemaKind::Empty),
        (" \t ", 0, SchemaKind::Empty),
        ("a:int,a:byte", 2, SchemaKind::Repeated),
        ("a:int,b:int,A :text,b:int", 3, SchemaKind::Repeated),
        ("a:real", 1, SchemaKind::BadType),
        ("a:INT", 1, SchemaKind::BadType),
        ("a", 1, SchemaKind::BadType),
        ("a:", 1, SchemaKind::BadType),
        ("a:int:int", 1, SchemaKind::BadType),
        ("a:int,a:real", 2, SchemaKind::BadType),
        ("a:in t", 1, SchemaKind::BadType),
        ("a:\nint", 1, SchemaKind::BadType),
        ("2a:int", 1, SchemaKind::BadName),
        ("select:int", 1, SchemaKind::BadName),
        ("x:int, By:int", 2, SchemaKind::BadName),
        ("a b:int", 1, SchemaKind::BadName),
        (":int", 1, SchemaKind::BadName),
        ("int", 1, SchemaKind::BadType),
        (",", 1, SchemaKind::BadName),
        ("a:int,", 2, SchemaKind::BadName),
        ("a:int,:real,a:int", 2, SchemaKind::BadName),
    ] {
        assert!(rt; is_refused(alloc, text, column, kind), "at {text}");
    }
    Ok(())
}

fn is_refused(alloc: Global, text: &str, column: u32, kind: SchemaKind) -> bool {
    match parse_schema(alloc, text) {
        Err(
            MetaFault::Bad {
                column: place,
                kind: fault,
            },
        ) => place == column && fault == kind,
        _ => false,
    }
}

#[test]
fn widest_schemas(rt: HostRuntime) -> Result<(), Fail> {
    let alloc = rt.alloc();
    let mut text = String::new(alloc);
    for n in 0..255u32 {
        if n > 0 {
            text.push_str(",")?;
        }
        text.push_str(&format!(in alloc; "c{n}:int")?)?;
    }
    assert_eq!(rt; parse_schema(alloc, &text)?.columns().len(), 255);
    text.push_str(",")?;
    assert!(rt; is_refused(alloc, &text, 256, SchemaKind::TooMany));
    Ok(())
}

#[test]
fn fields(rt: HostRuntime) {
    for (field, ty, want) in [
        (b"128".as_slice(), ColType::Byte, FieldAnswer::OutOfRange),
        (b"-128", ColType::Byte, FieldAnswer::Value(-128)),
        (b" 2\t", ColType::Int, FieldAnswer::Value(2)),
        (b"+007", ColType::UByte, FieldAnswer::Value(7)),
        (b"-0", ColType::UByte, FieldAnswer::Value(0)),
        (b"-1", ColType::ULong, FieldAnswer::OutOfRange),
        (
            b"18446744073709551615",
            ColType::ULong,
            FieldAnswer::Value(18446744073709551615),
        ),
        (
            b"18446744073709551616",
            ColType::ULong,
            FieldAnswer::OutOfRange,
        ),
        (
            b"-9223372036854775808",
            ColType::Long,
            FieldAnswer::Value(-9223372036854775808),
        ),
        (
            b"-9223372036854775809",
            ColType::Long,
            FieldAnswer::OutOfRange,
        ),
        (
            b"0000000000000000000000000000000000000000000000000000000000000003",
            ColType::Short,
            FieldAnswer::Value(3),
        ),
        (
            b"340282366920938463463374607431768211457",
            ColType::Int,
            FieldAnswer::OutOfRange,
        ),
        (b" \t ", ColType::Int, FieldAnswer::Null),
        (b"", ColType::UInt, FieldAnswer::Null),
        (b"-", ColType::Int, FieldAnswer::NotWhole),
        (b"+-1", ColType::Int, FieldAnswer::NotWhole),
        (b"1 2", ColType::Int, FieldAnswer::NotWhole),
        (b"1.0", ColType::UShort, FieldAnswer::NotWhole),
        (b"\r1", ColType::UShort, FieldAnswer::NotWhole),
    ] {
        assert!(rt; ty.ends().is_some());
        assert_eq!(rt; parse_whole(field, ty), want, "at {field:?}");
    }
}

#[test]
fn tables(rt: HostRuntime) -> Result<(), Fail> {
    let alloc = rt.alloc();
    let mut columns = Columns::make(alloc, &parse_schema(alloc, "A:int,b:category")?)?;
    assert_eq!(rt; columns.rows(), 0);
    push(
        &rt,
        &mut columns,
        vec![in alloc; Cell::Whole(1), word(alloc, b"x")?]?,
    )?;
    push(&rt, &mut columns, vec![in alloc; Cell::Null, Cell::Null]?)?;
    push(
        &rt,
        &mut columns,
        vec![in alloc; Cell::Whole(-2147483648), word(alloc, b"a,b")?]?,
    )?;
    assert_eq!(rt; columns.rows(), 3);
    for (row, whole, word) in [
        (0, Some(1), Some(b"x".as_slice())),
        (1, None, None),
        (2, Some(-2147483648), Some(b"a,b")),
    ] {
        assert!(rt; is_row(&columns, row, whole, word), "at {row}");
    }
    Ok(())
}

fn is_row(columns: &Columns, row: u64, whole: Option<i128>, word: Option<&[u8]>) -> bool {
    let types = columns.schema().columns();
    row < columns.rows()
        && types.len() == 2
        && types[0].ty.ends().is_some()
        && types[1].ty.ends().is_none()
        && columns.whole(row, 0) == whole
        && columns.word(row, 1) == word
}

fn word(alloc: Global, bytes: &[u8]) -> Result<Cell, Fail> {
    Ok(Cell::Word(Label::from_bytes(alloc, bytes)?))
}

fn push(rt: &impl Abort, columns: &mut Columns, cells: Vec<Cell>) -> Result<(), Fail> {
    assert!(rt; record_fits(&cells, columns.schema().columns()));
    columns.push(cells)?;
    Ok(())
}
