use crate::{Binning, Coarse, EncodingSpec, SpecFault, SpecKind, parse_spec, print_spec};
use std::alloc::{AllocError, Global};
use std::test::Fail;

/// The printed form of what the text says, or the refusal.
fn reprinted(alloc: Global, text: &str) -> Result<Vec<u8>, SpecFault> {
    let spec = parse_spec(alloc, text)?;
    let copy = spec.copy(alloc)?;
    Ok(print_spec(alloc, &copy)?)
}

fn kind(alloc: Global, text: &str) -> Option<SpecKind> {
    match parse_spec(alloc, text) {
        Err(SpecFault::Bad { kind }) => Some(kind),
        _ => None,
    }
}

fn repeated(
    alloc: Global,
    start: &str,
    middle: &str,
    count: u32,
    end: &str,
) -> Result<String, AllocError> {
    let mut text = String::from_str(alloc, start)?;
    for _ in 0..count {
        text.push_str(middle)?;
    }
    text.push_str(end)?;
    Ok(text)
}

#[test]
fn prints_one_form(rt: HostRuntime) -> Result<(), Fail> {
    for (text, want) in [
        (
            "<binning nbins=3/>",
            "<binning nbins=3/><encoding equality/>",
        ),
        ("", "<binning none/><encoding equality/>"),
        (" \t\r\n", "<binning none/><encoding equality/>"),
        ("<encoding range/>", "<binning none/><encoding range/>"),
        (
            "<binning bounds=(4,8)/><encoding range/>",
            "<binning bounds=(4,8)/><encoding range/>",
        ),
        (
            " < binning\tbounds = ( -4 , 08 ) / >\n<encoding interval/> ",
            "<binning bounds=(-4,8)/><encoding interval/>",
        ),
        (
            "<binning nbins=3start=-0 end=10/>",
            "<binning start=0 end=10 nbins=3/><encoding equality/>",
        ),
        (
            "<binning end=18446744073709551615 nbins=100000 start=-9223372036854775808/>",
            "<binning start=-9223372036854775808 end=18446744073709551615 nbins=100000/><encoding equality/>",
        ),
        (
            "<binning precision=18/><encoding ncoarse=7 two-level coarse=interval/>",
            "<binning precision=18/><encoding two-level coarse=interval ncoarse=7/>",
        ),
        (
            "<binning none/><encoding coarse=equality ncoarse=1 two-level/>",
            "<binning none/><encoding two-level coarse=equality ncoarse=1/>",
        ),
    ] {
        let printed = reprinted(rt.alloc(), text)?;
        assert!(rt; printed.as_slice() == want.as_bytes(), "{text}");
    }
    Ok(())
}

const NOT_FORMS: [&str; 24] = [
    "<binning odd/>",
    "<binning/>",
    "<binning none>",
    "<binning none/",
    "<encoding range/><binning none/>",
    "<binning none/><binning none/>",
    "<binning none/>x",
    "<Binning none/>",
    "<binning bounds=()/>",
    "<binning bounds=(1,)/>",
    "<binning bounds=(1 2)/>",
    "<binning bounds=4/>",
    "<binning nbins/>",
    "<binning nbins=/>",
    "<binning nbins=-/>",
    "<binning nbins=3-/>",
    "<binning nbins=none/>",
    "<binning none nbins=3/>",
    "<binning start=1 nbins=3/>",
    "<encoding two-level ncoarse=3/>",
    "<encoding two-level coarse=odd ncoarse=3/>",
    "<encoding two-level coarse=range coarse=none ncoarse=3/>",
    "<binning nbins=0 nbins/>",
    "<binning nbins=0/>é",
];

#[test]
fn refuses_with_the_first_cause(rt: HostRuntime) {
    for text in NOT_FORMS {
        assert!(rt; kind(rt.alloc(), text) == Some(SpecKind::Syntax), "{text}");
    }
    for (text, want) in [
        ("<binning none none/>", SpecKind::Repeated),
        ("<binning nbins=0 nbins=0/>", SpecKind::Repeated),
        ("<binning bounds=(2,1)bounds=(1)/>", SpecKind::Repeated),
        (
            "<binning nbins=18446744073709551616/><encoding range range/>",
            SpecKind::Repeated,
        ),
        ("<binning nbins=18446744073709551616/>", SpecKind::Number),
        ("<binning bounds=(-9223372036854775809)/>", SpecKind::Number),
        (
            "<binning nbins=0/><encoding two-level coarse=range ncoarse=99999999999999999999/>",
            SpecKind::Number,
        ),
        ("<binning nbins=0/>", SpecKind::Count),
        ("<binning nbins=-1/>", SpecKind::Count),
        ("<binning nbins=100001/>", SpecKind::Count),
        ("<binning precision=0/>", SpecKind::Count),
        ("<binning precision=19/>", SpecKind::Count),
        ("<binning start=5 end=5 nbins=2/>", SpecKind::Count),
        (
            "<binning bounds=(2,1)/><encoding two-level coarse=range ncoarse=0/>",
            SpecKind::Count,
        ),
        ("<binning bounds=(3,3)/>", SpecKind::Bounds),
        ("<binning bounds=(1,3,2)/>", SpecKind::Bounds),
    ] {
        assert!(rt; kind(rt.alloc(), text) == Some(want), "{text}");
    }
}

#[test]
fn answers_long_texts(rt: HostRuntime) -> Result<(), Fail> {
    let alloc = rt.alloc();
    for (start, middle, count, end, want) in [
        ("", "(", 131_072, "", Some(SpecKind::Syntax)),
        ("", "(", 131_073, "", Some(SpecKind::TooLong)),
        ("", " ", 131_072, "", None),
        (
            "<binning nbins=",
            "9",
            100_000,
            "/>",
            Some(SpecKind::Number),
        ),
        ("<binning nbins=", "0", 100_000, "7/>", None),
        ("<binning ", "none ", 20_000, "/>", Some(SpecKind::Repeated)),
        (
            "<binning bounds=(1",
            ",1",
            4_096,
            ")/>",
            Some(SpecKind::Bounds),
        ),
        (
            "<binning bounds=(",
            "1,",
            60_000,
            "1)/>",
            Some(SpecKind::Bounds),
        ),
        ("", "a", 131_072, "", Some(SpecKind::Syntax)),
        ("", "<", 131_072, "", Some(SpecKind::Syntax)),
    ] {
        let text = repeated(alloc, start, middle, count, end)?;
        assert!(rt; kind(alloc, text.as_str()) == want, "{start} {middle}");
    }
    Ok(())
}

/// A text with so many rising bounds, each of 20 bytes.
fn rising(alloc: Global, count: i32) -> Result<String, AllocError> {
    let mut text = String::from_str(alloc, "<binning bounds=(")?;
    for i in 0..count {
        let bound = i64::from(i) - 9_000_000_000_000_000_000;
        text.push_str(if i == 0 { "" } else { "," })?;
        text.push_str(bound.to_string(alloc)?.as_str())?;
    }
    text.push_str(")/>")?;
    Ok(text)
}

#[test]
fn takes_up_to_4096_bounds(rt: HostRuntime) -> Result<(), Fail> {
    let alloc = rt.alloc();
    let most = rising(alloc, 4096)?;
    assert!(rt; kind(alloc, most.as_str()) == None);
    let more = rising(alloc, 4097)?;
    assert!(rt; kind(alloc, more.as_str()) == Some(SpecKind::Bounds));
    let spec = parse_spec(alloc, most.as_str())?;
    match &spec.binning {
        Binning::Bounds(bounds) => assert!(rt; bounds.len() == 4096),
        _ => assert!(rt; false),
    }
    Ok(())
}

#[test]
fn counts_bitmaps(rt: HostRuntime) {
    let coarse = Coarse::Equality;
    let two_level = EncodingSpec::TwoLevel { coarse, ncoarse: 2 };
    for (encoding, bins, want) in [
        (EncodingSpec::Equality, 0, Some(0)),
        (EncodingSpec::Equality, 2000, Some(2000)),
        (EncodingSpec::Range, 0, Some(0)),
        (EncodingSpec::Range, 3, Some(2)),
        (EncodingSpec::Range, 1024, Some(1023)),
        (EncodingSpec::Range, 1025, None),
        (EncodingSpec::Interval, 3, Some(2)),
        (EncodingSpec::Interval, 4, Some(3)),
        (EncodingSpec::Interval, 1025, None),
        (two_level, 0, Some(0)),
        (two_level, 3, Some(5)),
    ] {
        assert!(rt; encoding.bitmap_count(bins) == want, "{encoding:?} {bins}");
    }
    let coarse = Coarse::Range;
    let wide = EncodingSpec::TwoLevel {
        coarse,
        ncoarse: 2000,
    };
    assert!(rt; wide.bitmap_count(1024) == Some(1024 + 1023));
    assert!(rt; wide.bitmap_count(1025) == None);
    assert!(rt; wide.bitmap_count(2001) == Some(2001 + 1000));
}
