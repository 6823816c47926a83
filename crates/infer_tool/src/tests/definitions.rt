//! One text that has each property of the program which the page of definitions shows, and one that has not, told by the
//! call whose contract names the property.
use super::{JPEG, output_over, words_of};
use crate::lines::run_lines;
use crate::run::{asks, run_watched};
use crate::sample::run_sample;
use infer::Watched;
use infer_lines::{Outcome, WatchedWriter, limit_of};
use std::test::Fail;
use test_streams::PieceWriter;

// Each line below stands on the page too: the property, the call, a text that has it and one that has not. A word is a
// limit if its number is told.
macro_rules! limits {
    ($name:literal $call:path, $has:expr, $lacks:expr;) => {
        [($name, $call($has).is_some(), $call($lacks).is_some())]
    };
}

// Words ask for an option if that is told of them.
macro_rules! asking {
    ($rt:expr, $option:expr; $name:literal $call:path, $has:expr, $lacks:expr;) => {
        [(
            $name,
            $call(words_of($rt, $has)?.as_slice(), $option),
            $call(words_of($rt, $lacks)?.as_slice(), $option),
        )]
    };
}

// A row with the extension has a sample if that is written.
macro_rules! samples {
    ($output:expr; $name:literal $call:path, $has:expr, $lacks:expr;) => {
        [(
            $name,
            matches!($call($has, $output), Outcome::Known),
            matches!($call($lacks, $output), Outcome::Known),
        )]
    };
}

// What a run over an image writes is the one text and not the other: the faults, or the lines if there are none.
macro_rules! writing {
    ($rt:expr; $($words:expr =>
        $name:literal $call:path, $has:expr, $lacks:expr;)*) => {
        [$({
            let (words, input) = (words_of($rt, $words)?, &mut Watched::new(JPEG.as_slice()));
            let (out, err) = (Vec::new($rt.alloc()), Vec::new($rt.alloc()));
            let (_, (out, err)) = $call($rt, $rt.alloc(), words.as_slice(), input, 0, out, err)?;
            let (out, err) = (out.ok_or("failed")?, err.ok_or("failed")?);
            let text = if err.is_empty() { out.as_slice() } else { err.as_slice() };
            ($name, text == $has.as_slice(), text == $lacks.as_slice())
        }),*]
    };
}

// What a run over the bytes "abcdef" through watched writers tells, or leaves of them, is the one text and not the other.
macro_rules! watching {
    ($rt:expr; $($words:expr, $part:ident =>
        $name:literal $call:path, $has:expr, $lacks:expr;)*) => {
        [$({
            let (words, mut input) = (words_of($rt, $words)?, Watched::new(b"abcdef".as_slice()));
            let (mut out, mut err) = (PieceWriter::new(512), PieceWriter::new(512));
            let output = &mut output_over(&mut out, &mut err);
            let _ = $call($rt, $rt.alloc(), words.as_slice(), &mut input, output);
            let after = After {
                lines: out.taken(),
                faults: err.taken(),
                left: input.into_inner(),
            };
            ($name, after.$part == $has.as_slice(), after.$part == $lacks.as_slice())
        }),*]
    };
}

// The status of an outcome is the one number and not the other.
macro_rules! statuses {
    ($($outcome:ident($($with:expr)?) =>
        $name:literal $call:ident, $has:expr, $lacks:expr;)*) => {
        [$({
            let status = Outcome::$outcome.$call($($with)?) as u8;
            ($name, *$has == [status], *$lacks == [status])
        }),*]
    };
}

// Whether a writer had failed is, after each of two writes of which the first fails, as the one says and not the other.
macro_rules! failing {
    ($name:literal $call:ident, $has:expr, $lacks:expr;) => {{
        let mut out = PieceWriter::failing(512, 0);
        let mut lines = WatchedWriter::new(&mut out);
        let mut had_failed = [false; 2];
        for each in &mut had_failed {
            lines.$call(b"line");
            *each = lines.has_failed();
        }
        [($name, had_failed == *$has, had_failed == *$lacks)]
    }};
}

/// What a run wrote, and what it left of its input.
#[derive(Drop)]
struct After<'a> {
    lines: &'a [u8],
    faults: &'a [u8],
    left: &'a [u8],
}

#[test]
fn words(rt: HostRuntime) -> Result<(), Fail> {
    let (mut out, mut err) = (PieceWriter::new(512), PieceWriter::new(512));
    let output = &mut output_over(&mut out, &mut err);
    let limit = limits! {
        "IsLimit" limit_of, "65536", "+1";
    };
    let option = asking! {
        &rt, "--sample";
        "Asks" asks, &["--sample", "png"], &["png", "--sample"];
    };
    let sample = samples! {
        output;
        "HasSample" run_sample, "png", "dll";
    };
    for told in [limit, option, sample] {
        for (name, has, lacks) in told {
            assert!(rt; has && !lacks, "{name}");
        }
    }
    Ok(())
}

#[test]
fn written(rt: HostRuntime) -> Result<(), Fail> {
    let told = writing! {
        &rt;
        &["--sample", "png"] =>
        "Runs WritesSample" run_lines, b"\x89PNG", b"\x89PNG\n";
        &[] =>
        "ReportsReader" run_lines, b"-: image/jpeg jpg\n", b"-: image/png png\n";
        &["none"] =>
        "Runs ReportsEach" run_lines, b"none: cannot open\n", b"one: cannot open\n";
        &["--sample"] =>
        "Refuses usage_line" run_lines, b"usage: infer_tool [--front N] [PATH ..] or --sample EXT\n", b"usage: infer_tool\n";
        &["--front", "+1"] =>
        "Refuses limits_line" run_lines, b"front must be 1 to 65536\n", b"front must be 1 to 65536";
        &["--sample", "dll"] =>
        "Refuses no_sample_line" run_lines, b"dll: no sample\n", b"dll: no sample";
        &[] =>
        "SaysThrough" run_lines, b"-: image/jpeg jpg\n", b"-: image/jpeg jpg";
    };
    for (name, has, lacks) in told {
        assert!(rt; has && !lacks, "{name}");
    }
    Ok(())
}

#[test]
fn watched(rt: HostRuntime) -> Result<(), Fail> {
    let told = watching! {
        &rt;
        &[], lines =>
        "Says" run_watched, b"-: unknown\n", b"-: unknown";
        &["--sample", "dll"], faults =>
        "RefusesBy Tells" run_watched, b"dll: no sample\n", b"dll: no sample";
        &["--front", "4"], left =>
        "Runs LosesFront" run_watched, b"ef", b"f";
        &[], left =>
        "Runs LosesUntilFinal" run_watched, b"", b"f";
    };
    for (name, has, lacks) in told {
        assert!(rt; has && !lacks, "{name}");
    }
    Ok(())
}

#[test]
fn failed(rt: HostRuntime) -> Result<(), Fail> {
    let told = failing! {
        "IsLater" write_all, &[true, true], &[true, false];
    };
    for (name, has, lacks) in told {
        assert!(rt; has && !lacks, "{name}");
    }
    Ok(())
}

#[test]
fn outcomes(rt: HostRuntime) -> Result<(), Fail> {
    let told = statuses! {
        Failed() =>
        "status_of" status, &[2], &[1];
        Known(Outcome::Unknown) =>
        "worse_of" worse, &[1], &[0];
        Known(true) =>
        "outcome_after" failed_if, &[2], &[0];
    };
    for (name, has, lacks) in told {
        assert!(rt; has && !lacks, "{name}");
    }
    Ok(())
}
