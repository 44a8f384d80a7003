//! The lines of a script, the settings that they change, and settings files.

use dev_settings::{
    Change, Command, Format, LineFault, MAX_LINE_BYTES, MatrixChoice, Settings, line_text,
    split_line,
};
use malvar::Kind;
use std::alloc::{AllocError, Global};
use std::test::Fail;
use tone_table::{Curve, Knots};

const EMPTY_KNOTS: &str = "set tone knots";

const SIXTEEN_KNOTS: &str =
    "set tone knots 0 0 1 0 2 0 3 0 4 0 5 0 6 0 7 0 8 0 9 0 10 0 11 0 12 0 13 0 14 0 65535 0";

const SEVENTEEN_KNOTS: &str =
    "set tone knots 0 0 1 0 2 0 3 0 4 0 5 0 6 0 7 0 8 0 9 0 10 0 11 0 12 0 13 0 14 0 15 0 65535 0";

fn region(x: u32, y: u32, w: u32, h: u32, format: Format) -> Command {
    Command::Region { x, y, w, h, format }
}

#[test]
fn reads_regions(rt: HostRuntime) {
    for (line, want) in [
        ("region 4 4 3 1 ppm", region(4, 4, 3, 1, Format::Ppm)),
        ("region 0 0 1 1 tiff", region(0, 0, 1, 1, Format::Tiff)),
        ("  region   5 6  1 2 ppm ", region(5, 6, 1, 2, Format::Ppm)),
        (
            "region 0000000005 5 1 1 tiff",
            region(5, 5, 1, 1, Format::Tiff),
        ),
        (
            "region 4294967295 0 1 4294967295 ppm",
            region(4_294_967_295, 0, 1, 4_294_967_295, Format::Ppm),
        ),
        ("stat", Command::Stat),
        (" stat ", Command::Stat),
    ] {
        assert_eq!(rt; Command::read(line.as_bytes()), Ok(want), "{line:?}");
    }
}

#[test]
fn reads_changes(rt: HostRuntime) {
    for (line, want) in [
        ("set black frame", Change::Black(None)),
        ("set black 0", Change::Black(Some(0))),
        (" set  black 0000065535 ", Change::Black(Some(65535))),
        ("set white frame", Change::White(None)),
        ("set white 1", Change::White(Some(1))),
        ("set white 65535", Change::White(Some(65535))),
        ("set demosaic malvar", Change::Demosaic(Kind::Malvar)),
        ("set demosaic bilinear", Change::Demosaic(Kind::Bilinear)),
        ("set wb shot", Change::Wb(None)),
        (
            "set wb 1 1048576 4096",
            Change::Wb(Some([1, 1_048_576, 4096])),
        ),
        ("set exposure 0", Change::Exposure(0)),
        ("set exposure 65536", Change::Exposure(65536)),
    ] {
        assert_eq!(rt;
            Command::read(line.as_bytes()),
            Ok(Command::Set(want)),
            "{line:?}"
        );
    }
}

#[test]
fn reads_matrices(rt: HostRuntime) {
    let own = [-16_777_216, 16_777_216, 0, 0, 5, -7, 1, 2, 3];
    for (line, want) in [
        ("set matrix auto", MatrixChoice::Auto),
        ("set matrix camera", MatrixChoice::Camera),
        ("set matrix forward1", MatrixChoice::Forward1),
        ("set matrix forward2", MatrixChoice::Forward2),
        (
            "set matrix -16777216 16777216 0 -0 5 -7 1 2 3",
            MatrixChoice::Own(own),
        ),
    ] {
        let want = Ok(Command::Set(Change::Matrix(want)));
        assert_eq!(rt; Command::read(line.as_bytes()), want, "{line:?}");
    }
}

fn curve_of(line: &str) -> Option<Curve> {
    match Command::read(line.as_bytes()) {
        Ok(Command::Set(Change::Tone(curve))) => Some(curve),
        _ => None,
    }
}

#[test]
fn reads_curves(rt: HostRuntime) -> Result<(), Fail> {
    assert_eq!(rt; curve_of("set tone linear"), Some(Curve::Linear));
    assert_eq!(rt; curve_of("set tone root"), Some(Curve::Root));
    let knots = Knots::new(&[(0, 9), (65535, 65535)]).ok_or("knots")?;
    let want = Some(Curve::Knots(knots));
    assert_eq!(rt; curve_of("set tone knots 0 9 65535 65535"), want);
    assert!(rt; curve_of(SIXTEEN_KNOTS).is_some());
    Ok(())
}

#[test]
fn refuses_words_and_keys(rt: HostRuntime) {
    for (line, want) in [
        ("", LineFault::Word),
        ("  ", LineFault::Word),
        ("Region 0 0 1 1 ppm", LineFault::Word),
        ("region\t5 5 1 1 ppm", LineFault::Word),
        ("region 0 0 1 1", LineFault::Word),
        ("region x 0 1 1 ppm ppm", LineFault::Word),
        ("stat 1", LineFault::Word),
        ("set", LineFault::Word),
        ("sets black 1", LineFault::Word),
        ("set hue", LineFault::Key),
        ("set hue 1", LineFault::Key),
        ("set Black 1", LineFault::Key),
        ("set version 1", LineFault::Key),
        ("region 4294967296 0 1 1 ppm", LineFault::Region),
        ("region 00000000005 5 1 1 ppm", LineFault::Region),
        ("region +1 0 1 1 ppm", LineFault::Region),
        ("region -0 0 1 1 ppm", LineFault::Region),
        ("region 0 0 0 1 ppm", LineFault::Region),
        ("region 0 0 1 0 ppm", LineFault::Region),
        ("region 0 0 1 1 png", LineFault::Region),
        ("region 0 0 1 1 TIFF", LineFault::Region),
        ("region 0 0 1 1 tif", LineFault::Region),
        ("region 0 0 1 1 tiffs", LineFault::Region),
        ("region 5 5 1 1 ppm\r", LineFault::Region),
    ] {
        assert_eq!(rt; Command::read(line.as_bytes()), Err(want), "{line:?}");
    }
}

#[test]
fn refuses_values(rt: HostRuntime) {
    for line in [
        "set black",
        "set black 65536",
        "set black 00000000001",
        "set black -0",
        "set black 4294967296",
        "set black 1 2",
        "set black shot",
        "set white 0",
        "set white 65536",
        "set white",
        "set white 1 1",
        "set demosaic linear",
        "set demosaic malvar malvar",
        "set demosaic",
        "set wb 0 1 1",
        "set wb 1 1048577 1",
        "set wb 1 1",
        "set wb 1 1 1 1",
        "set wb 1",
        "set exposure 65537",
        "set exposure -1",
        "set exposure x",
        "set exposure",
        "set matrix own",
        "set matrix 1 2 3 4 5 6 7 8",
        "set matrix 1 2 3 4 5 6 7 8 9 10",
        "set matrix 16777217 2 3 4 5 6 7 8 9",
        "set matrix 1 2 3 4 5 6 7 8 -16777217",
        "set matrix 1 2 3 4 5 6 7 8 --9",
        "set matrix 1 2 3 4 5 6 7 8 -",
    ] {
        assert_eq!(rt;
            Command::read(line.as_bytes()),
            Err(LineFault::Value),
            "{line:?}"
        );
    }
}

#[test]
fn refuses_curves(rt: HostRuntime) {
    for line in [
        "set tone",
        "set tone gamma",
        "set tone linear 1",
        "set tone 0 0 65535 9",
        EMPTY_KNOTS,
        "set tone knots 0 0",
        "set tone knots 0 0 65535",
        "set tone knots 0 0 65535 65536",
        "set tone knots 0 0 65535 -0",
        "set tone knots 0 0 0 5 65535 9",
        "set tone knots 1 0 65535 9",
        "set tone knots 0 65536 65535 9",
        "set tone knots 0 0 65534 9",
        SEVENTEEN_KNOTS,
    ] {
        assert_eq!(rt;
            Command::read(line.as_bytes()),
            Err(LineFault::Value),
            "{line:?}"
        );
    }
}

#[test]
fn changes_one_setting(rt: HostRuntime) {
    let mut settings = Settings::standard();
    settings.apply(&Change::White(Some(4095)));
    settings.apply(&Change::Exposure(2048));
    settings.apply(&Change::White(None));
    settings.apply(&Change::Wb(Some([1, 2, 3])));
    let want = Settings {
        exposure: 2048,
        wb: Some([1, 2, 3]),
        ..Settings::standard()
    };
    assert_eq!(rt; settings, want);
}

#[test]
fn takes_the_text_of_a_line(rt: HostRuntime) {
    for (line, want) in [
        ("a\r", "a"),
        ("a", "a"),
        ("\r\r", "\r"),
        ("\r", ""),
        ("", ""),
    ] {
        assert_eq!(rt;
            line_text(line.as_bytes()),
            Some(want.as_bytes()),
            "{line:?}"
        );
    }
    let line = [b' '; MAX_LINE_BYTES + 1];
    assert_eq!(rt; line_text(&line[..4096]).map(|text| text.len()), Some(4096));
    assert_eq!(rt; line_text(&line), None);
}

#[test]
fn splits_lines(rt: HostRuntime) {
    for (script, line, rest) in [
        ("\n", "", ""),
        ("a\n\nb", "a", "\nb"),
        ("a b\r\nc", "a b\r", "c"),
    ] {
        let want = Some((line.as_bytes(), rest.as_bytes()));
        assert_eq!(rt; split_line(script.as_bytes()), want, "{script:?}");
    }
    for script in ["", "a", "a\r"] {
        assert_eq!(rt; split_line(script.as_bytes()), None, "{script:?}");
    }
}

/// The least value of each key.
const LEAST: &str = "\
black = 0
white = 1
demosaic = 'bilinear'
wb = [1, 1, 1]
exposure = 0
matrix = [-16777216, 0, 0, 0, 0, 0, 0, 0, 0]
tone = [0, 0, 65535, 0]
version = 1
";

/// The greatest value of each key.
const GREATEST: &str = "\
black = 65535
white = 65535
demosaic = 'malvar'
wb = [1048576, 1048576, 1048576]
exposure = 65536
matrix = [0, 0, 0, 0, 16777216, 0, 0, 0, 1]
tone = 'root'
";

/// Each key whose value may be a name, with the name that stands where nothing is set.
const NAMES: &str = "\
black = 'frame'
white = 'frame'
demosaic = 'malvar'
wb = 'shot'
matrix = 'auto'
tone = 'linear'
";

fn reads_as(alloc: Global, file: &str, want: &Settings) -> bool {
    Settings::from_toml(alloc, file.as_bytes()) == Ok(*want)
}

#[test]
fn reads_the_least(rt: HostRuntime) -> Result<(), Fail> {
    let least = Settings {
        version: 1,
        black: Some(0),
        white: Some(1),
        demosaic: Kind::Bilinear,
        wb: Some([1, 1, 1]),
        exposure: 0,
        matrix: MatrixChoice::Own([-16_777_216, 0, 0, 0, 0, 0, 0, 0, 0]),
        tone: Curve::Knots(Knots::new(&[(0, 0), (65535, 0)]).ok_or("knots")?),
    };
    assert!(rt; reads_as(rt.alloc(), LEAST, &least));
    Ok(())
}

#[test]
fn reads_the_greatest(rt: HostRuntime) {
    let greatest = Settings {
        version: 1,
        black: Some(65535),
        white: Some(65535),
        demosaic: Kind::Malvar,
        wb: Some([1_048_576, 1_048_576, 1_048_576]),
        exposure: 65536,
        matrix: MatrixChoice::Own([0, 0, 0, 0, 16_777_216, 0, 0, 0, 1]),
        tone: Curve::Root,
    };
    assert!(rt; reads_as(rt.alloc(), GREATEST, &greatest));
}

#[test]
fn reads_the_standard(rt: HostRuntime) {
    for file in ["", "# nothing\r\n", "version = 1", NAMES] {
        assert!(rt; reads_as(rt.alloc(), file, &Settings::standard()), "{file}");
    }
}

#[test]
fn reads_named_matrices(rt: HostRuntime) {
    for (file, want) in [
        ("matrix = 'camera'", MatrixChoice::Camera),
        ("matrix = 'forward1'", MatrixChoice::Forward1),
        ("matrix = 'forward2'", MatrixChoice::Forward2),
    ] {
        let want = Settings {
            matrix: want,
            ..Settings::standard()
        };
        assert!(rt; reads_as(rt.alloc(), file, &want), "{file}");
    }
}

fn refusal(alloc: Global, file: &[u8]) -> Result<String, AllocError> {
    match Settings::from_toml(alloc, file) {
        Ok(_) => String::from_str(alloc, "accepted"),
        Err(fault) => format!(in alloc; "{fault}"),
    }
}

#[test]
fn refuses_files(rt: HostRuntime) -> Result<(), AllocError> {
    for (file, want) in [
        ("x =", "not a TOML document"),
        ("tone = 'root'\ntone = 'root'", "not a TOML document"),
        ("tint = 1", "an unknown key: tint"),
        ("zeta = 1\nalpha = 2\nversion = 2", "an unknown key: alpha"),
        ("black.x = 1\nhue.y = 2", "an unknown key: hue"),
        ("version = 2", "a wrong value: version"),
        ("version = '1'", "a wrong value: version"),
        ("tone = 'gamma'\nversion = 2", "a wrong value: version"),
        ("tone = 'gamma'", "a wrong value: tone"),
        ("tone = [0, 7, 65535]", "a wrong value: tone"),
        ("tone = [0, 7]", "a wrong value: tone"),
        ("tone = [0, 65536, 65535, 0]", "a wrong value: tone"),
        ("tone = [[0, 7], [65535, 9]]", "a wrong value: tone"),
        ("tone = 'knots 0 0 65535 9'", "a wrong value: tone"),
        ("tone = 'gamma'\nmatrix = 'own'", "a wrong value: matrix"),
        ("[black]", "a wrong value: black"),
        ("black = true", "a wrong value: black"),
        ("black = 65536", "a wrong value: black"),
        ("black = -1", "a wrong value: black"),
        ("white = 0", "a wrong value: white"),
        ("white = 65536", "a wrong value: white"),
        ("demosaic = 1", "a wrong value: demosaic"),
        ("demosaic = 'linear'", "a wrong value: demosaic"),
        ("wb = [1, 1]", "a wrong value: wb"),
        ("wb = [1, 0, 1]", "a wrong value: wb"),
        ("wb = [1, 1, 1048577]", "a wrong value: wb"),
        ("wb = '1 1 1'", "a wrong value: wb"),
        ("matrix = [1, 2, 3, 4, 5, 6, 7, 8]", "a wrong value: matrix"),
        (
            "matrix = [0, 0, 0, 0, 0, 0, 0, 0, 16777217]",
            "a wrong value: matrix",
        ),
        (
            "matrix = [-16777217, 0, 0, 0, 0, 0, 0, 0, 0]",
            "a wrong value: matrix",
        ),
        ("exposure = 65537", "a wrong value: exposure"),
        ("exposure = 1.0", "a wrong value: exposure"),
        ("exposure = -1", "a wrong value: exposure"),
        ("exposure = 65536", "accepted"),
    ] {
        let text = refusal(rt.alloc(), file.as_bytes())?;
        assert!(rt; text.as_str() == want, "{file}");
    }
    let text = refusal(rt.alloc(), b"# \xff")?;
    assert!(rt; text.as_str() == "not a TOML document");
    Ok(())
}
