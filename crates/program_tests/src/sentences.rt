//! What the faults of all crates say to people.

use dev_settings::{LineFault, SettingsFault};
use dev_stages::PlanFault;
use developer::AnswerFault;
use dng_tags::{FrameFault, SegmentFault};
use linearise::LineariseFault;
use ljpeg_huffman::{BitFault, TableFault};
use ljpeg_predict::{EncodeFault, JpegFault};
use opcode_list::OpcodeFault;
use plane_view::Shape;
use raw_io::{Failed, ReadFault, WriteFault};
use region_session::{OpenFault, ShapeChanged};
use std::alloc::{AllocError, Global};
use std::fmt::Display;
use std::test::Fail;
use strip_unpack::Short;
use tiff_dirs::{EntryFault, TiffFault};

/// Whether a fault says this.
fn says<D: Display + Drop>(alloc: Global, fault: &D, want: &str) -> Result<bool, AllocError> {
    Ok(format!(in alloc; "{fault}")?.as_str() == want)
}

#[test]
fn faults_of_files(rt: HostRuntime) -> Result<(), Fail> {
    let alloc = rt.alloc();
    let none = "the directory at 9 doesn't lie in the file";
    assert!(rt; says(alloc, &TiffFault::BadDirectory { at: 9 }, none)?);
    let float = "the entry of tag 256 has floating point numbers";
    assert!(rt; says(alloc, &EntryFault::FloatTag { tag: 256 }, float)?);
    Ok(())
}

#[test]
fn faults_of_frames(rt: HostRuntime) -> Result<(), Fail> {
    let alloc = rt.alloc();
    let short = Short {
        needed: 32,
        had: 31,
    };
    assert!(rt; says(alloc, &short, "the samples take 32 bytes, and there are 31")?);
    let why = SegmentFault::Short(short);
    assert!(rt; says(alloc, &why, "the samples take 32 bytes, and there are 31")?);
    let segment = FrameFault::Segment { segment: 2, why };
    let want = "segment 2: the samples take 32 bytes, and there are 31";
    assert!(rt; says(alloc, &segment, want)?);
    let opcodes = FrameFault::Opcode {
        list: 3,
        fault: OpcodeFault::TooMany,
    };
    let want = "opcode list 3: the list has more than 16 opcodes";
    assert!(rt; says(alloc, &opcodes, want)?);
    assert!(rt; says(alloc, &FrameFault::Memory, "out of memory")?);
    Ok(())
}

#[test]
fn faults_of_streams(rt: HostRuntime) -> Result<(), Fail> {
    let alloc = rt.alloc();
    let size = "another number of samples than was wanted: 5";
    assert!(rt; says(alloc, &JpegFault::Size { has: 5 }, size)?);
    let ended = "the data ended within a difference";
    assert!(rt; says(alloc, &BitFault::Ended, ended)?);
    let category = "category 17, which is not from 0 to 16";
    assert!(rt; says(alloc, &TableFault::Category { value: 17 }, category)?);
    assert!(rt; says(alloc, &EncodeFault::Memory, "out of memory")?);
    Ok(())
}

#[test]
fn faults_of_stages(rt: HostRuntime) -> Result<(), Fail> {
    let alloc = rt.alloc();
    let matrix = "the frame doesn't have the forward matrix that is asked for";
    assert!(rt; says(alloc, &PlanFault::Matrix, matrix)?);
    let levels = "the white level isn't above every black level";
    assert!(rt; says(alloc, &LineariseFault::Levels, levels)?);
    Ok(())
}

#[test]
fn faults_of_sessions(rt: HostRuntime) -> Result<(), Fail> {
    let alloc = rt.alloc();
    let shape = "stage 5 refuses the shape of the plane below it";
    assert!(rt; says(alloc, &OpenFault::Shape { stage: 5 }, shape)?);
    let had = Shape {
        rows: 40,
        cols: 48,
        planes: 1,
    };
    let refused = ShapeChanged { had, got: None };
    assert!(rt; says(alloc, &refused, "the new stage refuses the plane below it")?);
    Ok(())
}

#[test]
fn faults_of_reads_and_writes(rt: HostRuntime) -> Result<(), Fail> {
    let alloc = rt.alloc();
    assert!(rt; says(alloc, &Failed, "a read or a write failed")?);
    assert!(rt;
        says(
            alloc,
            &ReadFault::TooLong,
            "more bytes than the limit allows"
        )?
    );
    let write = WriteFault { written: 7 };
    assert!(rt; says(alloc, &write, "a write failed after 7 bytes")?);
    assert!(rt; says(alloc, &AnswerFault::Write(write), "a write failed")?);
    Ok(())
}

#[test]
fn faults_of_lines_and_settings(rt: HostRuntime) -> Result<(), Fail> {
    let alloc = rt.alloc();
    let words = "no command, or too few or too many words";
    assert!(rt; says(alloc, &LineFault::Word, words)?);
    let name = String::from_str(alloc, "tint")?;
    assert!(rt; says(alloc, &SettingsFault::Key { name }, "an unknown key: tint")?);
    Ok(())
}
