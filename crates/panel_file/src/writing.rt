//! One record written into a lent file.

ghost use Rattle.std.specs.Prelude.{◌≡◌, ◌+◌, ◌*◌, ◌≤◌, length};
ghost use Rattle.stream.specs.Stream.{put};
ghost use Rattle.panel_file.specs.Bytes.{u16_bytes, f32_bytes, point_bytes, points_bytes};
ghost use Rattle.panel_file.specs.Panel.{payload_of, kind_of_record, points_of};
ghost use Rattle.panel_file.specs.Writing.{record_bytes, end_of, next_of, file_of, RecordReadsBack, OthersStay, FileReadsBack};

use crate::{HEADER, LIMIT, Record};
use geometry::Point;
use std::num::f32_to_bits_with_nan;

fn put_u16(file: &mut [u8], at: usize, n: u16)
    requires { at + 2 ≤ length file.old }
    ensures { file.new ≡ put file.old at (u16_bytes n) }
{
    file[at..at + 2].copy_from_slice(&n.to_le_bytes());
}

fn put_f32(file: &mut [u8], at: usize, x: f32)
    requires { at + 4 ≤ length file.old }
    ensures { file.new ≡ put file.old at (f32_bytes x) }
{
    file[at..at + 4].copy_from_slice(&f32_to_bits_with_nan(x).to_le_bytes());
}

fn put_point(file: &mut [u8], at: usize, p: Point)
    requires { at + 8 ≤ length file.old }
    ensures { file.new ≡ put file.old at (point_bytes p) }
{
    put_f32(file, at, p.x);
    put_f32(file, at + 4, p.y);
}

fn put_points(file: &mut [u8], at: usize, points: &[Point])
    requires { at + 8 * length points.now ≤ length file.old }
    ensures { file.new ≡ put file.old at (points_bytes points.now) }
{
    let mut next = at;
    for p in points {
        put_point(file, next, *p);
        next += 8;
    }
}

// The offset behind a record, where it ends within the file and within the longest.
#[tactic(auto, unfolding(crate::specs::Writing::next_of))]
fn end_within(file: &[u8], at: usize, record: Record) -> Option<usize>
    ensures { result ≡ next_of file.now at «record» }
{
    let most = file.len().min(LIMIT);
    let size = HEADER + record.kind().payload();
    if most < size {
        return None;
    }
    if most - size < at {
        return None;
    }
    Some(at + size)
}

#[tactic(auto, unfolding(crate::specs::Panel::payload_of, crate::specs::Panel::kind_of_record))]
fn put_payload(file: &mut [u8], at: usize, record: Record)
    requires { at + payload_of (kind_of_record «record») ≤ length file.old }
    ensures { file.new ≡ put file.old at (points_bytes (points_of «record»)) }
{
    match record {
        Record::Button(b) => put_points(file, at, &b.points()),
        Record::Touch(p) => put_points(file, at, &[p]),
    }
}

// A record's bytes, for which there is room.
fn put(file: &mut [u8], at: usize, record: Record)
    requires { end_of at «record» ≤ length file.old }
    ensures { file.new ≡ put file.old at (record_bytes «record») }
{
    let kind = record.kind();
    put_u16(file, at, kind.payload() as u16);
    put_u16(file, at + 2, kind.number());
    put_payload(file, at + HEADER, record);
}

/// Writes a record at an offset of the file, and answers the offset behind it. Where the record does not end within
/// the file, and within the longest file, there is none, and nothing is written.
pub fn put_record(file: &mut [u8], at: usize, record: Record) -> Option<usize>
    ensures next { result ≡ next_of file.old at «record» }
    ensures bytes { file.new ≡ file_of file.old at «record» }
{
    let Some(next) = end_within(file, at, record) else {
        return None;
    };
    put(file, at, record);
    Some(next)
}

/// What is written is read back, and nothing else changes.
pub fn written_records_read_back()
    ensures written { RecordReadsBack }
    ensures others { OthersStay }
    ensures file { FileReadsBack }
{}
