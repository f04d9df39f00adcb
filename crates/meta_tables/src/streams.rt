//! The metadata root and its streams (ECMA-335 II.24.2.1 and II.24.2.2). `image` is the file up to
//! the end of its metadata, which begins at `at`.

ghost use Rattle.std.specs.Prelude.{◌≡◌, ◌≤◌, length, Some, IfOk};
ghost use Rattle.bound_base.specs.Image.{refusal};
ghost use Rattle.byte_view.specs.Reading.{Reads, WantsMemory};
ghost use Rattle.byte_view.specs.Streams.{root, stream_name, stream_at, with_stream, streams_after, streams};
ghost use Rattle.meta_tables.specs.View.{view_streams, view_stream, view_range, IsWithin, AreWithin};

use crate::fields::{bad, field16, field32, text_at};
use bound_base::{BadImage, Part};

/// A range of the file.
#[derive(Clone, Copy, Debug, PartialEq, Eq)]
pub struct Range {
    pub start: usize,
    pub end: usize,
}

/// The streams that are used, where they are there; `tables` is `#~`.
#[derive(Clone, Copy, Debug, PartialEq, Eq)]
pub struct Streams {
    pub tables: Option<Range>,
    pub strings: Option<Range>,
    pub user_strings: Option<Range>,
    pub guids: Option<Range>,
    pub blobs: Option<Range>,
}

/// A stream's name, its range, and where the next header begins.
#[derive(Clone, Copy, Debug)]
struct Stream<'a> {
    name: &'a [u8],
    range: Range,
    next: usize,
}

/// The number of streams, and where their headers begin.
#[tactic(auto, unfolding(byte_view::specs::Streams::root))]
fn root_of(image: &[u8], at: usize) -> Result<(u16, usize), BadImage>
    ensures reads { Reads refusal (λ x. (x.0, x.1)) result (root image.now at) }
    ensures memory { ¬ WantsMemory refusal result }
{
    let part = Part::MetadataRoot;
    let signature = field32(part, image, at)?;
    if signature != 0x424A_5342 {
        return Err(bad(part, at));
    }
    let length = field32(part, image, at + 12)?;
    let text_end = at + 16 + length as usize;
    if text_end > image.len() {
        return Err(bad(part, at + 12));
    }
    let count = field16(part, image, text_end + 2)?;
    Ok((count, text_end + 4))
}

/// A name, whole with its padding.
#[tactic(auto, unfolding(byte_view::specs::Streams::stream_name))]
fn name_of(image: &[u8], place: usize) -> Result<&[u8], BadImage>
    requires { place ≤ length image.now }
    ensures reads { Reads refusal (λ name. name.now) result (stream_name image.now place) }
    ensures memory { ¬ WantsMemory refusal result }
{
    let Some(name) = text_at(image, place) else {
        return Err(bad(Part::Streams, place));
    };
    let end = place + (name.len() / 4 + 1) * 4;
    if end > image.len() || name == b"#-".as_slice() {
        return Err(bad(Part::Streams, place));
    }
    Ok(name)
}

/// One stream header: the stream's offset in the metadata, its size, its name.
#[tactic(auto, unfolding(byte_view::specs::Streams::stream_at))]
fn stream_of(image: &[u8], at: usize, place: usize) -> Result<Stream<'_>, BadImage>
    requires { at ≤ length image.now }
    ensures reads { Reads refusal view_stream result (stream_at image.now at place) }
    ensures memory { ¬ WantsMemory refusal result }
    ensures within { IfOk result (λ stream. IsWithin image.now (Some (view_range stream.range))) }
{
    let part = Part::Streams;
    let offset = field32(part, image, place)? as usize;
    if at + offset > image.len() {
        return Err(bad(part, place));
    }
    let size = field32(part, image, place + 4)? as usize;
    let start = at + offset;
    if start + size > image.len() {
        return Err(bad(part, place + 4));
    }
    let name = name_of(image, place + 8)?;
    Ok(Stream {
        name,
        range: Range {
            start,
            end: start + size,
        },
        next: place + 8 + (name.len() / 4 + 1) * 4,
    })
}

/// The streams with one more: the first of a name counts, and an unknown name is passed over.
#[tactic(auto, unfolding(byte_view::specs::Streams::with_stream))]
fn added(streams: Streams, stream: Stream<'_>) -> Streams
    ensures { view_streams result ≡ with_stream (view_streams streams) (view_stream stream.entry) }
{
    let mut all = streams;
    let range = Some(stream.range);
    if stream.name == b"#~".as_slice() {
        all.tables = all.tables.or(range);
    } else if stream.name == b"#Strings".as_slice() {
        all.strings = all.strings.or(range);
    } else if stream.name == b"#US".as_slice() {
        all.user_strings = all.user_strings.or(range);
    } else if stream.name == b"#GUID".as_slice() {
        all.guids = all.guids.or(range);
    } else if stream.name == b"#Blob".as_slice() {
        all.blobs = all.blobs.or(range);
    }
    all
}

/// The streams of `count` headers from `first` on, and the place after them.
fn streams_of(
    image: &[u8],
    at: usize,
    first: usize,
    count: u16,
) -> Result<(Streams, usize), BadImage>
    requires { at ≤ length image.now }
    ensures reads { Reads refusal (λ x. (view_streams x.0, x.1)) result
        (streams_after image.now at first count) }
    ensures memory { ¬ WantsMemory refusal result }
    ensures within { IfOk result (λ x. AreWithin image.now (view_streams x.0)) }
{
    let mut all = Streams {
        tables: None,
        strings: None,
        user_strings: None,
        guids: None,
        blobs: None,
    };
    let mut place = first;
    for _ in 0..count {
        let stream = stream_of(image, at, place)?;
        all = added(all, stream);
        place = stream.next;
    }
    Ok((all, place))
}

/// The range of `#~`, which has to be there, and all streams.
#[tactic(auto, unfolding(byte_view::specs::Streams::streams))]
pub fn read_streams(image: &[u8], at: usize) -> Result<(Range, Streams), BadImage>
    requires { at ≤ length image.now }
    ensures reads { Reads refusal (λ x. (view_range x.0, view_streams x.1)) result
        (streams image.now at) }
    ensures memory { ¬ WantsMemory refusal result }
    ensures within { IfOk result (λ x.
        IsWithin image.now (Some (view_range x.0)) × AreWithin image.now (view_streams x.1)) }
{
    let (count, first) = root_of(image, at)?;
    let (all, after) = streams_of(image, at, first, count)?;
    match all.tables {
        Some(tables) => Ok((tables, all)),
        None => Err(bad(Part::Streams, after)),
    }
}
