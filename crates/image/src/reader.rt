// One record of an image at an offset, and the offset of the next.
ghost use Rattle.std.specs.Prelude.{◌≡◌, ◌≤◌, true, length, IfOk};
ghost use Rattle.image.specs.Reading.{read_path, read_deps, read_at};
ghost use Rattle.image.specs.Heads.{body_by};
ghost use Rattle.image.specs.Learning.{view};
ghost use Rattle.image.specs.Shown.{shown, answered, is_good, offset_of, Leads};
ghost use Rattle.image.specs.Laws.{ReadsBack, ReadsTorn};

use super::cause::Cause;
use super::head::{Head, Kind};
use super::records::{Deps, Read};
use super::table::DepsTable;
use super::words::{all_below, unpadded};
use terms::At;

// A path record, by the bytes behind its word.
fn read_path<'a>(body: &'a [u8], at: usize, known: &DepsTable) -> Result<Read<'a>, Cause>
    requires { 8 ≤ length body.now }
    ensures value { shown (answered result) ≡ read_path (view known.now).names body.now }
    ensures offset { offset_of at (answered result) ≡ at }
    ensures good { IfOk result (λ x. is_good (shown x) ≡ true) }
{
    let (padded, sum) = body.split_last_chunk::<4>().unwrap();
    if u32::from_le_bytes(*sum) as usize != 0xffff_ffff - known.path_count() {
        return Err(Cause::BadChecksum);
    }
    let name = unpadded(padded);
    if name.contains(&0) || known.id_of(name).is_some() {
        return Err(Cause::BadName);
    }
    Ok(Read::Path(At {
        offset: at,
        value: name,
    }))
}

// A deps record, by the bytes behind its word.
fn read_deps<'a>(body: &'a [u8], at: usize, known: &DepsTable) -> Result<Read<'a>, Cause>
    requires { 12 ≤ length body.now }
    ensures value { shown (answered result) ≡ read_deps (view known.now).names body.now }
    ensures offset { offset_of at (answered result) ≡ at }
    ensures good { IfOk result (λ x. is_good (shown x) ≡ true) }
{
    let (output, rest) = body.split_first_chunk::<4>().unwrap();
    let (mtime, ids) = rest.split_first_chunk::<8>().unwrap();
    let output = u32::from_le_bytes(*output);
    let count = known.path_count();
    if output as usize >= count || !all_below(ids, count) {
        return Err(Cause::UnknownId);
    }
    let mtime = u64::from_le_bytes(*mtime);
    Ok(Read::Deps(At {
        offset: at,
        value: Deps { output, mtime, ids },
    }))
}

// The record that begins with a head, by the bytes that remain behind it.
fn read_body<'a>(
    head: Head,
    rest: &'a [u8],
    at: usize,
    known: &DepsTable,
) -> Result<Read<'a>, Cause>
    ensures value { shown (answered result) ≡ body_by (view known.now).names head rest.now }
    ensures offset { offset_of at (answered result) ≡ at }
    ensures good { IfOk result (λ x. is_good (shown x) ≡ true) }
{
    let body = rest.get(..head.size).ok_or(Cause::TooLong)?;
    if head.is_odd() {
        return Err(Cause::BadSize);
    }
    match head.kind {
        Kind::Path => read_path(body, at, known),
        Kind::Deps => read_deps(body, at, known),
    }
}

// What stands at an offset of the image, given the names that are known, and the offset of the next record. A written record is read back as
// itself; of one that is cut nothing is taken for good; and nothing is read past the image.
pub fn read_record<'a>(image: &'a [u8], at: usize, known: &DepsTable) -> (Read<'a>, usize)
    ensures value { (shown result.0, result.1) ≡ read_at (view known.now).names image.now at }
    ensures offset { offset_of at result.0 ≡ at }
    ensures leads { Leads (shown result.0) at result.1 (length image.now) }
    ensures back { ReadsBack (view known.now).names image.now at (shown result.0) result.1 }
    ensures torn { ReadsTorn (view known.now).names image.now at (shown result.0) }
{
    if at >= image.len() {
        return (Read::End, at);
    }
    let Some((head, rest)) = image[at..].split_first_chunk::<4>() else {
        return (Read::Bad(Cause::NoWord), at);
    };
    let head = Head::from(u32::from_le_bytes(*head));
    match read_body(head, rest, at, known) {
        Ok(read) => (read, at + 4 + head.size),
        Err(cause) => (Read::Bad(cause), at),
    }
}
