//! Records of fields that are read, RFC 4180 as `csv` reads them.

ghost use Rattle.std.specs.Prelude.{◌≡◌, true, IfOk, OnErr, option_map};
ghost use Rattle.std.specs.Str.{bytes_eq};
ghost use Rattle.csv.specs.Reading.{reader_state, reader_source, has_failed, ReadRecord, source_of, strip_bom};
ghost use Rattle.csv.specs.declared.parser.State.TheVariants as st;
ghost use Rattle.csv.specs.Records.{fields_of};
ghost use Rattle.bx_text.specs.Records.{field_of, IsReading};

use csv::{ByteRecord, Reader, ReaderBuilder};
use std::alloc::Global;
use std::io::Read;

/// No record was read, since the reader underneath failed or memory ran out.
#[derive(Clone, Copy)]
pub struct ReadRefused;

/// A reader of records that takes any number of fields, over these octets.
pub fn records_of<R: Read>(alloc: Global, reader: R) -> Reader<R>
    ensures ready { IsReading result × (reader_state result ≡ st.StartRecord) }
    ensures source { source_of R.remaining result ≡ option_map strip_bom (R.remaining reader) }
    ensures reader { reader_source result ≡ reader }
{
    ReaderBuilder::new()
        .has_headers(false)
        .flexible(true)
        .from_reader(alloc, reader)
}

/// Reads the next record, and answers whether there is one. The reader is one of `records_of` that no read has failed on.
/// `ReadRefused` where the reader underneath fails, or memory runs out.
pub fn read_next<R: Read>(
    records: &mut Reader<R>,
    fields: &mut ByteRecord,
) -> Result<bool, ReadRefused>
    requires { IsReading records.old }
    ensures ok { IfOk result (λ found. IsReading records.new × ReadRecord R.remaining records.old records.new found (fields_of fields.new)) }
    ensures err { OnErr result (has_failed records.new ≡ true) }
{
    match records.read_byte_record(fields) {
        Ok(found) => Ok(found),
        Err(_) => Err(ReadRefused),
    }
}

/// The field of a place, counted from 0, and an empty one beyond the last.
pub fn field(fields: &ByteRecord, place: usize) -> &[u8]
    ensures { result.now ≡ field_of (fields_of fields.now) place }
{
    match fields.get(place) {
        Some(field) => field,
        None => &[],
    }
}

/// Whether the field of this place is this word.
pub fn is_named(fields: &ByteRecord, place: usize, word: &str) -> bool
    ensures { result ≡ bytes_eq (field_of (fields_of fields.now) place) word.now }
{
    field(fields, place) == word.as_bytes()
}
