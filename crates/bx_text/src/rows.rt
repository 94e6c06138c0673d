//! Rows under a header, read one after another. Which headers there are and what a row is, a form says.

ghost use Rattle.std.specs.Prelude.{◌≡◌, ◌<◌, ◌++◌, ◌∷◌, [], List, length, OnOk, IfSome, IfOk, IfErr};
ghost use Rattle.csv.specs.Reading.{reader_state, source_of};
ghost use Rattle.csv.specs.declared.parser.State.TheVariants as st;
ghost use Rattle.csv.specs.Records.{fields_of};
ghost use Rattle.bx_text.specs.Forms.{Form};
ghost use Rattle.bx_text.specs.Records.{IsReading};
ghost use Rattle.bx_text.specs.Rows.{HasRows, IsFirstFault};
ghost use Rattle.bx_text.specs.Inside.{AfterHeader, IsHeaderRead};

use crate::records::read_next;
use crate::rows_fault::RowsFault;
use bx_base::MAX_BOOKINGS;
use csv::{ByteRecord, Reader};
use std::alloc::{AllocError, Global};
use std::io::Read;

/// What the rows of a text are, and where they are kept.
pub trait RowForm {
    type Row: Drop;

    type Fault: Drop;

    type List: Drop;

    ghost form: { Self → Form Self.Row Self.Fault };

    ghost rows: { Self.List → List Self.Row };

    /// How many columns the rows have under this header, if it is one.
    fn columns_under(&self, header: &ByteRecord) -> Option<usize>
        ensures { result ≡ (form self.now).columns_under (fields_of header.now) };

    /// The row of this number, counted from 1, or what is wrong with it.
    fn read_row(
        &self,
        fields: &ByteRecord,
        columns: usize,
        number: u16,
    ) -> Result<Self::Row, Self::Fault>
        ensures ok { IfOk result ((form self.now).IsRow columns (fields_of fields.now)) }
        ensures err { IfErr result ((form self.now).IsRowFault columns number (fields_of fields.now)) };

    /// A list with no rows.
    fn none(alloc: Global) -> Self::List
        ensures { rows result ≡ [] };

    /// Adds a row after fewer than 16,000.
    fn keep(list: &mut Self::List, row: Self::Row) -> Result<(), AllocError>
        requires { length (rows list.old) < MAX_BOOKINGS }
        ensures { OnOk result (rows list.new ≡ rows list.old ++ row ∷ []) };
}

/// Reads the header, and answers how many columns the rows have.
fn read_header<R: Read, F: RowForm>(
    form: &F,
    records: &mut Reader<R>,
    fields: &mut ByteRecord,
) -> Result<usize, RowsFault<F::Fault>>
    requires { IsReading records.old × (reader_state records.old ≡ st.StartRecord) }
    ensures ok { IfOk result (IsHeaderRead (F.form form.now) R.remaining records.old records.new) }
    ensures err { IfErr result (λ e. IfSome (source_of R.remaining records.old) (λ text. IsFirstFault (F.form form.now) text e)) }
{
    let Ok(found) = read_next(records, fields) else {
        return Err(RowsFault::Memory);
    };
    if !found {
        return Err(RowsFault::BadHeader);
    }
    match form.columns_under(fields) {
        Some(columns) => Ok(columns),
        None => Err(RowsFault::BadHeader),
    }
}

/// Reads the rows after the header.
fn read_rows<R: Read, F: RowForm>(
    form: &F,
    records: &mut Reader<R>,
    fields: &mut ByteRecord,
    columns: usize,
    list: &mut F::List,
) -> Result<(), RowsFault<F::Fault>>
    requires reading { IsReading records.old }
    requires empty { F.rows list.old ≡ [] }
    ensures ok { AfterHeader (F.form form.now) R.remaining records.old columns (λ text. OnOk result (HasRows (F.form form.now) text (F.rows list.new))) }
    ensures err { AfterHeader (F.form form.now) R.remaining records.old columns (λ text. IfErr result (IsFirstFault (F.form form.now) text)) }
{
    for number in 1..MAX_BOOKINGS as u16 + 1 {
        let Ok(found) = read_next(records, fields) else {
            return Err(RowsFault::Memory);
        };
        if !found {
            return Ok(());
        }
        let row = match form.read_row(fields, columns, number) {
            Ok(row) => row,
            Err(fault) => return Err(RowsFault::Row(fault)),
        };
        if F::keep(list, row).is_err() {
            return Err(RowsFault::Memory);
        }
    }
    match read_next(records, fields) {
        Ok(true) => Err(RowsFault::TooMany),
        Ok(false) => Ok(()),
        Err(_) => Err(RowsFault::Memory),
    }
}

/// Reads a header and at most 16,000 rows from a reader of `records_of` that nothing was read of. The answer is all rows, or the
/// first fault: `BadHeader`, `Row`, `TooMany`; or `Memory` where memory runs out or the reader underneath fails.
pub fn read_records<R: Read, F: RowForm>(
    alloc: Global,
    form: &F,
    records: &mut Reader<R>,
) -> Result<F::List, RowsFault<F::Fault>>
    requires { IsReading records.old × (reader_state records.old ≡ st.StartRecord) }
    ensures ok { IfOk result (λ list. IfSome (source_of R.remaining records.old) (λ text. HasRows (F.form form.now) text (F.rows list))) }
    ensures err { IfErr result (λ e. IfSome (source_of R.remaining records.old) (λ text. IsFirstFault (F.form form.now) text e)) }
{
    let mut fields = ByteRecord::new(alloc);
    let columns = read_header(form, records, &mut fields)?;
    let mut list = F::none(alloc);
    read_rows(form, records, &mut fields, columns, &mut list)?;
    Ok(list)
}
