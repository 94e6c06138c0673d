//! The rows of a script's text.

ghost use Rattle.std.specs.Prelude.{◌≡◌, IfSome, IfOk, IfErr};
ghost use Rattle.csv.specs.Reading.{reader_state, source_of};
ghost use Rattle.csv.specs.declared.parser.State.TheVariants as st;
ghost use Rattle.csv.specs.Records.{fields_of};
ghost use Rattle.bx_text.specs.Records.{IsReading};
ghost use Rattle.bx_far.specs.ScriptTexts.{script_columns, IsScript, IsScriptFault};
ghost use Rattle.bx_far.specs.Inside.{script_told_as};

use crate::fault::ScriptFault;
use crate::row::{ScriptRow, script_row};
use crate::script::Script;
use bx_text::{RowForm, RowsFault, is_named, read_records};
use csv::{ByteRecord, Reader};
use std::alloc::{AllocError, Global};
use std::io::Read;

/// How many columns the rows under this header have.
fn columns_under(header: &ByteRecord) -> Option<usize>
    ensures { result ≡ script_columns (fields_of header.now) }
{
    let has_base = is_named(header, 0, "number")
        && is_named(header, 1, "policy")
        && is_named(header, 2, "seconds");
    let has_channel = has_base && is_named(header, 3, "channel");
    match header.len() {
        3 if has_base => Some(3),
        4 if has_channel => Some(4),
        _ => None,
    }
}

/// The rows of a script.
struct ScriptRows;

impl RowForm for ScriptRows {
    ghost use Rattle.bx_far.specs.ScriptTexts.{script_form};

    type Row = ScriptRow;

    type Fault = ScriptFault;

    type List = Script;

    ghost form = { λ _. script_form };

    ghost rows = { λ script. script };

    fn columns_under(&self, header: &ByteRecord) -> Option<usize> {
        columns_under(header)
    }

    fn read_row(
        &self,
        fields: &ByteRecord,
        columns: usize,
        number: u16,
    ) -> Result<ScriptRow, ScriptFault> {
        script_row(fields, columns, number)
    }

    fn none(alloc: Global) -> Script {
        Script::empty(alloc)
    }

    fn keep(script: &mut Script, row: ScriptRow) -> Result<(), AllocError> {
        script.add(row)
    }
}

/// A fault of rows as one of a script.
fn told_as(fault: RowsFault<ScriptFault>) -> ScriptFault
    ensures { result ≡ script_told_as fault }
{
    match fault {
        RowsFault::BadHeader => ScriptFault::BadHeader,
        RowsFault::Row(fault) => fault,
        RowsFault::TooMany => ScriptFault::TooMany,
        RowsFault::Memory => ScriptFault::Memory,
    }
}

/// Reads the header and the rows.
pub(crate) fn read_script<R: Read>(
    alloc: Global,
    records: &mut Reader<R>,
) -> Result<Script, ScriptFault>
    requires { IsReading records.old × (reader_state records.old ≡ st.StartRecord) }
    ensures ok { IfOk result (λ script. IfSome (source_of R.remaining records.old) (λ text. IsScript text script)) }
    ensures err { IfErr result (λ e. IfSome (source_of R.remaining records.old) (λ text. IsScriptFault text e)) }
{
    match read_records(alloc, &ScriptRows, records) {
        Ok(script) => Ok(script),
        Err(fault) => Err(told_as(fault)),
    }
}
