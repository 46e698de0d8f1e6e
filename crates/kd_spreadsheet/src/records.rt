//! Splits a table into its rows.
ghost use Rattle.std.specs.Prelude.{[], map, IfOk};
ghost use Rattle.csv.specs.Records.{fields_of};
ghost use Rattle.kd_spreadsheet.specs.{Records.{IsReadTo}, Table.{AreRows}};

use crate::quotes::separator_of;
use csv::{ByteRecord, ByteRecordsIntoIter, ReaderBuilder};
use std::alloc::{AllocError, Global};

/// The rows of a table, which include its first row. `AllocError` if memory runs out.
pub fn read_records(alloc: Global, table: &[u8]) -> Result<Vec<ByteRecord>, AllocError>
    ensures { IfOk result (λ rows. AreRows table.now (map fields_of rows.items)) }
{
    let mut rows = Vec::new(alloc);
    for row in records_of(alloc, table) {
        let Ok(row) = row else {
            return Err(AllocError);
        };
        if rows.push(row).is_err() {
            return Err(AllocError);
        }
    }
    Ok(rows)
}

fn records_of(alloc: Global, table: &[u8]) -> ByteRecordsIntoIter<&[u8]>
    ensures { IsReadTo table.now result [] }
{
    let rdr = ReaderBuilder::new()
        .has_headers(false)
        .flexible(true)
        .delimiter(separator_of(table))
        .from_reader(alloc, table);
    rdr.into_byte_records()
}
