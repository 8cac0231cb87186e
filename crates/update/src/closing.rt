// The table after a closing: the records that its context names are gone. Only blocks whose records differ are written.
ghost use Rattle.std.specs.Prelude.{◌≡◌};
ghost use Rattle.sums.specs.Code.{sums_of};
ghost use Rattle.format.specs.Block.{blocks as blocks_of};
ghost use Rattle.format.specs.Table.{table_image};
ghost use Rattle.format.specs.Records.{records_here};
ghost use Rattle.judge.specs.Close.{closed};
ghost use Rattle.fields.specs.Code.{HasRoom};
ghost use Rattle.update.specs.Became.{WrittenIs};

use crate::table_after::{Written, write_settled};
use closed_records::closing::close_records;
use fields::layout::CONTEXT_BYTES;
use sums::sum::Sum;

// Writes the table after a closing.
pub fn write_closed(
    stamp: Sum,
    context: &[u8; CONTEXT_BYTES],
    table: &mut [u8],
    n: usize,
) -> Written
    requires has_room { HasRoom table.old n }
    requires table_value { table.old ≡ table_image (sums_of stamp) (blocks_of table.old) (records_here table.old n) }
    ensures { WrittenIs (sums_of stamp) table.old n table.new (closed context.now (records_here table.old n)) result }
{
    let left = close_records(context, table, n);
    write_settled(stamp, table, n, left)
}
