// Writing the stored form: nothing is written unless all of it fits.
ghost use Rattle.std.specs.Prelude.{◌≡◌, ◌+◌, ◌*◌, ◌≤◌, length, take, IfOk, Ok};
ghost use Rattle.reading.specs.Readings.{rows_of};
ghost use Rattle.reading.specs.Lists.{delivered, filled, put_from};
ghost use Rattle.stored.specs.Forms.{column_bytes, decoded, storable};

use crate::columns::Column;
use crate::words::put_word;
use reading::{LIMIT, Readings, Refusal};

// Writes one column of the readings, from the word at an index on, and by index as `put_word` says.
#[tactic(auto, using(crate::proofs::Lays::column_laid))]
fn put_column(list: Readings<'_>, column: Column, into: &mut [u8], at: usize)
    requires { 2 * (at + length (rows_of list)) ≤ length into.old }
    ensures { into.new ≡ put_from (2 * at) (column_bytes column (rows_of list.entry)) into.old }
{
    for (i, row) in list.rows().iter().enumerate() {
        put_word(into, at + i, column.cell(*row));
    }
}

// Writes readings as stored bytes to the front of a slice, and answers how many bytes.
#[tactic(auto, using(crate::proofs::Lays::whole_laid, crate::proofs::Lays::whole_back, crate::proofs::Lays::none_laid, crate::proofs::Trips::length_encoded))]
pub fn write(list: Readings<'_>, into: &mut [u8]) -> Result<usize, Refusal>
    ensures value { result ≡ delivered (storable (rows_of list.entry)) into.old }
    ensures after { into.new ≡ filled (storable (rows_of list.entry)) into.old }
    ensures reads_back { IfOk result (λ n. decoded (take n into.new) ≡ Ok (rows_of list.entry)) }
{
    let count = list.len();
    if count > LIMIT {
        return Err(Refusal::TooMany { size: count });
    }
    let needed = 4 + 4 * count;
    // Each call tests the room for what it alone has counted; a function for it would be no plainer.
    if needed > into.len() {
        return Err(Refusal::TooLittleRoom { needed });
    }
    // The limit fits two bytes, so no `try_from`.
    put_word(into, 0, count as u16);
    put_word(into, 1, count as u16);
    put_column(list, Column::Values, into, 2);
    put_column(list, Column::Weights, into, 2 + count);
    Ok(needed)
}
