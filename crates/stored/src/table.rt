// The table behind the sizes of stored bytes: a column of values and a column of weights.
ghost use Rattle.std.specs.Prelude.{◌≡◌, ◌≤◌, length};
ghost use Rattle.stored.specs.Rows.{row_from};

use reading::{LIMIT, Reading, Refusal};

// As many values as weights, each in its two bytes.
#[derive(Clone, Copy)]
pub(crate) struct Table<'a> {
    // The stored form has two columns.
    values: &'a [[u8; 2]],
    weights: &'a [[u8; 2]],
    ghost alike: { length weights.now ≡ length values.now },
}

// A row, on the scale or not.
fn row_from(value: [u8; 2], weight: [u8; 2]) -> Reading
    ensures { result ≡ row_from value weight }
{
    Reading {
        value: i32::from(i16::from_le_bytes(value)),
        weight: u32::from(u16::from_le_bytes(weight)),
    }
}

impl<'a> Table<'a> {
    ghost use Rattle.std.specs.Prelude.{Ok};
    ghost use Rattle.reading.specs.Lists.{put_from};
    ghost use Rattle.reading.specs.Results.{then};
    ghost use Rattle.stored.specs.Forms.{all_admitted, decoded};
    ghost use Rattle.stored.specs.Tables.{table_rows};

    // The table in stored bytes; refused where the sizes or the length are wrong.
    #[tactic(auto, using(crate::proofs::Decodes::table_decoded))]
    fn sized(bytes: &'a [u8]) -> Result<Table<'a>, Refusal>
        ensures { decoded bytes.now ≡ then result (λ t. all_admitted 1 (table_rows t)) }
    {
        let ([values, weights, cells @ ..], _) = bytes.as_chunks::<2>() else {
            return Err(Refusal::WrongLength {
                length: bytes.len(),
            });
        };
        let size = usize::from(u16::from_le_bytes(*values));
        if usize::from(u16::from_le_bytes(*weights)) != size {
            return Err(Refusal::SizesDiffer);
        }
        if size > LIMIT {
            return Err(Refusal::TooMany { size });
        }
        if bytes.len() != 4 + 4 * size {
            return Err(Refusal::WrongLength {
                length: bytes.len(),
            });
        }
        let (values, weights) = cells.split_at(size);
        Ok(Table { values, weights })
    }

    // This table, if each row is on the scale; else what is wrong with the first that is not.
    #[tactic(auto, using(crate::proofs::Rows::rows_none, crate::proofs::Admits::all_admitted_whole))]
    fn admitted(self) -> Result<Table<'a>, Refusal>
        ensures { then result (λ t. Ok (table_rows t)) ≡ all_admitted 1 (table_rows self.entry) }
    {
        for (i, (value, weight)) in self.values.iter().zip(self.weights).enumerate() {
            row_from(*value, *weight).admit(i + 1)?;
        }
        Ok(self)
    }

    // The table in stored bytes; refused where the bytes are no stored profile.
    pub(crate) fn of(bytes: &'a [u8]) -> Result<Table<'a>, Refusal>
        ensures { then result (λ t. Ok (table_rows t)) ≡ decoded bytes.now }
    {
        Table::sized(bytes)?.admitted()
    }

    // How many rows there are.
    #[tactic(auto, using(crate::proofs::Rows::length_rows))]
    pub(crate) fn len(self) -> usize
        ensures { result ≡ length (table_rows self.entry) }
    {
        self.values.len()
    }

    // Copies the rows to the front of a list. The walk is that of `admitted`, but it writes.
    #[tactic(auto, using(crate::proofs::Rows::rows_none, reading::proofs::Puts::put_none))]
    pub(crate) fn fill(self, into: &mut [Reading])
        requires { length (table_rows self) ≤ length into.old }
        ensures { into.new ≡ put_from 0 (table_rows self.entry) into.old }
    {
        for (i, (value, weight)) in self.values.iter().zip(self.weights).enumerate() {
            // A proof knows nothing of the elements after `iter_mut` under `zip`, so the write is by index.
            into[i] = row_from(*value, *weight);
        }
    }
}
