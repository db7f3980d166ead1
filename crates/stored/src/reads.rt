// Reading the stored form: everything is checked before anything is written.
ghost use Rattle.std.specs.Prelude.{◌≡◌, ◌+◌, ◌*◌, List, length, take, drop, IfOk, Ok};
ghost use Rattle.reading.specs.declared.scale.Reading.{Reading};
ghost use Rattle.reading.specs.Lists.{delivered, filled};
ghost use Rattle.reading.specs.Results.{then};
ghost use Rattle.stored.specs.Forms.{decoded, encoded, stored_rows};

use crate::table::Table;
use reading::{Reading, Refusal};

// How many readings stored bytes hold; refused where the bytes are no stored profile.
#[tactic(auto, using(crate::proofs::Decodes::decoded_granted, crate::proofs::Decodes::decoded_exact))]
pub fn check(bytes: &[u8]) -> Result<usize, Refusal>
    ensures value { result ≡ then (decoded bytes.now) (λ rs. Ok (length rs)) }
    ensures rows { IfOk result (λ n. (decoded bytes.now ≡ Ok (stored_rows n (drop 4 bytes.now))) × (length bytes.now ≡ 4 + 4 * n)) }
    ensures exact { (rs : List Reading) → decoded bytes.now ≡ Ok rs → encoded rs ≡ bytes.now }
{
    Table::of(bytes).map(Table::len)
}

// Writes the readings that stored bytes hold to the front of a list, and answers how many. Each call says of
// itself that it delivers what it grants, since each is read alone.
#[tactic(auto, using(crate::proofs::Decodes::decoded_exact, reading::proofs::Puts::take_put))]
pub fn read(bytes: &[u8], into: &mut [Reading]) -> Result<usize, Refusal>
    ensures value { result ≡ delivered (decoded bytes.now) into.old }
    ensures after { into.new ≡ filled (decoded bytes.now) into.old }
    ensures exact { IfOk result (λ n. encoded (take n into.new) ≡ bytes.now) }
{
    let table = Table::of(bytes)?;
    let count = table.len();
    // Each call tests the room for what it alone has counted; a function for it would be no plainer.
    if count > into.len() {
        return Err(Refusal::TooLittleRoom { needed: count });
    }
    table.fill(into);
    Ok(count)
}
