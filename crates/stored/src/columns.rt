// The two columns of the stored form: what each stores of a reading. They are cases and no closures, since
// contracts name them.
ghost use Rattle.std.specs.Prelude.{◌≡◌};
ghost use Rattle.reading.specs.Scale.{OnScale};
ghost use Rattle.stored.specs.Forms.{cell_of};

use reading::Reading;

#[derive(Clone, Copy)]
pub(crate) enum Column {
    Values,
    Weights,
}

impl Column {
    pub(crate) fn cell(self, row: Reading) -> u16
        requires { OnScale row }
        ensures { result ≡ cell_of self row }
    {
        // On the scale, a value fits in an i16 and a weight in a u16.
        match self {
            Column::Values => (row.value as i16).cast_unsigned(),
            Column::Weights => row.weight as u16,
        }
    }
}
