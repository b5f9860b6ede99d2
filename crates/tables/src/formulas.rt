// What the formula of a role says.
ghost use Rattle.std.specs.Prelude.{◌≡◌};
ghost use Rattle.judging.specs.Judging.{seen};
ghost use Rattle.judging.specs.Shown.{shown_by};
ghost use Rattle.model.specs.declared.layout.Role.TheVariants.{Reset};
ghost use Rattle.model.specs.Promise.{laid};
ghost use Rattle.model.specs.Reading.{layout};
ghost use Rattle.model.specs.Systems.{System, Sound, Records};
ghost use Rattle.tables.specs.Tables.{says_of, table_in, table_of, four};

use judging::{Reading, Seen, judge};
use model::{Pack, Role};
use std::array;

// Whether the formula of a role holds of what is seen. Where there is no such formula, nothing holds.
pub fn says<R: Reading>(pack: &Pack<'_>, role: Role, shown: &Seen<'_, R>) -> bool
    ensures answer { result ≡ says_of pack.now.bytes.now pack.now.model.now role (shown_by R.side shown.now) }
    ensures system { (k : System) → Sound k → Records k pack.now.bytes.now → layout pack.now.model.now ≡ laid k → table_in pack.now.bytes.now pack.now.model.now ≡ table_of k }
{
    match pack.formula(role) {
        Some(part) => judge(part.code, &pack.model.sizes, shown),
        None => false,
    }
}

// Whether it holds of a state: its values are the next ones too.
pub fn holds<R: Reading>(pack: &Pack<'_>, role: Role, values: &[u8; 8], reading: &R) -> bool
    ensures { result ≡ says_of pack.now.bytes.now pack.now.model.now role (seen values.now values.now (R.side reading.now)) }
{
    let shown = Seen {
        reading,
        values,
        next: values,
    };
    says(pack, role, &shown)
}

// Which clocks a discrete step resets.
pub fn resets<R: Reading>(pack: &Pack<'_>, shown: &Seen<'_, R>) -> [bool; 4]
    ensures { result ≡ four (λ c. says_of pack.now.bytes.now pack.now.model.now (Reset c) (shown_by R.side shown.now)) }
{
    array::from_fn(|clock| says(pack, Role::Reset(clock as u8), shown))
}
