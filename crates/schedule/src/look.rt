// What a caller may ask of a state besides reading its fields.
ghost use Rattle.std.specs.Prelude.{◌≡◌};
ghost use Rattle.rules.specs.Threads.{free_of};
ghost use Rattle.rules.specs.Calls.{Given};

use crate::passes::free_table;
use quantities::{State, Table};

// The free share of the application a, 0 where there is no such application.
pub fn free_share(s: State, a: u16) -> u32
    requires { Given s }
    ensures { result ≡ free_of a s }
{
    if a > Table::MAX_APP {
        return 0;
    }
    free_table(s)[a as usize]
}
