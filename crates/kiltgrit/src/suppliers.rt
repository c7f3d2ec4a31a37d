// A supplier's list, for a host in Rust or C.
ghost use Rattle.std.specs.Prelude.{◌≡◌};
ghost use Rattle.models.specs.Suppliers.{import_fault, imported};

use crate::border::c_number;
use models::suppliers::import;

#[unsafe(no_mangle)]
pub extern "C" fn kiltgrit_import(text: &[u8], n: usize, entries: &mut [f64]) -> u32
    ensures { (result ≡ import_fault n entries.old text.now)
        × (entries.new ≡ imported n entries.old text.now) }
{
    c_number(import(text, n, entries))
}
