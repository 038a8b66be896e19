ghost use Rattle.std.specs.Prelude.{◌≡◌, find, bytes_eq};

use lk_outside::Store;

/// The first of these stores that has the wanted name, if there is one. The others are dropped.
pub fn pick(stores: Vec<Box<dyn Store + Drop>>, wanted: &str) -> Option<Box<dyn Store + Drop>>
    ensures { result ≡ find (λ store. bytes_eq wanted.now (name store)) stores.items }
{
    for store in stores {
        if wanted == store.name() {
            return Some(store);
        }
    }
    None
}
