//! The values that a package prefers for its flags. A call costs O(bytes of the flags that IUSE has with `+`), and takes no
//! memory.
ghost use Rattle.std.specs.Prelude.{◌≡◌};
ghost use Rattle.gv_facts.specs.Preferred.{preferred_on};

use crate::Pkg;
use gv_base::Text;

/// Whether the package prefers the flag on: exactly where IUSE has it with `+` (PMS chapter 7).
pub fn preferred_on(pkg: &Pkg, flag: &Text) -> bool
    ensures { result ≡ preferred_on pkg.now flag.now }
{
    pkg.iuse_plus.has(flag.bytes())
}
