// Host names.
ghost use Rattle.std.specs.Prelude.{◌≡◌};
ghost use Rattle.host_name.specs.Name.{well_formed};
ghost use Rattle.host_name.specs.Folding.{folded_name};

use host_name::folding;

#[unsafe(no_mangle)]
pub extern "C" fn tack_name_well_formed(name: &[u8]) -> bool
    ensures { result ≡ well_formed (folded_name name.now) }
{
    folding::well_formed(name)
}
