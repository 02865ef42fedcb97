ghost use Rattle.std.specs.Prelude.{◌≡◌, Some, true};
ghost use Rattle.service_reg.specs.declared.service.Service.TheVariants as service;
ghost use Rattle.service_ports.specs.Ports.{regfile_ports};
ghost use Rattle.service_ports.specs.Registry.{offer_of};
ghost use Rattle.plug_part.specs.Owned.{offers};

use plug_build::Builder;
use service_ports::{RegFilePorts, Registry};

/// The ports of RegFile that the entry offers. It takes no memory.
pub(crate) fn own_ports(b: &Builder, reg: &Registry) -> RegFilePorts
    requires offers { offers reg.now b.now.entry service.RegFile ≡ true }
    ensures { offer_of reg.now b.now.entry service.RegFile ≡ Some (regfile_ports result) }
{
    reg.regfile().unwrap()
}
